//! That the bounds of a graph lie within the span of a square.

ghost use Rattle.std.specs.Prelude.{All, pos, ◌*◌, ◌^◌};
ghost use Rattle.flow_cost.specs.Cost.{IsWithin};

use flow_graph::{ArcId, Graph};
use std::process::Abort;

/// Tests that the bounds lie within the span of a square.
pub(crate) fn assert_spans(rt: &impl Abort, graph: &Graph<u32, u32>)
    ensures { All (λ arc. IsWithin (pos (10 ^ 12)) arc.lo × IsWithin (pos (10 ^ 12)) arc.hi) graph.now.arcs }
{
    for a in 0..graph.arc_count() {
        let (lo, hi) = graph.bounds(ArcId(a));
        assert!(rt; lo >= -1_000_000_000_000);
        assert!(rt; hi <= 1_000_000_000_000);
    }
}

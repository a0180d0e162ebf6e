//! What potentials show, and which sets contradict.

ghost use Rattle.std.specs.Prelude.{All, pos, ◌*◌, ◌^◌};
ghost use Rattle.flow_cost.specs.Cost.{IsWithin};

use crate::graphs::{add_arcs, add_nodes};
use crate::spans::assert_spans;
use flow_check::{contradicts, shows_least};
use flow_cost::Square;
use flow_graph::{ArcId, Graph, NodeId};
use std::process::Abort;
use std::test::Fail;

/// A graph of two nodes with an arc each way, within these bounds.
fn two_nodes(
    rt: &impl Abort,
    mut graph: Graph<u32, u32>,
    there: (i64, i64),
    back: (i64, i64),
) -> Graph<u32, u32> {
    add_nodes(rt, &mut graph, &[(0, Ok(NodeId(0))), (1, Ok(NodeId(1)))]);
    let arcs = [
        (0, 0, 1, there.0, there.1, Ok(ArcId(0))),
        (1, 1, 0, back.0, back.1, Ok(ArcId(1))),
    ];
    add_arcs(rt, &mut graph, &arcs);
    graph
}

/// Tests that the potentials are in range.
fn assert_potentials(rt: &impl Abort, potentials: &[i128])
    ensures { All (IsWithin (pos (10 ^ 24))) potentials.now }
{
    for potential in potentials {
        assert!(rt; *potential >= -1_000_000_000_000_000_000_000_000);
        assert!(rt; *potential <= 1_000_000_000_000_000_000_000_000);
    }
}

/// What the check says, after a test of what it requires.
fn is_shown(
    rt: &impl Abort,
    graph: &Graph<u32, u32>,
    costs: &[Square],
    flows: &[i64],
    potentials: &[i128],
) -> bool {
    assert_spans(rt, graph);
    assert_potentials(rt, potentials);
    assert!(rt; costs.len() == graph.arc_count() as usize);
    assert!(rt; flows.len() == graph.arc_count() as usize);
    assert!(rt; potentials.len() == graph.node_count() as usize);
    shows_least(graph, costs, flows, potentials)
}

#[test]
fn shows_the_least_circulation(rt: HostRuntime) -> Result<(), Fail> {
    let graph = two_nodes(&rt, Graph::new(rt.alloc()), (0, 10), (0, 5));
    let costs = [Square::new(7, 1).ok_or("7")?, Square::new(5, 1).ok_or("5")?];
    for (flows, potentials, want) in [
        ([5, 5], [4, 0], true),
        ([5, 5], [3, 0], true),
        ([5, 5], [5, 0], true),
        ([5, 5], [2, 0], false),
        ([5, 5], [6, 0], false),
        ([4, 4], [4, 0], false),
        ([5, 4], [4, 0], false),
        ([-1, -1], [17, 0], false),
        ([6, 6], [2, 0], false),
        ([i64::MAX, i64::MIN], [4, 0], false),
    ] {
        assert_eq!(rt;
            is_shown(&rt, &graph, &costs, &flows, &potentials),
            want,
            "{flows:?} {potentials:?}"
        );
    }
    Ok(())
}

#[test]
fn finds_contradicting_sets(rt: HostRuntime) {
    for (there, set, want) in [
        ((0, 5), [true, false], true),
        ((0, 6), [true, false], false),
        ((0, 5), [false, true], false),
        ((0, 5), [true, true], false),
        ((9, 10), [false, true], true),
    ] {
        let graph = two_nodes(&rt, Graph::new(rt.alloc()), there, (6, 8));
        assert!(rt; graph.node_count() == 2);
        assert_eq!(rt; contradicts(&graph, &set), want, "{there:?} {set:?}");
    }
}

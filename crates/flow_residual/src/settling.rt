ghost use Rattle.std.specs.Prelude.{◌≡◌, ℕ, ◌*◌, ◌^◌, ◌<◌, ℤ, pos, ◌+ℤ◌, ◌-ℤ◌, ◌≤ℤ◌, Some, length, slice_get, IsSomeAnd};
ghost use Rattle.std.specs.List.{AllZip};
ghost use Rattle.flow_cost.specs.Cost.{IsWithin};
ghost use Rattle.flow_cost.specs.Settle.{IsNearestSettled};
ghost use Rattle.flow_graph.specs.declared.arcs.Arc.{Arc};
ghost use Rattle.flow_graph.specs.Circulation.{IsFlow};
ghost use Rattle.flow_graph.specs.Condition.{rise, Carries, FitSpans, ArePotentials};
ghost use Rattle.flow_residual.specs.Flows.{IsStep};

use flow_cost::{Cost, settle};
use flow_graph::{ArcId, Graph, Name};

/// How much higher one potential is than another.
fn rise_of(there: i128, here: i128) -> i128
    requires there { IsWithin (pos (10 ^ 24)) there }
    requires here { IsWithin (pos (10 ^ 24)) here }
    ensures value { result ≡ there -ℤ here }
    ensures small { IsWithin (pos (2 * 10 ^ 24)) result }
{
    there - here
}

/// Where an arc's flow settles, under the arc's rise.
fn settled<N: Name, A: Name, C: Cost>(
    g: &Graph<N, A>,
    costs: &[C],
    potentials: &[i128],
    a: ArcId,
    x: i64,
    step: i64,
) -> i64
    requires step { IsStep step }
    requires there { a.0 < length g.now.arcs }
    requires spans { FitSpans C.span_of g.now.arcs costs.now }
    requires potentials { ArePotentials (pos (10 ^ 24)) (length g.now.nodes) potentials.now }
    requires within { IsSomeAnd (slice_get g.now.arcs a.0) (λ arc. IsFlow arc x) }
    ensures { (arc : Arc) (c : C) → slice_get g.now.arcs a.0 ≡ Some arc → slice_get costs.now a.0 ≡ Some c → IsNearestSettled (C.value_at c) x arc.lo arc.hi step (rise potentials.now arc) result }
{
    let (tail, head) = g.ends(a);
    let (lo, hi) = g.bounds(a);
    let up = rise_of(potentials[head.0 as usize], potentials[tail.0 as usize]);
    settle(&costs[a.0 as usize], x, lo, hi, step, up)
}

/// Settles each flow, under its arc's rise.
pub(crate) fn settle_flows<N: Name, A: Name, C: Cost>(
    g: &Graph<N, A>,
    costs: &[C],
    potentials: &[i128],
    flows: &mut Vec<i64>,
    step: i64,
)
    requires step { IsStep step }
    requires spans { FitSpans C.span_of g.now.arcs costs.now }
    requires potentials { ArePotentials (pos (10 ^ 24)) (length g.now.nodes) potentials.now }
    requires bounded { AllZip IsFlow g.now.arcs flows.old.items }
    ensures counted { length flows.new.items ≡ length flows.old.items }
    ensures each { (a : ℕ) (arc : Arc) (c : C) (x y : ℤ) → Carries g.now.arcs costs.now flows.old.items a arc c x → slice_get flows.new.items a ≡ Some y → IsNearestSettled (C.value_at c) x arc.lo arc.hi step (rise potentials.now arc) y }
{
    for a in 0..g.arc_count() {
        let x = flows[a as usize];
        flows[a as usize] = settled(g, costs, potentials, ArcId(a), x, step);
    }
}

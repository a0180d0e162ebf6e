ghost use Rattle.std.specs.Prelude.{◌≡◌, ℕ, ◌*◌, ◌^◌, ◌<◌, true, false, ℤ, pos, ◌+ℤ◌, ◌-ℤ◌, neg_ℤ, ◌≤ℤ◌, length, MatchOption, IfSome};
ghost use Rattle.flow_cost.specs.Cost.{IsWithin};
ghost use Rattle.flow_cost.specs.Condition.{floor_quotient, ceil_quotient, slope_up, slope_down};
ghost use Rattle.flow_residual.specs.Flows.{IsStep};
ghost use Rattle.flow_residual.specs.Path.{Move};
ghost use Rattle.flow_residual.specs.Edges.{slope_limit, IsEdge};

use flow_cost::Cost;
use flow_graph::{ArcId, Name, NodeId};
use flow_residual::State;

/// The quotient by a step, rounded down.
fn floor_by(d: i128, step: i64) -> i128
    requires step { IsStep step }
    requires small { IsWithin (pos (8 * 10 ^ 28)) d }
    ensures { result ≡ floor_quotient d step }
{
    d.div_euclid(step as i128)
}

/// The quotient by a step, rounded up.
fn ceil_by(d: i128, step: i64) -> i128
    requires step { IsStep step }
    requires small { IsWithin (pos (8 * 10 ^ 28)) d }
    ensures { result ≡ ceil_quotient d step }
{
    -(-d).div_euclid(step as i128)
}

/// What a number costs more than another.
fn difference<C: Cost>(cost: &C, from: i64, to: i64) -> i128
    requires from { IsWithin (C.span_of cost.now) from }
    requires to { IsWithin (C.span_of cost.now) to }
    ensures value { result ≡ C.value_at cost.now to -ℤ C.value_at cost.now from }
    ensures small { IsWithin (pos (8 * 10 ^ 28)) result }
{
    cost.at(to) - cost.at(from)
}

/// What each unit of a step up costs, rounded up.
fn price_up<C: Cost>(cost: &C, x: i64, step: i64) -> i128
    requires step { IsStep step }
    requires from { IsWithin (C.span_of cost.now) x }
    requires to { IsWithin (C.span_of cost.now) (x +ℤ step) }
    ensures value { result ≡ slope_up (C.value_at cost.now) step x }
    ensures small { IsWithin slope_limit result }
{
    ceil_by(difference(cost, x, x + step), step)
}

/// What each unit of a step down saves, rounded down.
fn saving_down<C: Cost>(cost: &C, x: i64, step: i64) -> i128
    requires step { IsStep step }
    requires from { IsWithin (C.span_of cost.now) x }
    requires to { IsWithin (C.span_of cost.now) (x -ℤ step) }
    ensures value { result ≡ slope_down (C.value_at cost.now) step x }
    ensures small { IsWithin slope_limit result }
{
    floor_by(difference(cost, x - step, x), step)
}

/// The node that the arc's move up enters from a node, and its price, where it leaves that node and is open.
fn edge_up<N: Name, A: Name, C: Cost>(
    s: &State<N, A, C>,
    u: NodeId,
    a: ArcId,
    step: i64,
) -> Option<(NodeId, i128)>
    requires step { IsStep step }
    requires there { a.0 < length s.now.graph.arcs }
    ensures edge { MatchOption result ((v : ℕ) (price : ℤ) → IsEdge C.value_at step s.now (record { arc = a.0; up = true }) u.0 v price → ⊥) (λ e. IsEdge C.value_at step s.now (record { arc = a.0; up = true }) u.0 e.0.0 e.1) }
    ensures small { IfSome result (λ e. (e.0.0 < length s.now.graph.nodes) × IsWithin slope_limit e.1) }
{
    let graph = s.graph();
    let (tail, head) = graph.ends(a);
    let (_, hi) = graph.bounds(a);
    let x = s.flow(a);
    if tail != u || x + step > hi {
        return None;
    }
    Some((head, price_up(s.cost(a), x, step)))
}

/// The same for the move down.
fn edge_down<N: Name, A: Name, C: Cost>(
    s: &State<N, A, C>,
    u: NodeId,
    a: ArcId,
    step: i64,
) -> Option<(NodeId, i128)>
    requires step { IsStep step }
    requires there { a.0 < length s.now.graph.arcs }
    ensures edge { MatchOption result ((v : ℕ) (price : ℤ) → IsEdge C.value_at step s.now (record { arc = a.0; up = false }) u.0 v price → ⊥) (λ e. IsEdge C.value_at step s.now (record { arc = a.0; up = false }) u.0 e.0.0 e.1) }
    ensures small { IfSome result (λ e. (e.0.0 < length s.now.graph.nodes) × IsWithin slope_limit e.1) }
{
    let graph = s.graph();
    let (tail, head) = graph.ends(a);
    let (lo, _) = graph.bounds(a);
    let x = s.flow(a);
    if head != u || lo > x - step {
        return None;
    }
    Some((tail, -saving_down(s.cost(a), x, step)))
}

/// The same for a move of either direction.
pub(crate) fn edge<N: Name, A: Name, C: Cost>(
    s: &State<N, A, C>,
    u: NodeId,
    a: ArcId,
    up: bool,
    step: i64,
) -> Option<(NodeId, i128)>
    requires step { IsStep step }
    requires there { a.0 < length s.now.graph.arcs }
    ensures edge { MatchOption result ((v : ℕ) (price : ℤ) → IsEdge C.value_at step s.now (record { arc = a.0; up = up }) u.0 v price → ⊥) (λ e. IsEdge C.value_at step s.now (record { arc = a.0; up = up }) u.0 e.0.0 e.1) }
    ensures small { IfSome result (λ e. (e.0.0 < length s.now.graph.nodes) × IsWithin slope_limit e.1) }
{
    if up {
        edge_up(s, u, a, step)
    } else {
        edge_down(s, u, a, step)
    }
}

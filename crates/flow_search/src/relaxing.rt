ghost use Rattle.std.specs.Prelude.{◌≡◌, ◌↔◌, ℕ, ◌-◌, ◌*◌, ◌^◌, ◌<◌, ◌≤◌, if◌then◌else◌, ℤ, pos, ◌+ℤ◌, length, slice_get, IsTrue, IsSomeAnd};
ghost use Rattle.flow_cost.specs.Cost.{IsWithin};
ghost use Rattle.flow_graph.specs.Condition.{ArePotentials};
ghost use Rattle.flow_residual.specs.Flows.{IsFlowOf, IsStep, MeetsAll};
ghost use Rattle.flow_residual.specs.Path.{Move, IsSink};
ghost use Rattle.flow_residual.specs.Rooms.{IsRoomFor};
ghost use Rattle.flow_residual.specs.Edges.{slope_limit, length_of};
ghost use Rattle.flow_search.specs.Frontier.{ListsOf, ready_at};
ghost use Rattle.flow_search.specs.Labels.{labels_of, distance, IsRelaxing, IsLowered, RelaxesMove, RelaxesAll};

use crate::frontier::{Waiting, is_within, offer};
use crate::pricing::edge;
use flow_cost::Cost;
use flow_graph::{ArcId, Name, NodeId};
use flow_residual::{Room, State};

/// How far a node is by way of another.
pub(crate) fn further<N: Name, A: Name, C: Cost>(
    s: &State<N, A, C>,
    u: NodeId,
    v: NodeId,
    at: i128,
    price: i128,
) -> i128
    requires from { u.0 < length s.now.graph.nodes }
    requires to { v.0 < length s.now.graph.nodes }
    requires potentials { ArePotentials (pos (2 * 10 ^ 22)) (length s.now.graph.nodes) s.now.potentials }
    requires at { IsWithin (pos (10 ^ 23)) at }
    requires price { IsWithin slope_limit price }
    ensures { result ≡ at +ℤ length_of s.now u.0 v.0 price }
{
    let there = s.potential(v);
    let here = s.potential(u);
    at + (price - (there - here))
}

/// Whether a node lacks at least the step.
pub(crate) fn lacks<N: Name, A: Name, C: Cost>(s: &State<N, A, C>, n: NodeId, step: i64) -> bool
    requires there { n.0 < length s.now.graph.nodes }
    requires step { IsStep step }
    ensures { IsTrue result ↔ IsSink s.now step n.0 }
{
    s.excess(n) <= -(step as i128)
}

/// Whether the last of the ready nodes lacks the step: then it is to stay the last, and be taken next.
fn is_sink_next<N: Name, A: Name, C: Cost>(
    s: &State<N, A, C>,
    nodes: &[NodeId],
    ready: usize,
    step: i64,
) -> bool
    requires step { IsStep step }
    requires counted { ready ≤ length nodes.now }
    requires there { (j : ℕ) → j < ready → ready_at nodes.now j < length s.now.graph.nodes }
    ensures { IsTrue result → 0 < ready }
{
    ready > 0 && lacks(s, nodes[nodes.len() - ready], step)
}

/// The node that a move of the arc enters.
fn entered<N: Name, A: Name, C: Cost>(s: &State<N, A, C>, a: ArcId, up: bool) -> NodeId
    requires { a.0 < length s.now.graph.arcs }
    ensures node { IsSomeAnd (slice_get s.now.graph.arcs a.0) (λ arc. result.0 ≡ (if up then arc.head else arc.tail)) }
    ensures there { result.0 < length s.now.graph.nodes }
{
    let (tail, head) = s.graph().ends(a);
    if up { head } else { tail }
}

/// Offers the node that a move of the arc enters, where that can bring it nearer.
fn relax_move<N: Name, A: Name, C: Cost>(
    s: &State<N, A, C>,
    room: &mut Room,
    waiting: &mut Waiting,
    u: NodeId,
    a: ArcId,
    up: bool,
    step: i64,
)
    requires step { IsStep step }
    requires kept { IsFlowOf N.eq A.eq C.span_of s.now }
    requires there { a.0 < length s.now.graph.arcs }
    requires potentials { ArePotentials (pos (2 * 10 ^ 22)) (length s.now.graph.nodes) s.now.potentials }
    requires condition { MeetsAll C.value_at step s.now }
    requires relaxing { IsRelaxing C.value_at step s.now (labels_of room.old) u.0 }
    requires lists { ListsOf room.old waiting.old (distance (labels_of room.old) u.0) }
    requires room { IsRoomFor (length s.now.graph.nodes) room.old }
    ensures relaxing { IsRelaxing C.value_at step s.now (labels_of room.new) u.0 }
    ensures lowered { IsLowered (labels_of room.old) (labels_of room.new) }
    ensures relaxed { RelaxesMove C.value_at step s.now (labels_of room.new) u.0 (record { arc = a.0; up = up }) }
    ensures lists { ListsOf room.new waiting.new (distance (labels_of room.new) u.0) }
    ensures source { room.new.source ≡ room.old.source }
    ensures aside { room.new.aside ≡ room.old.aside }
    ensures room { IsRoomFor (length s.now.graph.nodes) room.new }
{
    let at = room.dist[u.0 as usize];
    let to = entered(s, a, up);
    if is_within(room.dist[to.0 as usize], at) {
        return;
    }
    if let Some((v, price)) = edge(s, u, a, up, step) {
        let d = further(s, u, v, at, price);
        let before_last = is_sink_next(s, &room.heap, waiting.ready, step);
        offer(room, waiting, v, d, a, at, before_last);
    }
}

/// Offers each node that an edge from the node enters.
pub(crate) fn relax<N: Name, A: Name, C: Cost>(
    s: &State<N, A, C>,
    room: &mut Room,
    waiting: &mut Waiting,
    u: NodeId,
    step: i64,
)
    requires step { IsStep step }
    requires there { u.0 < length s.now.graph.nodes }
    requires potentials { ArePotentials (pos (2 * 10 ^ 22)) (length s.now.graph.nodes) s.now.potentials }
    requires condition { MeetsAll C.value_at step s.now }
    requires relaxing { IsRelaxing C.value_at step s.now (labels_of room.old) u.0 }
    requires lists { ListsOf room.old waiting.old (distance (labels_of room.old) u.0) }
    requires room { IsRoomFor (length s.now.graph.nodes) room.old }
    ensures relaxing { IsRelaxing C.value_at step s.now (labels_of room.new) u.0 }
    ensures lowered { IsLowered (labels_of room.old) (labels_of room.new) }
    ensures relaxed { RelaxesAll C.value_at step s.now (labels_of room.new) u.0 }
    ensures lists { ListsOf room.new waiting.new (distance (labels_of room.new) u.0) }
    ensures source { room.new.source ≡ room.old.source }
    ensures aside { room.new.aside ≡ room.old.aside }
    ensures room { IsRoomFor (length s.now.graph.nodes) room.new }
{
    for a in s.graph().arcs_at(u) {
        relax_move(s, room, waiting, u, a, true, step);
        relax_move(s, room, waiting, u, a, false, step);
    }
}

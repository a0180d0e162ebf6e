//! Tight moves, and the path of them that a room's arcs may hold.
ghost use Rattle.std.specs.Prelude.{◌≡◌, ℕ, ◌*◌, ◌^◌, ◌<◌, List, pos, length, All, IsTrue, MatchOption, IfSome};
ghost use Rattle.flow_graph.specs.Condition.{ArePotentials};
ghost use Rattle.flow_residual.specs.Flows.{IsStep};
ghost use Rattle.flow_residual.specs.Path.{Move, IsTight};
ghost use Rattle.flow_residual.specs.Rooms.{IsRoomFor, HoldsPath};
ghost use Rattle.flow_search.specs.Following.{HasTightMove, IsEnteredFrom};

use crate::frontier::fill;
use crate::pricing::edge;
use crate::relaxing::further;
use flow_cost::Cost;
use flow_graph::{ArcId, Name, NodeId};
use flow_residual::{Room, State};

/// The node that the arc's move into a node leaves, where that move is open and tight.
pub(crate) fn left_by<N: Name, A: Name, C: Cost>(
    s: &State<N, A, C>,
    n: NodeId,
    a: ArcId,
    step: i64,
) -> Option<NodeId>
    requires step { IsStep step }
    requires to { n.0 < length s.now.graph.nodes }
    requires there { a.0 < length s.now.graph.arcs }
    requires potentials { ArePotentials (pos (2 * 10 ^ 22)) (length s.now.graph.nodes) s.now.potentials }
    ensures there { IfSome result (λ u. u.0 < length s.now.graph.nodes) }
    ensures tight { IfSome result (λ u. HasTightMove C.value_at step s.now a.0 u.0 n.0) }
{
    let (tail, head) = s.graph().ends(a);
    let up = head.0 == n.0;
    let u = if up { tail } else { head };
    let (v, price) = edge(s, u, a, up, step)?;
    if v.0 == n.0 && further(s, u, n, 0, price) == 0 {
        return Some(u);
    }
    None
}

/// The node before a node on the way back, and nothing where the way may not go on.
fn before<N: Name, A: Name, C: Cost>(
    s: &State<N, A, C>,
    room: &Room,
    n: NodeId,
    step: i64,
) -> Option<NodeId>
    requires step { IsStep step }
    requires to { n.0 < length s.now.graph.nodes }
    requires potentials { ArePotentials (pos (2 * 10 ^ 22)) (length s.now.graph.nodes) s.now.potentials }
    requires room { IsRoomFor (length s.now.graph.nodes) room.now }
    ensures there { IfSome result (λ u. u.0 < length s.now.graph.nodes) }
    ensures step { IfSome result (λ u. IsEnteredFrom C.value_at step s.now room.now.by.items u.0 n.0) }
{
    if let Some(a) = room.by[n.0 as usize]
        && a.0 < s.graph().arc_count()
    {
        return left_by(s, n, a, step);
    }
    None
}

/// Whether the arcs by which nodes were reached, followed back from the last node, are a tight path from the source.
pub(crate) fn follow_back<N: Name, A: Name, C: Cost>(
    s: &State<N, A, C>,
    room: &mut Room,
    step: i64,
) -> bool
    requires step { IsStep step }
    requires last { room.old.last.0 < length s.now.graph.nodes }
    requires potentials { ArePotentials (pos (2 * 10 ^ 22)) (length s.now.graph.nodes) s.now.potentials }
    requires room { IsRoomFor (length s.now.graph.nodes) room.old }
    ensures path { IsTrue result → (ms : List Move) × HoldsPath s.now step room.new ms × All (IsTight s.now C.value_at step) ms }
    ensures source { room.new.source ≡ room.old.source }
    ensures last { room.new.last ≡ room.old.last }
    ensures aside { room.new.aside ≡ room.old.aside }
    ensures room { IsRoomFor (length s.now.graph.nodes) room.new }
{
    fill(&mut room.set, false);
    let mut n = room.last;
    for _turn in 0..s.graph().node_count() {
        if room.set[n.0 as usize] {
            // The way comes back to a node that it has.
            return false;
        }
        if n.0 == room.source.0 {
            return true;
        }
        if let Some(u) = before(s, room, n, step) {
            room.set[n.0 as usize] = true;
            n = u;
        } else {
            return false;
        }
    }
    false
}

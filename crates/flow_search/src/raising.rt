ghost use Rattle.std.specs.Prelude.{◌≡◌, ℕ, ◌*◌, ◌^◌, ◌<◌, ℤ, pos, ◌+ℤ◌, ◌-ℤ◌, ◌≤ℤ◌, length};
ghost use Rattle.flow_cost.specs.Cost.{IsWithin};
ghost use Rattle.flow_graph.specs.Condition.{ArePotentials};
ghost use Rattle.flow_residual.specs.Rooms.{IsRoomFor};
ghost use Rattle.flow_residual.specs.Edges.{potential_at};
ghost use Rattle.flow_search.specs.Labels.{labels_of, distance};
ghost use Rattle.flow_search.specs.Frontier.{IsGain};

use flow_cost::Cost;
use flow_graph::{Name, NodeId};
use flow_residual::{Room, State};

/// The lesser of a distance and the path's, where the node was reached.
fn gain(d: i128, top: i128) -> i128
    ensures { IsGain d top result }
{
    if d < 0 || top < d { top } else { d }
}

/// Raises the potential of each node by its distance, and at most by the path's.
pub(crate) fn raise<N: Name, A: Name, C: Cost>(s: &mut State<N, A, C>, room: &Room, top: i128)
    requires potentials { ArePotentials (pos (2 * 10 ^ 22)) (length s.old.graph.nodes) s.old.potentials }
    requires low { pos 0 ≤ℤ top }
    requires high { top ≤ℤ pos (10 ^ 23) }
    requires room { IsRoomFor (length s.old.graph.nodes) room.now }
    ensures rest { s.new ≡ record s.old { potentials = s.new.potentials } }
    ensures raised { (v : ℕ) → v < length s.old.graph.nodes → IsGain (distance (labels_of room.now) v) top (potential_at s.new v -ℤ potential_at s.old v) }
{
    if top == 0 {
        // Each gain would be 0.
        return;
    }
    for v in 0..s.graph().node_count() {
        let up = gain(room.dist[v as usize], top);
        let p = s.potential(NodeId(v));
        s.set_potential(NodeId(v), p + up);
    }
}

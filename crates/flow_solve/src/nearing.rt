//! Potentials near enough to 0 for a search.
ghost use Rattle.std.specs.Prelude.{◌≡◌, ◌↔◌, ℕ, ◌*◌, ◌^◌, ◌<◌, ℤ, pos, length, IsTrue};
ghost use Rattle.flow_cost.specs.Cost.{IsWithin};
ghost use Rattle.flow_graph.specs.Condition.{ArePotentials};
ghost use Rattle.flow_residual.specs.Flows.{IsStep, MeetsAll};
ghost use Rattle.flow_residual.specs.Rooms.{IsRoomFor};

use flow_cost::Cost;
use flow_graph::{Name, NodeId};
use flow_residual::{Room, State};

/// The furthest that a potential may be from 0 where a search starts.
const FAR: i128 = 20_000_000_000_000_000_000_000;

/// Whether a potential is near enough to 0.
fn is_near(p: i128) -> bool
    ensures { IsTrue result ↔ IsWithin (pos (2 * 10 ^ 22)) p }
{
    -FAR <= p && p <= FAR
}

/// Whether all potentials are near enough to 0.
fn are_near<N: Name, A: Name, C: Cost>(s: &State<N, A, C>) -> bool
    ensures { IsTrue result → ArePotentials (pos (2 * 10 ^ 22)) (length s.now.graph.nodes) s.now.potentials }
{
    for n in 0..s.graph().node_count() {
        if !is_near(s.potential(NodeId(n))) {
            return false;
        }
    }
    true
}

/// Brings the potentials near enough to 0, where they are not.
pub(crate) fn bring_near<N: Name, A: Name, C: Cost>(s: &mut State<N, A, C>, room: &mut Room)
    requires { IsRoomFor (length s.old.graph.nodes) room.old }
    ensures potentials { ArePotentials (pos (2 * 10 ^ 22)) (length s.new.graph.nodes) s.new.potentials }
    ensures rest { s.new ≡ record s.old { potentials = s.new.potentials } }
    ensures condition { (step : ℤ) → IsStep step → MeetsAll C.value_at step s.old → MeetsAll C.value_at step s.new }
    ensures aside { room.new.aside.items ≡ room.old.aside.items }
    ensures room { IsRoomFor (length s.new.graph.nodes) room.new }
{
    if are_near(s) {
        return;
    }
    s.close_gaps(room);
    // A state has as many potentials as nodes.
    s.graph();
}

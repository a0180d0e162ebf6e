ghost use Rattle.std.specs.Prelude.{◌≡◌, ◌↔◌, ℕ, ◌*◌, ◌^◌, ◌<◌, List, true, Some, ℤ, pos, ◌≤ℤ◌, ◌<ℤ◌, length, slice_get, All, IsTrue, MatchOption};
ghost use Rattle.flow_graph.specs.Condition.{ArePotentials};
ghost use Rattle.flow_residual.specs.Flows.{IsStep, MeetsAll, excess_of};
ghost use Rattle.flow_residual.specs.Path.{Move, IsTight, IsSink, Reaches};
ghost use Rattle.flow_residual.specs.Rooms.{IsRoomFor, HoldsPath};

use crate::following::follow_back;
use crate::frontier::{start, take_nearest};
use crate::meeting::meet;
use crate::raising::raise;
use crate::relaxing::{lacks, relax};
use flow_cost::Cost;
use flow_graph::{Name, NodeId};
use flow_residual::{Room, State};

/// What a search found.
#[derive(Clone, Copy, Debug, PartialEq, Eq)]
pub enum Found {
    /// A path to a node that lacks at least the step.
    Path,
    /// No such node can be reached.
    Closed,
}

/// Whether tight moves alone lead to a node that lacks at least the step: then the room holds a path of them.
fn meets<N: Name, A: Name, C: Cost>(
    s: &State<N, A, C>,
    source: NodeId,
    step: i64,
    room: &mut Room,
) -> bool
    requires room { IsRoomFor (length s.now.graph.nodes) room.old }
    requires source { source.0 < length s.now.graph.nodes }
    requires step { IsStep step }
    requires potentials { ArePotentials (pos (2 * 10 ^ 22)) (length s.now.graph.nodes) s.now.potentials }
    ensures path { IsTrue result → (ms : List Move) × HoldsPath s.now step room.new ms × All (IsTight s.now C.value_at step) ms }
    ensures ends { IsTrue result → (room.new.source ≡ source) × (room.new.last.0 < length s.now.graph.nodes) × IsSink s.now step room.new.last.0 }
    ensures aside { room.new.aside ≡ room.old.aside }
    ensures room { IsRoomFor (length s.now.graph.nodes) room.new }
{
    room.source = source;
    if !meet(s, room, step) || !lacks(s, room.last, step) {
        return false;
    }
    follow_back(s, room, step)
}

/// Looks for a nearest node that lacks at least the step, and changes the potentials so that the path there is tight.
pub fn search<N: Name, A: Name, C: Cost>(
    s: &mut State<N, A, C>,
    source: NodeId,
    step: i64,
    room: &mut Room,
) -> Found
    requires room { IsRoomFor (length s.old.graph.nodes) room.old }
    requires source { source.0 < length s.old.graph.nodes }
    requires step { IsStep step }
    requires excess { step ≤ℤ excess_of s.old source.0 }
    requires potentials { ArePotentials (pos (2 * 10 ^ 22)) (length s.old.graph.nodes) s.old.potentials }
    requires condition { MeetsAll C.value_at step s.old }
    ensures path { result ≡ Found.Path → (ms : List Move) × HoldsPath s.new step room.new ms × All (IsTight s.new C.value_at step) ms }
    ensures ends { result ≡ Found.Path → (room.new.source ≡ source) × (room.new.last.0 < length s.new.graph.nodes) × IsSink s.new step room.new.last.0 }
    ensures condition { MeetsAll C.value_at step s.new }
    ensures rest { s.new ≡ record s.old { potentials = s.new.potentials } }

    // `Closed` comes exactly where no such node can be reached. Then the set has the nodes reached, and the state stays.
    ensures closed { (result ≡ Found.Closed) ↔ ((n : ℕ) → n < length s.old.graph.nodes → IsSink s.old step n → Reaches s.old step source.0 n → ⊥) }
    ensures set { result ≡ Found.Closed → (n : ℕ) → n < length s.old.graph.nodes → (slice_get room.new.set.items n ≡ Some true) ↔ Reaches s.old step source.0 n }
    ensures stays { result ≡ Found.Closed → s.new ≡ s.old }

    // What a solver has put aside stays aside.
    ensures aside { room.new.aside ≡ room.old.aside }
    ensures room { IsRoomFor (length s.new.graph.nodes) room.new }
{
    // The graph's limits bound what follows.
    s.graph();
    if meets(s, source, step, room) {
        return Found::Path;
    }
    let mut waiting = start(room, source);
    while let Some(u) = take_nearest(room, &mut waiting) {
        if lacks(s, u, step) {
            room.last = u;
            let top = room.dist[u.0 as usize];
            raise(s, room, top);
            return Found::Path;
        }
        relax(s, room, &mut waiting, u, step);
    }
    Found::Closed
}

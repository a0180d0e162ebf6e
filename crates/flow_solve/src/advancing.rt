//! Excesses of at least a step go to nodes that lack it, one step after another.
ghost use Rattle.std.specs.Prelude.{◌≡◌, ℕ, ◌+◌, ◌<◌, ◌≤◌, false, ℤ, ◌≤ℤ◌, ◌<ℤ◌, length, IsTrue};
ghost use Rattle.flow_residual.specs.Flows.{IsStep, MeetsAll, excess_of};
ghost use Rattle.flow_residual.specs.Rooms.{IsRoomFor};
ghost use Rattle.flow_solve.specs.Progress.{Augments, Stays, IsUnderway, IsClosedOff};

use crate::nearing::bring_near;
use flow_cost::Cost;
use flow_graph::{Name, NodeId};
use flow_residual::{Room, State, Steps};
use flow_search::{Found, search};
use std::sync::ledger::Ledger;

/// Moves the step from a node to one that lacks it; false where none can be reached.
fn advance<N: Name, A: Name, C: Cost, L: Ledger>(
    s: &mut State<N, A, C>,
    room: &mut Room,
    steps: &mut Steps<L>,
    source: NodeId,
    step: i64,
) -> bool
    requires step { IsStep step }
    requires there { source.0 < length s.old.graph.nodes }
    requires excess { step ≤ℤ excess_of s.old source.0 }
    requires condition { MeetsAll C.value_at step s.old }
    requires room { IsRoomFor (length s.old.graph.nodes) room.old }
    ensures moved { IsTrue result → Augments C.value_at step s.old s.new source.0 }
    ensures ticks { IsTrue result → steps.new ≡ steps.old + 1 }
    ensures stays { result ≡ false → Stays C.value_at step s.old s.new }
    ensures closed { result ≡ false → IsClosedOff step s.new source.0 room.new.set.items }
    ensures no_tick { result ≡ false → steps.new ≡ steps.old }
    ensures aside { room.new.aside.items ≡ room.old.aside.items }
    ensures room { IsRoomFor (length s.new.graph.nodes) room.new }
{
    bring_near(s, room);
    match search(s, source, step, room) {
        Found::Path => {
            // What every state keeps bounds how far the flows move.
            s.graph();
            s.augment(room, step, steps);
            true
        }
        Found::Closed => false,
    }
}

/// Moves the step from a node until its excess is below it; false where some of it cannot be moved.
pub(crate) fn drain<N: Name, A: Name, C: Cost, L: Ledger>(
    s: &mut State<N, A, C>,
    room: &mut Room,
    steps: &mut Steps<L>,
    source: NodeId,
    step: i64,
) -> bool
    requires step { IsStep step }
    requires there { source.0 < length s.old.graph.nodes }
    requires condition { MeetsAll C.value_at step s.old }
    requires room { IsRoomFor (length s.old.graph.nodes) room.old }
    ensures spent { IsTrue result → excess_of s.new source.0 <ℤ step }
    ensures underway { IsUnderway C.value_at step s.old s.new steps.old steps.new }
    ensures closed { result ≡ false → IsClosedOff step s.new source.0 room.new.set.items }
    ensures aside { room.new.aside.items ≡ room.old.aside.items }
    ensures room { IsRoomFor (length s.new.graph.nodes) room.new }
{
    while s.excess(source) >= step as i128 {
        if !advance(s, room, steps, source, step) {
            return false;
        }
    }
    true
}

/// Moves the step from each node until its excess is below it; false where some of it cannot be moved. One pass over the
/// nodes is enough: a node that gets a step lacked it before.
pub(crate) fn drain_all<N: Name, A: Name, C: Cost, L: Ledger>(
    s: &mut State<N, A, C>,
    room: &mut Room,
    steps: &mut Steps<L>,
    step: i64,
) -> bool
    requires step { IsStep step }
    requires condition { MeetsAll C.value_at step s.old }
    requires room { IsRoomFor (length s.old.graph.nodes) room.old }
    ensures spent { IsTrue result → (n : ℕ) → n < length s.new.graph.nodes → excess_of s.new n <ℤ step }
    ensures underway { IsUnderway C.value_at step s.old s.new steps.old steps.new }
    ensures closed { result ≡ false → (n : ℕ) × IsClosedOff step s.new n room.new.set.items }
    ensures room { IsRoomFor (length s.new.graph.nodes) room.new }
{
    for n in 0..s.graph().node_count() {
        if !drain(s, room, steps, NodeId(n), step) {
            return false;
        }
    }
    true
}

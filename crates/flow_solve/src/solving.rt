ghost use Rattle.std.specs.Prelude.{◌≡◌, ◌↔◌, ℕ, ◌-◌, ◌≤◌, List, ℤ, length};
ghost use Rattle.flow_graph.specs.Circulation.{IsCirculation};
ghost use Rattle.flow_graph.specs.Condition.{ShowsLeast};
ghost use Rattle.flow_graph.specs.Contradiction.{Contradicts};
ghost use Rattle.flow_residual.specs.Rooms.{IsRoomFor};
ghost use Rattle.flow_solve.specs.Bounds.{FewTicks, NearSettled, ScaledTicks};

use crate::advancing::drain_all;
use crate::scaling::approach;
use flow_cost::Cost;
use flow_graph::Name;
use flow_residual::{Room, State, Steps};
use std::sync::ledger::Ledger;

/// What a solver found.
#[derive(Clone, Copy, Debug, PartialEq, Eq)]
pub enum Outcome {
    /// A circulation that the potentials show least.
    Least,
    /// No circulation exists, and the room's set contradicts.
    Cut,
}

/// Makes the flows a least circulation, with potentials that show it, or finds a set that shows that there is none. It
/// takes no memory.
pub fn solve<N: Name, A: Name, C: Cost, L: Ledger>(
    s: &mut State<N, A, C>,
    room: &mut Room,
    steps: &mut Steps<L>,
) -> Outcome
    requires { IsRoomFor (length s.old.graph.nodes) room.old }
    ensures least { result ≡ Outcome.Least → ShowsLeast C.value_at (length s.new.graph.nodes) s.new.graph.arcs s.new.costs s.new.flows s.new.potentials }
    ensures cut { (result ≡ Outcome.Cut) ↔ ((xs : List ℤ) → IsCirculation (length s.old.graph.nodes) s.old.graph.arcs xs → ⊥) }
    ensures set { result ≡ Outcome.Cut → Contradicts s.new.graph.arcs room.new.set.items }
    ensures rest { s.new ≡ record s.old { flows = s.new.flows; potentials = s.new.potentials } }
    ensures room { IsRoomFor (length s.new.graph.nodes) room.new }

    // Each augmentation ticks once.
    ensures few_ticks { FewTicks C.value_at s.old (steps.new - steps.old) }
    ensures near_settled { result ≡ Outcome.Least → NearSettled C.value_at s.old s.new.flows }
    ensures scaled_ticks { ScaledTicks C.value_at s.old (steps.new - steps.old) }
    ensures counts_up { steps.old ≤ steps.new }
{
    // What every state keeps is needed of the first state and of the last.
    s.graph();
    s.settle_all(1);
    approach(s, room, steps);
    let done = drain_all(s, room, steps, 1);
    s.graph();
    if done { Outcome::Least } else { Outcome::Cut }
}

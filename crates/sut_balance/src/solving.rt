//! The solver, which starts anew where much is left to move.

ghost use Rattle.std.specs.Prelude.{◌≡◌, ◌-◌, ◌≤◌, ℤ, pos, ◌≤ℤ◌, List, length, IfOk};
ghost use Rattle.flow_graph.specs.Condition.{ShowsLeast};
ghost use Rattle.flow_graph.specs.Contradiction.{Contradicts};
ghost use Rattle.flow_residual.specs.Flows.{SettlesTo};
ghost use Rattle.flow_residual.specs.Rooms.{IsRoomFor};
ghost use Rattle.flow_solve.specs.Bounds.{FewTicks, NearSettled, surplus};

use flow_cost::Cost;
use flow_graph::Name;
use flow_residual::{Room, State, Steps};
use flow_solve::{Outcome, has_much_left, solve};
use flow_start::start;
use no_memory::NoMemory;
use std::alloc::Global;
use std::sync::ledger::Ledger;

/// Settles the flows, and starts anew where that leaves an excess of more than 4,096. Else it goes on from where they settle,
/// so that the answer stays near to the last one.
fn start_if_far<N: Name, A: Name, C: Cost>(
    alloc: Global,
    s: &mut State<N, A, C>,
) -> Result<(), NoMemory>
    ensures rest { s.new ≡ record s.old { flows = s.new.flows; potentials = s.new.potentials } }
    ensures near { (settled : List ℤ) → SettlesTo C.value_at (pos 1) s.old settled → surplus s.old settled ≤ℤ pos 4_096 → s.new ≡ record s.old { flows = settled } }
{
    // Flows that every state keeps settle at one place.
    s.graph();
    s.settle_all(1);
    if has_much_left(s) {
        start(alloc, s)?;
    }
    Ok(())
}

/// The solver's answer, from a start of its own where settling leaves an excess of more than 4,096.
pub(crate) fn solve_from<N: Name, A: Name, C: Cost, L: Ledger>(
    alloc: Global,
    s: &mut State<N, A, C>,
    room: &mut Room,
    steps: &mut Steps<L>,
) -> Result<Outcome, NoMemory>
    requires { IsRoomFor (length s.old.graph.nodes) room.old }
    ensures least { IfOk result (λ o. o ≡ Outcome.Least → ShowsLeast C.value_at (length s.new.graph.nodes) s.new.graph.arcs s.new.costs s.new.flows s.new.potentials) }
    ensures set { IfOk result (λ o. o ≡ Outcome.Cut → Contradicts s.new.graph.arcs room.new.set.items) }
    ensures rest { s.new ≡ record s.old { flows = s.new.flows; potentials = s.new.potentials } }
    ensures room { IsRoomFor (length s.new.graph.nodes) room.new }
    ensures few_ticks { FewTicks C.value_at s.old (steps.new - steps.old) }
    ensures near_settled { IfOk result (λ o. o ≡ Outcome.Least → NearSettled C.value_at s.old s.new.flows) }
    ensures counts_up { steps.old ≤ steps.new }
{
    start_if_far(alloc, s)?;
    Ok(solve(s, room, steps))
}

//! Balancing: the solver's answer on the circuit of a problem, as a table or a set of accounts.

ghost use Rattle.std.specs.Prelude.{◌≡◌, ◌↔◌, ◌-◌, ◌≤◌, false, length, IsTrue, IfOk, IfSome};
ghost use Rattle.flow_residual.specs.Rooms.{IsRoomFor};
ghost use Rattle.flow_solve.specs.Bounds.{FewTicks, NearSettled};
ghost use Rattle.sut_tables.specs.Costs.{IsImpossible};
ghost use Rattle.sut_tables.specs.Problems.{IsTableOf};
ghost use Rattle.sut_cert.specs.Right.{IsRight, is_infeasible};
ghost use Rattle.sut_circuit.specs.IsCircuit.{IsCircuit};
ghost use Rattle.sut_circuit.specs.RowCosts.{cost_at};
ghost use Rattle.sut_balance.specs.FoundOn.{IsFoundOn};

use crate::by_account::{accounts_in, potentials_of};
use crate::solving::solve_from;
use crate::starting::started;
use flow_residual::{Room, Steps};
use flow_solve::Outcome;
use no_memory::NoMemory;
use std::alloc::Global;
use std::sync::ledger::Ledger;
use sut_cert::{AccountSet, Answer, Potentials};
use sut_circuit::{Circuit, table_over};
use sut_tables::{Problem, Table};

/// A table of the problem to write over: the last one, or one of zeros where there is none.
fn first_table(alloc: Global, p: &Problem, last: Option<Table>) -> Result<Table, NoMemory>
    requires { IfSome last (IsTableOf p.now) }
    ensures { IfOk result (IsTableOf p.now) }
{
    match last {
        Some(table) => Ok(table),
        None => Table::zeros(alloc, p),
    }
}

/// The answer to the problem of a circuit, as `balance_in` gives it. A balanced answer's table is the last one, if there is
/// one, in which only the numbers that differ are put.
pub fn balance_over<L: Ledger>(
    alloc: Global,
    p: &Problem,
    c: &mut Circuit,
    room: &mut Room,
    steps: &mut Steps<L>,
    last: Option<Table>,
) -> Result<Answer, NoMemory>
    requires circuit { IsCircuit p.now c.old }
    requires last { IfSome last (IsTableOf p.now) }
    requires room { IsRoomFor (length c.old.state.graph.nodes) room.old }
    ensures right { IfOk result (IsRight p.now) }
    ensures infeasible { IfOk result (λ a. IsTrue (is_infeasible a) ↔ IsImpossible p.now) }

    // The values are the flows, and the potentials are those of the nodes.
    ensures flows { IfOk result (IsFoundOn p.now c.new) }
    ensures circuit { IsCircuit p.now c.new }
    ensures room { IsRoomFor (length c.new.state.graph.nodes) room.new }

    // Where settling the flows as they were leaves an excess of at most 4,096, it ticks at most as many times, and moves no
    // flow further from where it settles.
    ensures few_ticks { FewTicks cost_at c.old.state (steps.new - steps.old) }
    ensures near_settled { IfOk result (λ a. is_infeasible a ≡ false → NearSettled cost_at c.old.state c.new.state.flows) }
    ensures counts_up { steps.old ≤ steps.new }
{
    p.kept();
    let outcome = solve_from(alloc, &mut c.state, room, steps)?;
    // What every state keeps bounds its potentials.
    c.state.graph();
    match outcome {
        Outcome::Least => {
            let first = first_table(alloc, p, last)?;
            let table = table_over(first, c, p);
            let pairs = potentials_of(alloc, c)?;
            let potentials = Potentials::of(pairs).unwrap();
            Ok(Answer::Balanced(table, potentials))
        }
        Outcome::Cut => {
            let accounts = accounts_in(alloc, c, room)?;
            let set = AccountSet::of(accounts).unwrap();
            Ok(Answer::Infeasible(set))
        }
    }
}

/// The answer to the problem of a circuit, which goes on from the circuit's flows and potentials where settling the flows
/// leaves an excess of at most 4,096, and else starts anew. After every result the circuit is that of the problem.
pub fn balance_in<L: Ledger>(
    alloc: Global,
    p: &Problem,
    c: &mut Circuit,
    room: &mut Room,
    steps: &mut Steps<L>,
) -> Result<Answer, NoMemory>
    requires circuit { IsCircuit p.now c.old }
    requires room { IsRoomFor (length c.old.state.graph.nodes) room.old }
    ensures right { IfOk result (IsRight p.now) }
    ensures infeasible { IfOk result (λ a. IsTrue (is_infeasible a) ↔ IsImpossible p.now) }

    // The values are the flows, and the potentials are those of the nodes.
    ensures flows { IfOk result (IsFoundOn p.now c.new) }
    ensures circuit { IsCircuit p.now c.new }
    ensures room { IsRoomFor (length c.new.state.graph.nodes) room.new }

    // Where settling the flows as they were leaves an excess of at most 4,096, it ticks at most as many times, and moves no
    // flow further from where it settles.
    ensures few_ticks { FewTicks cost_at c.old.state (steps.new - steps.old) }
    ensures near_settled { IfOk result (λ a. is_infeasible a ≡ false → NearSettled cost_at c.old.state c.new.state.flows) }
    ensures counts_up { steps.old ≤ steps.new }
{
    balance_over(alloc, p, c, room, steps, None)
}

/// The answer to a problem: `Balanced` with a least table and potentials that show it, or `Infeasible` with a set of accounts
/// that contradicts, exactly where no table is admissible.
pub fn balance<L: Ledger>(
    alloc: Global,
    p: &Problem,
    steps: &mut Steps<L>,
) -> Result<Answer, NoMemory>
    ensures right { IfOk result (IsRight p.now) }
    ensures infeasible { IfOk result (λ a. IsTrue (is_infeasible a) ↔ IsImpossible p.now) }
{
    let mut circuit = started(alloc, p)?;
    let mut room = Room::for_state(alloc, &circuit.state)?;
    balance_in(alloc, p, &mut circuit, &mut room, steps)
}

//! The network of a problem.

ghost use Rattle.std.specs.Prelude.{◌≡◌, ◌-◌, ◌≤◌, false, None, IfOk, IfSome};
ghost use Rattle.flow_solve.specs.Bounds.{FewTicks, NearSettled};
ghost use Rattle.sut_tables.specs.Problems.{IsTableOf};
ghost use Rattle.sut_cert.specs.Right.{is_infeasible};
ghost use Rattle.sut_circuit.specs.RowCosts.{cost_at};
ghost use Rattle.sut_session.specs.SessionView.{IsNetworkOf, kept_of, numbers_of};
ghost use Rattle.sut_session.specs.Standing.{IsAnswerTo};

use flow_residual::{Room, Steps};
use no_memory::NoMemory;
use std::alloc::Global;
use std::sync::ledger::Ledger;
use sut_balance::{balance_over, started};
use sut_cert::Answer;
use sut_circuit::Circuit;
use sut_tables::{Problem, Table};

/// A circuit, whose flows and potentials stand near to an answer, and the room of its searches.
#[derive(Drop)]
pub(crate) struct Network {
    pub(crate) circuit: Circuit,
    pub(crate) room: Room,
}

/// The network of a problem, from whose flows a first answer is near.
pub(crate) fn network_of(alloc: Global, p: &Problem) -> Result<Network, NoMemory>
    ensures { IfOk result (IsNetworkOf p.now) }
{
    let circuit = started(alloc, p)?;
    let room = Room::for_state(alloc, &circuit.state)?;
    Ok(Network { circuit, room })
}

/// The network out of its place, or a new one where there is none.
fn take_network(
    alloc: Global,
    p: &Problem,
    network: &mut Option<Network>,
) -> Result<Network, NoMemory>
    requires { IfSome network.old (IsNetworkOf p.now) }
    ensures network { IfOk result (IsNetworkOf p.now) }
    ensures same { IfOk result (λ n. IfSome network.old (λ kept. n ≡ kept)) }
    ensures taken { network.new ≡ None }
{
    match network.take() {
        Some(n) => Ok(n),
        None => network_of(alloc, p),
    }
}

/// The answer to a problem on its network, from whose flows and potentials the solver goes on, written over the last table.
fn answer_on<L: Ledger>(
    alloc: Global,
    p: &Problem,
    n: &mut Network,
    steps: &mut Steps<L>,
    last: Option<Table>,
) -> Result<Answer, NoMemory>
    requires network { IsNetworkOf p.now n.old }
    requires last { IfSome last (IsTableOf p.now) }
    ensures network { IsNetworkOf p.now n.new }
    ensures answer { IfOk result (IsAnswerTo p.now (Some (numbers_of n.new))) }
    ensures few_ticks { FewTicks cost_at n.old.circuit.state (steps.new - steps.old) }
    ensures near_settled { IfOk result (λ a. is_infeasible a ≡ false → NearSettled cost_at n.old.circuit.state n.new.circuit.state.flows) }
    ensures counts_up { steps.old ≤ steps.new }
{
    balance_over(alloc, p, &mut n.circuit, &mut n.room, steps, last)
}

/// The answer to a problem on its network, which is built where there is none, written over the last table, if there is one.
pub(crate) fn answer_to<L: Ledger>(
    alloc: Global,
    p: &Problem,
    network: &mut Option<Network>,
    steps: &mut Steps<L>,
    last: Option<Table>,
) -> Result<Answer, NoMemory>
    requires network { IfSome network.old (IsNetworkOf p.now) }
    requires last { IfSome last (IsTableOf p.now) }
    ensures network { IfSome network.new (IsNetworkOf p.now) }
    ensures answer { IfOk result (IsAnswerTo p.now (kept_of network.new)) }
    ensures few_ticks { IfSome network.old (λ n. FewTicks cost_at n.circuit.state (steps.new - steps.old)) }
    ensures near_settled { IfOk result (λ a. is_infeasible a ≡ false → IfSome network.old (λ n. IfSome network.new (λ now. NearSettled cost_at n.circuit.state now.circuit.state.flows))) }
    ensures counts_up { steps.old ≤ steps.new }
{
    let mut n = take_network(alloc, p, network)?;
    let answer = answer_on(alloc, p, &mut n, steps, last);
    *network = Some(n);
    answer
}

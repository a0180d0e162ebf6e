//! The circuit of a problem.

ghost use Rattle.std.specs.Prelude.{◌≡◌, length, pos, replicate, IfOk};
ghost use Rattle.sut_circuit.specs.IsCircuit.{IsCircuit};

use crate::costs::{RowCost, costs_of};
use crate::growing::graph_of;
use flow_residual::State;
use no_memory::NoMemory;
use std::alloc::Global;
use sut_measures::{Account, Measure};
use sut_tables::{Problem, live, live_accounts};

/// A graph whose nodes are accounts and whose arcs are measures, each arc with bounds, a cost and a flow in whole currency
/// units, and each node with a potential.
pub struct Circuit {
    pub state: State<Account, Measure, RowCost>,
    /// The nodes, in order.
    pub accounts: Vec<Account>,
}

impl Drop for Circuit {
    fn drop(self) {
        let Circuit { state, accounts } = self;
        drop(state);
        drop(accounts);
    }
}

/// A node for each live account and an arc for each live measure, in order. The arc of a row has its bounds and its cost;
/// any other has bounds 2^60 away from 0, and costs nothing. All potentials are 0.
pub fn build(alloc: Global, p: &Problem) -> Result<Circuit, NoMemory>
    ensures circuit { IfOk result (IsCircuit p.now) }
    ensures potentials { IfOk result (λ c. c.state.potentials ≡ replicate (length c.accounts.items) (pos 0)) }
{
    p.kept();
    p.classes().kept();
    let accounts = live_accounts(alloc, p)?;
    let measures = live(alloc, p)?;
    let graph = graph_of(alloc, p, &accounts, &measures)?;
    let costs = costs_of(alloc, p, &measures)?;
    let state = State::new(alloc, graph, costs)?;
    Ok(Circuit { state, accounts })
}

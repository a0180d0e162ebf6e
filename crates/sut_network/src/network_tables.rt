//! The table that the flows of a network spell.

ghost use Rattle.std.specs.Prelude.{◌≡◌, ℤ, ◌*ℤ◌, All, IfOk};
ghost use Rattle.std.specs.List.{AllZip};
ghost use Rattle.sut_tables.specs.Problems.{live_measures};
ghost use Rattle.sut_circuit.specs.Circuit.{by_account, table_from};
ghost use Rattle.sut_circuit.specs.TableFlows.{FitsIn, put_flow};
ghost use Rattle.sut_network.specs.Networks.{IsNetworkOf, times};

use crate::networks::Network;
use flow_cost::Cost;
use flow_graph::{ArcId, NodeId};
use no_memory::NoMemory;
use std::alloc::Global;
use sut_measures::{Account, Measure};
use sut_tables::{Problem, Table};

/// Puts a cell's flow, times a number, into a table. A total has no number there.
fn put_times(table: &mut Table, m: Measure, by: i64, x: i64)
    requires { FitsIn m (by *ℤ x) }
    ensures { table.new ≡ put_flow table.old m (by *ℤ x) }
{
    if let Measure::Cell(cell) = m {
        let _held = table.put(cell, by * x);
    }
}

/// The table whose cells have the flows of their arcs, each times a number.
pub fn table_of<C: Cost>(
    alloc: Global,
    n: &Network<C>,
    p: &Problem,
    by: i64,
) -> Result<Table, NoMemory>
    requires network { IsNetworkOf p.now n.now.state.graph }
    requires fits { AllZip (λ m x. FitsIn m (by *ℤ x)) (live_measures p.now) n.now.state.flows }
    ensures { IfOk result (λ t. t ≡ table_from p.now (times by n.now.state.flows)) }
{
    p.kept();
    let mut table = Table::zeros(alloc, p)?;
    let graph = n.state.graph();
    for a in 0..graph.arc_count() {
        put_times(
            &mut table,
            graph.arc_name(ArcId(a)),
            by,
            n.state.flow(ArcId(a)),
        );
    }
    Ok(table)
}

/// The accounts of a network, each with the potential of its node.
pub fn potentials_of<C: Cost>(
    alloc: Global,
    n: &Network<C>,
) -> Result<Vec<(Account, i128)>, NoMemory>
    requires { n.now.accounts.items ≡ n.now.state.graph.nodes }
    ensures { IfOk result (λ v. v.items ≡ by_account n.now.accounts.items n.now.state.potentials) }
{
    // A state has as many potentials as nodes.
    n.state.graph();
    let mut pairs = Vec::new(alloc);
    for (k, account) in n.accounts.iter().enumerate() {
        let potential = n.state.potential(NodeId(k as u32));
        pairs.push((*account, potential))?;
    }
    Ok(pairs)
}

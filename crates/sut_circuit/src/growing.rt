//! The graph of a problem's circuit, node by node and arc by arc. No name stands twice and the limits of classes and rows
//! leave room, so that want of memory alone can stop it.

ghost use Rattle.std.specs.Prelude.{◌≡◌, ◌+◌, ◌<◌, ◌≤◌, [], false, length, Some, OnOk, IfOk, slice_get};
ghost use Rattle.std.specs.List.{list_any};
ghost use Rattle.sut_measures.specs.Keys.{account_key, measure_key};
ghost use Rattle.sut_tables.specs.InOrder.{IsAscending};
ghost use Rattle.sut_tables.specs.Problems.{row_at, live_accounts, live_measures};
ghost use Rattle.flow_graph.specs.Network.{AreBounds};
ghost use Rattle.flow_graph.specs.Updates.{with_node};
ghost use Rattle.sut_circuit.specs.Building.{IsBegun};
ghost use Rattle.sut_circuit.specs.Circuit.{low_of, high_of};

use flow_graph::{Graph, GraphFault};
use no_memory::NoMemory;
use std::alloc::Global;
use sut_measures::{Account, Measure, ends};
use sut_tables::Problem;

/// Further from 0 than the value of any total: 131,072 cells of at most 10^12.
pub(crate) const WIDE: i64 = 1 << 60;

/// Adds a node that is not there.
fn add_node(graph: &mut Graph<Account, Measure>, account: Account) -> Result<(), NoMemory>
    requires fresh { list_any (⟦<Account as PartialEq>⟧.eq account) graph.old.nodes ≡ false }
    requires room { length graph.old.nodes < 262_144 }
    ensures { OnOk result (graph.new ≡ with_node graph.old account) }
{
    match graph.add_node(account) {
        Ok(_) => Ok(()),
        Err(fault) => match fault {
            GraphFault::NoMemory => Err(NoMemory),
            _ => unreachable!(),
        },
    }
}

/// A graph of these nodes.
fn nodes_of(alloc: Global, accounts: &[Account]) -> Result<Graph<Account, Measure>, NoMemory>
    requires in_order { IsAscending account_key accounts.now }
    requires few { length accounts.now ≤ 262_144 }
    ensures { IfOk result (λ g. g ≡ record { nodes = accounts.now; names = []; arcs = [] }) }
{
    let mut graph = Graph::new(alloc);
    for account in accounts {
        add_node(&mut graph, *account)?;
    }
    Ok(graph)
}

/// The bounds of a measure's arc: those of its row, or wide ones where it has none.
fn bounds_of(p: &Problem, m: Measure) -> (i64, i64)
    ensures low { result.0 ≡ low_of (row_at p.now m) }
    ensures high { result.1 ≡ high_of (row_at p.now m) }
    ensures bounds { AreBounds result.0 result.1 }
{
    match p.find(m) {
        Some(row) => {
            row.in_range();
            (row.lower(), row.upper())
        }
        None => (-WIDE, WIDE),
    }
}

/// Adds the arc of the next live measure.
fn add_arc(graph: &mut Graph<Account, Measure>, p: &Problem, m: Measure) -> Result<(), NoMemory>
    requires begun { IsBegun p.now (length graph.old.arcs) graph.old }
    requires next { slice_get (live_measures p.now) (length graph.old.arcs) ≡ Some m }
    requires room { length graph.old.arcs < 524_288 }
    ensures { OnOk result (IsBegun p.now (length graph.old.arcs + 1) graph.new) }
{
    let (from, to) = ends(p.classes(), m);
    let (lo, hi) = bounds_of(p, m);
    match graph.add_arc(m, from, to, lo, hi) {
        Ok(_) => Ok(()),
        Err(fault) => match fault {
            GraphFault::NoMemory => Err(NoMemory),
            _ => unreachable!(),
        },
    }
}

/// The graph of a problem's circuit.
pub(crate) fn graph_of(
    alloc: Global,
    p: &Problem,
    accounts: &[Account],
    measures: &[Measure],
) -> Result<Graph<Account, Measure>, NoMemory>
    requires accounts { accounts.now ≡ live_accounts p.now }
    requires measures { measures.now ≡ live_measures p.now }
    requires nodes_few { length accounts.now ≤ 262_144 }
    requires arcs_few { length measures.now ≤ 524_288 }
    ensures { IfOk result (IsBegun p.now (length measures.now)) }
{
    let mut graph = nodes_of(alloc, accounts)?;
    for m in measures {
        add_arc(&mut graph, p, *m)?;
    }
    Ok(graph)
}

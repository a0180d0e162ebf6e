//! The network of a problem under other bounds and costs.

ghost use Rattle.std.specs.Prelude.{◌≡◌, ◌+◌, ◌<◌, ◌≤◌, ℤ, ◌∷◌, ◌++◌, [], false, length, pos, map, replicate, All, Some, OnOk, IfOk, slice_get};
ghost use Rattle.std.specs.List.{AllZip, list_any};
ghost use Rattle.sut_measures.specs.Keys.{account_key};
ghost use Rattle.sut_tables.specs.InOrder.{IsAscending};
ghost use Rattle.sut_tables.specs.Problems.{live_accounts, live_measures};
ghost use Rattle.flow_cost.specs.Cost.{IsWithin};
ghost use Rattle.flow_graph.specs.Network.{AreBounds};
ghost use Rattle.flow_graph.specs.Updates.{with_node};
ghost use Rattle.sut_network.specs.Building.{IsBegun};
ghost use Rattle.sut_network.specs.Networks.{IsNetworkOf, bounds_in};

use flow_cost::Cost;
use flow_graph::{Graph, GraphFault};
use flow_residual::State;
use no_memory::NoMemory;
use std::alloc::Global;
use sut_measures::{Account, Measure, ends};
use sut_tables::{Problem, live_accounts};

/// A graph whose nodes are accounts and whose arcs are measures, each arc with bounds, a cost and a flow, and each node with
/// a potential. That it is a network of a problem is a relation over its accounts and its graph.
pub struct Network<C: Cost> {
    pub state: State<Account, Measure, C>,
    /// The nodes, in order.
    pub accounts: Vec<Account>,
}

impl<C: Cost> Drop for Network<C> {
    fn drop(self) {
        let Network { state, accounts } = self;
        drop(state);
        drop(accounts);
    }
}

/// Adds a node that is not there.
fn add_node(graph: &mut Graph<Account, Measure>, account: Account) -> Result<(), NoMemory>
    requires fresh { list_any (⟦<Account as PartialEq>⟧.eq account) graph.old.nodes ≡ false }
    requires room { length graph.old.nodes < 262_144 }
    ensures { OnOk result (graph.new ≡ with_node graph.old account) }
{
    match graph.add_node(account) {
        Ok(_) => Ok(()),
        Err(fault) => match fault {
            GraphFault::NoMemory => Err(NoMemory),
            _ => unreachable!(),
        },
    }
}

/// A graph of these nodes.
fn nodes_of(alloc: Global, accounts: &[Account]) -> Result<Graph<Account, Measure>, NoMemory>
    requires in_order { IsAscending account_key accounts.now }
    requires few { length accounts.now ≤ 262_144 }
    ensures { IfOk result (λ g. g ≡ record { nodes = accounts.now; names = []; arcs = [] }) }
{
    let mut graph = Graph::new(alloc);
    for account in accounts {
        add_node(&mut graph, *account)?;
    }
    Ok(graph)
}

/// Adds the arc of the next live measure, with these bounds.
fn add_arc(
    graph: &mut Graph<Account, Measure>,
    p: &Problem,
    m: Measure,
    lo: i64,
    hi: i64,
) -> Result<(), NoMemory>
    requires begun { IsBegun p.now (length graph.old.arcs) graph.old }
    requires next { slice_get (live_measures p.now) (length graph.old.arcs) ≡ Some m }
    requires room { length graph.old.arcs < 524_288 }
    requires bounds { AreBounds lo hi }
    ensures begun { OnOk result (IsBegun p.now (length graph.old.arcs + 1) graph.new) }
    ensures bounds { OnOk result (map bounds_in graph.new.arcs ≡ map bounds_in graph.old.arcs ++ (lo, hi) ∷ []) }
{
    let (from, to) = ends(p.classes(), m);
    match graph.add_arc(m, from, to, lo, hi) {
        Ok(_) => Ok(()),
        Err(fault) => match fault {
            GraphFault::NoMemory => Err(NoMemory),
            _ => unreachable!(),
        },
    }
}

/// The graph with an arc for each live measure, with these bounds.
fn graph_of(
    alloc: Global,
    p: &Problem,
    accounts: &[Account],
    measures: &[Measure],
    bounds: &[(i64, i64)],
) -> Result<Graph<Account, Measure>, NoMemory>
    requires accounts { accounts.now ≡ live_accounts p.now }
    requires measures { measures.now ≡ live_measures p.now }
    requires counted { length bounds.now ≡ length measures.now }
    requires bounded { All (λ (b : ℤ × ℤ). AreBounds b.0 b.1) bounds.now }
    ensures network { IfOk result (IsNetworkOf p.now) }
    ensures bounds { IfOk result (λ g. map bounds_in g.arcs ≡ bounds.now) }
{
    p.kept();
    p.classes().kept();
    let mut graph = nodes_of(alloc, accounts)?;
    for (k, m) in measures.iter().enumerate() {
        let (lo, hi) = bounds[k];
        add_arc(&mut graph, p, *m, lo, hi)?;
    }
    Ok(graph)
}

/// The network of a problem whose arcs have these bounds and costs, in the order of the live measures. Flows are as near to 0
/// as the bounds let them be, and potentials are 0.
pub fn network_of<C: Cost>(
    alloc: Global,
    p: &Problem,
    measures: &[Measure],
    bounds: &[(i64, i64)],
    costs: Vec<C>,
) -> Result<Network<C>, NoMemory>
    requires measures { measures.now ≡ live_measures p.now }
    requires counted { length bounds.now ≡ length measures.now }
    requires bounded { All (λ (b : ℤ × ℤ). AreBounds b.0 b.1) bounds.now }
    requires spans { AllZip (λ (b : ℤ × ℤ) c. IsWithin (C.span_of c) b.0 × IsWithin (C.span_of c) b.1) bounds.now costs.items }
    ensures network { IfOk result (λ n. IsNetworkOf p.now n.state.graph) }
    ensures accounts { IfOk result (λ n. n.accounts.items ≡ live_accounts p.now) }
    ensures bounds { IfOk result (λ n. map bounds_in n.state.graph.arcs ≡ bounds.now) }
    ensures costs { IfOk result (λ n. n.state.costs ≡ costs.items) }
    ensures potentials { IfOk result (λ n. n.state.potentials ≡ replicate (length n.accounts.items) (pos 0)) }
{
    let accounts = live_accounts(alloc, p)?;
    let graph = graph_of(alloc, p, &accounts, measures, bounds)?;
    let state = State::new(alloc, graph, costs)?;
    Ok(Network { state, accounts })
}

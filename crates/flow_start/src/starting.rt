ghost use Rattle.std.specs.Prelude.{◌≡◌, OnErr};

use crate::groups::find_groups;
use crate::lifting::Plan;
use crate::lists::read;
use crate::nets::Net;
use crate::windows::window;
use flow_cost::Cost;
use flow_graph::{ArcId, Name, NodeId};
use flow_residual::State;
use no_memory::NoMemory;
use std::alloc::Global;

/// The highest potential that is handed over.
const HIGHEST: i128 = 1_000_000_000_000_000_000_000_000;

/// Flows and potentials from which the solver has little left to do; none, where none were found in time.
fn planned<N: Name, A: Name, C: Cost>(
    alloc: Global,
    s: &State<N, A, C>,
) -> Result<Option<Plan>, NoMemory> {
    let window = window(s);
    let groups = find_groups(alloc, s, window)?;
    let mut net = Net::of(alloc, s, &groups, window)?;
    if net.scale(s) {
        Ok(Some(Plan::lifted(alloc, s, &groups, &net)?))
    } else {
        Ok(None)
    }
}

/// Writes the potentials, held to the range of a state.
fn write_potentials<N: Name, A: Name, C: Cost>(s: &mut State<N, A, C>, potentials: &[i128])
    ensures { s.new ≡ record s.old { potentials = s.new.potentials } }
{
    for n in 0..s.graph().node_count() {
        let potential = read(potentials, n, 0);
        s.set_potential(NodeId(n), potential.min(HIGHEST).max(0));
    }
}

/// Writes the flows, each moved within its arc's bounds.
fn write_flows<N: Name, A: Name, C: Cost>(s: &mut State<N, A, C>, flows: &[i64])
    ensures { s.new ≡ record s.old { flows = s.new.flows } }
{
    for a in 0..s.graph().arc_count() {
        s.set_flow(ArcId(a), read(flows, a, 0));
    }
}

/// Gives a state flows within their bounds and potentials from which the solver has little left to do. Which ones they are
/// promises nothing: the solver shows what it answers. The state stays as it was where no memory is left, or none were found
/// in time.
pub fn start<N: Name, A: Name, C: Cost>(
    alloc: Global,
    s: &mut State<N, A, C>,
) -> Result<(), NoMemory>
    ensures rest { s.new ≡ record s.old { flows = s.new.flows; potentials = s.new.potentials } }
    ensures kept { OnErr result (s.new ≡ s.old) }
{
    if let Some(plan) = planned(alloc, s)? {
        write_potentials(s, &plan.potentials);
        write_flows(s, &plan.flows);
    }
    Ok(())
}

use crate::asking::nearest;
use crate::groups::{Groups, ends};
use crate::lists::{add, filled, read, write};
use crate::nets::Net;
use flow_cost::Cost;
use flow_graph::{Name, NodeId};
use flow_residual::State;
use no_memory::NoMemory;
use std::alloc::Global;

/// A flow for each arc, and a potential for each node.
#[derive(Drop)]
pub(crate) struct Plan {
    pub(crate) flows: Vec<i64>,
    pub(crate) potentials: Vec<i128>,
    /// The excess of each node at these flows.
    excesses: Vec<i128>,
}

impl Plan {
    /// Takes over the flows of a net, with the excesses that they leave.
    fn take_flows<N: Name, A: Name, C: Cost>(
        &mut self,
        s: &State<N, A, C>,
        net: &Net,
    ) -> Result<(), NoMemory> {
        for a in 0..s.graph().arc_count() {
            let (tail, head) = ends(s, a);
            let flow = net.edge(a).flow;
            add(&mut self.excesses, head, flow as i128);
            add(&mut self.excesses, tail, (flow as i128).saturating_neg());
            self.flows.push(flow)?;
        }
        Ok(())
    }

    /// Takes over the labels of a net, above the least of them.
    fn take_labels(&mut self, groups: &Groups, net: &Net, nodes: u32) -> Result<(), NoMemory> {
        let least = net.labels.iter().copied().min().unwrap_or(0);
        for node in 0..nodes {
            let label = read(&net.labels, groups.of(NodeId(node)), least);
            self.potentials.push(label.saturating_sub(least))?;
        }
        Ok(())
    }

    /// Hands the excess of a node to the node that it was met from, by the open arc between them.
    fn hand_back<N: Name, A: Name, C: Cost>(
        &mut self,
        s: &State<N, A, C>,
        groups: &Groups,
        node: u32,
    ) {
        let Some(a) = read(&groups.by, node, None) else {
            return;
        };
        let (tail, head) = ends(s, a.0);
        let excess = read(&self.excesses, node, 0);
        let (other, by) = if head == node {
            (tail, excess.saturating_neg())
        } else {
            (head, excess)
        };
        let flow = (read(&self.flows, a.0, 0) as i128).saturating_add(by);
        write(
            &mut self.flows,
            a.0,
            flow.min(i64::MAX as i128).max(i64::MIN as i128) as i64,
        );
        write(&mut self.excesses, node, 0);
        add(&mut self.excesses, other, excess);
    }

    /// Lets the open arcs carry what keeps the nodes within a group from balance. The last nodes that were met come first.
    fn balance_groups<N: Name, A: Name, C: Cost>(&mut self, s: &State<N, A, C>, groups: &Groups) {
        for node in groups.order.iter().rev() {
            self.hand_back(s, groups, *node);
        }
    }

    /// The flows and potentials of a state from those of its contracted network.
    pub(crate) fn lifted<N: Name, A: Name, C: Cost>(
        alloc: Global,
        s: &State<N, A, C>,
        groups: &Groups,
        net: &Net,
    ) -> Result<Plan, NoMemory> {
        let nodes = s.graph().node_count();
        let mut plan = Plan {
            flows: Vec::new(alloc),
            potentials: Vec::new(alloc),
            excesses: filled(alloc, nodes, 0)?,
        };
        plan.take_flows(s, net)?;
        plan.take_labels(groups, net, nodes)?;
        plan.balance_groups(s, groups);
        Ok(plan)
    }
}

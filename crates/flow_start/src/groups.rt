use crate::lists::{filled, read, write};
use crate::windows::is_open;
use flow_cost::Cost;
use flow_graph::{ArcId, Name, NodeId};
use flow_residual::State;
use no_memory::NoMemory;
use std::alloc::Global;

/// The nodes by groups, each joined by open arcs.
#[derive(Drop)]
pub(crate) struct Groups {
    /// The group of each node.
    of: Vec<Option<u32>>,
    /// The open arc by which each node was met from a node of its group; none at the group's first node.
    pub(crate) by: Vec<Option<ArcId>>,
    /// The nodes in the order of meeting.
    pub(crate) order: Vec<u32>,
    /// How many nodes were gone on from.
    done: usize,
    pub(crate) count: u32,
}

impl Groups {
    /// The group of a node.
    pub(crate) fn of(&self, node: NodeId) -> u32 {
        let group = read(&self.of, node.0, None);
        group.unwrap_or(0)
    }

    /// Meets a node, where it was not met yet.
    fn meet(&mut self, node: u32, group: u32, by: Option<ArcId>) -> Result<(), NoMemory> {
        if read(&self.of, node, Some(0)).is_some() {
            return Ok(());
        }
        write(&mut self.of, node, Some(group));
        write(&mut self.by, node, by);
        self.order.push(node)?;
        Ok(())
    }

    /// Meets the nodes at the other ends of a node's open arcs.
    fn meet_from<N: Name, A: Name, C: Cost>(
        &mut self,
        s: &State<N, A, C>,
        node: u32,
        window: i64,
    ) -> Result<(), NoMemory> {
        if node >= s.graph().node_count() {
            return Ok(());
        }
        let group = self.of(NodeId(node));
        for a in s.graph().arcs_at(NodeId(node)) {
            if is_open(s, a.0, window) {
                let (tail, head) = ends(s, a.0);
                self.meet(tail, group, Some(a))?;
                self.meet(head, group, Some(a))?;
            }
        }
        Ok(())
    }

    /// Goes on from the nodes met, first in and first out, until no more are met.
    fn walk<N: Name, A: Name, C: Cost>(
        &mut self,
        s: &State<N, A, C>,
        window: i64,
    ) -> Result<(), NoMemory> {
        for _node in 0..s.graph().node_count() {
            if self.done >= self.order.len() {
                return Ok(());
            }
            let node = self.order[self.done];
            self.done = self.done.saturating_add(1);
            self.meet_from(s, node, window)?;
        }
        Ok(())
    }
}

/// The ends of an arc.
pub(crate) fn ends<N: Name, A: Name, C: Cost>(s: &State<N, A, C>, a: u32) -> (u32, u32) {
    if a >= s.graph().arc_count() {
        return (0, 0);
    }
    let (tail, head) = s.graph().ends(ArcId(a));
    (tail.0, head.0)
}

/// The groups of a state's nodes, found breadth first from each node not met yet.
pub(crate) fn find_groups<N: Name, A: Name, C: Cost>(
    alloc: Global,
    s: &State<N, A, C>,
    window: i64,
) -> Result<Groups, NoMemory> {
    let nodes = s.graph().node_count();
    let mut groups = Groups {
        of: filled(alloc, nodes, None)?,
        by: filled(alloc, nodes, None)?,
        order: Vec::new(alloc),
        done: 0,
        count: 0,
    };
    for node in 0..nodes {
        let met = groups.order.len();
        let count = groups.count;
        groups.meet(node, count, None)?;
        if groups.order.len() > met {
            groups.count = count.saturating_add(1);
            groups.walk(s, window)?;
        }
    }
    Ok(groups)
}

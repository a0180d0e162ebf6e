use crate::asking::nearest;
use crate::edges::{Edge, Half};
use crate::groups::{Groups, ends};
use crate::lists::{add, fill, filled, read, write};
use crate::rings::Ring;
use crate::windows::bounds;
use flow_cost::Cost;
use flow_graph::{Name, NodeId};
use flow_residual::State;
use no_memory::NoMemory;
use std::alloc::Global;

/// The contracted network: the groups are its nodes. Potentials are kept times a power of two above the number of groups,
/// so that an error of 1 in each can't add up to a unit around a cycle.
#[derive(Drop)]
pub(crate) struct Net {
    /// The arcs of the graph by their places. Those within a group are looked at no more.
    pub(crate) edges: Vec<Edge>,
    /// The place of each group's first half arc, and at last the number of half arcs.
    pub(crate) starts: Vec<u32>,
    pub(crate) halves: Vec<Half>,
    pub(crate) excesses: Vec<i128>,
    pub(crate) potentials: Vec<i128>,
    /// The half arc of each group from which to go on.
    pub(crate) current: Vec<u32>,
    /// The groups that are left out of a phase, since what they have too much can't be placed.
    pub(crate) aside: Vec<bool>,
    /// What a walk has met.
    pub(crate) met: Vec<bool>,
    /// Potentials in whole units.
    pub(crate) labels: Vec<i128>,
    /// The groups that have too much, in a line.
    pub(crate) ring: Ring,
    /// The groups from which a walk is to go on.
    pub(crate) walk: Ring,
    pub(crate) groups: u32,
    pub(crate) shift: u32,
    /// How many half arcs were looked at.
    pub(crate) looks: u64,
}

/// The exponent of the first power of two above a number.
fn bits_above(x: u32) -> u32 {
    u32::BITS - x.leading_zeros()
}

/// An arc of a state between its groups, with bounds cut to the window and the flow that settles it at price 0.
fn edge_of<N: Name, A: Name, C: Cost>(
    s: &State<N, A, C>,
    groups: &Groups,
    window: i64,
    a: u32,
) -> Edge {
    let (tail, head) = ends(s, a);
    let (lo, hi) = bounds(s, a);
    let least = window.saturating_neg();
    let edge = Edge::between(
        groups.of(NodeId(tail)),
        groups.of(NodeId(head)),
        nearest(least, window, lo),
        nearest(least, window, hi),
    );
    edge.unpriced(s, a)
}

/// The arcs of a state between groups.
fn edges_of<N: Name, A: Name, C: Cost>(
    alloc: Global,
    s: &State<N, A, C>,
    groups: &Groups,
    window: i64,
) -> Result<Vec<Edge>, NoMemory> {
    let mut edges = Vec::new(alloc);
    for a in 0..s.graph().arc_count() {
        edges.push(edge_of(s, groups, window, a))?;
    }
    Ok(edges)
}

impl Net {
    /// The contracted network of a state.
    pub(crate) fn of<N: Name, A: Name, C: Cost>(
        alloc: Global,
        s: &State<N, A, C>,
        groups: &Groups,
        window: i64,
    ) -> Result<Net, NoMemory> {
        let arcs = s.graph().arc_count();
        let count = groups.count;
        let mut net = Net {
            edges: edges_of(alloc, s, groups, window)?,
            starts: filled(alloc, count.saturating_add(1), 0)?,
            halves: Vec::new(alloc),
            excesses: filled(alloc, count, 0)?,
            potentials: filled(alloc, count, 0)?,
            current: filled(alloc, count, 0)?,
            aside: filled(alloc, count, false)?,
            met: filled(alloc, count, false)?,
            labels: filled(alloc, count, 0)?,
            ring: Ring::new(alloc, count)?,
            walk: Ring::new(alloc, count)?,
            groups: count,
            shift: bits_above(count),
            looks: 0,
        };
        net.count_halves(arcs);
        net.halves = filled(alloc, net.find_starts(), Half::NONE)?;
        net.pack(arcs);
        Ok(net)
    }

    /// The arc at a place.
    pub(crate) fn edge(&self, a: u32) -> Edge {
        read(&self.edges, a, Edge::NONE)
    }

    /// Counts a half arc more of a group.
    fn count_half(&mut self, group: u32) {
        let place = group.saturating_add(1);
        let count = read(&self.starts, place, 0).saturating_add(1);
        write(&mut self.starts, place, count);
    }

    /// Counts the half arcs of each group, and finds its excess.
    fn count_halves(&mut self, arcs: u32) {
        for a in 0..arcs {
            let edge = self.edge(a);
            if edge.tail != edge.head {
                self.count_half(edge.tail);
                self.count_half(edge.head);
                let flow = edge.flow as i128;
                add(&mut self.excesses, edge.head, flow);
                add(&mut self.excesses, edge.tail, flow.saturating_neg());
            }
        }
    }

    /// Adds the counts up to the places of first half arcs, and gives how many half arcs there are.
    fn find_starts(&mut self) -> u32 {
        let mut sum: u32 = 0;
        for start in self.starts.iter_mut() {
            sum = sum.saturating_add(*start);
            *start = sum;
        }
        sum
    }

    /// Puts a half arc next in its group's part.
    fn put_half(&mut self, group: u32, half: Half) {
        let place = read(&self.current, group, u32::MAX);
        write(&mut self.halves, place, half);
        write(&mut self.current, group, place.saturating_add(1));
    }

    /// Lets each group begin with its first half arc.
    pub(crate) fn rewind(&mut self) {
        for group in 0..self.groups {
            let start = read(&self.starts, group, 0);
            write(&mut self.current, group, start);
        }
    }

    /// Puts the half arcs in order of their groups.
    fn pack(&mut self, arcs: u32) {
        self.rewind();
        for arc in 0..arcs {
            let edge = self.edge(arc);
            if edge.tail != edge.head {
                self.put_half(edge.tail, Half { arc, outward: true });
                self.put_half(
                    edge.head,
                    Half {
                        arc,
                        outward: false,
                    },
                );
            }
        }
    }

    /// The places of a group's half arcs: the first, and the one after the last.
    pub(crate) fn places(&self, group: u32) -> (u32, u32) {
        let first = read(&self.starts, group, 0);
        (first, read(&self.starts, group.saturating_add(1), first))
    }

    /// The half arc at a place, and its arc.
    pub(crate) fn half(&self, place: u32) -> (Half, Edge) {
        let half = read(&self.halves, place, Half::NONE);
        (half, self.edge(half.arc))
    }

    /// How far up the potential rises along an arc.
    pub(crate) fn rise(&self, edge: &Edge) -> i128 {
        let above = read(&self.potentials, edge.head, 0);
        let below = read(&self.potentials, edge.tail, 0);
        above.saturating_sub(below)
    }

    /// A price in whole units as potentials are kept.
    pub(crate) fn scaled(&self, price: i64) -> i128 {
        (price as i128).wrapping_shl(self.shift)
    }

    /// A difference of potentials in whole units, rounded down.
    pub(crate) fn units_down(&self, rise: i128) -> i128 {
        rise.wrapping_shr(self.shift)
    }

    /// A difference of potentials in whole units, rounded up.
    pub(crate) fn units_up(&self, rise: i128) -> i128 {
        rise.saturating_neg()
            .wrapping_shr(self.shift)
            .saturating_neg()
    }

    /// Puts a changed arc in its place, and moves what it carries more from its tail to its head.
    pub(crate) fn put_edge(&mut self, a: u32, edge: Edge) {
        let by = (edge.flow as i128).saturating_sub(self.edge(a).flow as i128);
        write(&mut self.edges, a, edge);
        add(&mut self.excesses, edge.head, by);
        add(&mut self.excesses, edge.tail, by.saturating_neg());
    }

    /// The excess of a group.
    pub(crate) fn excess(&self, group: u32) -> i128 {
        read(&self.excesses, group, 0)
    }

    /// How many half arcs and groups there are, half of it.
    pub(crate) fn size(&self) -> u64 {
        (self.halves.len() as u64 / 2).saturating_add(self.groups as u64)
    }

    /// Takes what is left as given.
    pub(crate) fn forgive(&mut self) {
        fill(&mut self.excesses, 0);
    }
}

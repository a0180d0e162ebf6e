use crate::lists::{fill, read};
use crate::nets::Net;
use flow_cost::Cost;
use flow_graph::Name;
use flow_residual::State;

impl Net {
    /// Moves the flow of an arc to where it settles with a slack.
    fn settle_edge<N: Name, A: Name, C: Cost>(
        &mut self,
        s: &State<N, A, C>,
        a: u32,
        epsilon: i128,
    ) {
        let edge = self.edge(a);
        if edge.tail == edge.head {
            return;
        }
        let rise = self.rise(&edge);
        let above = rise.saturating_sub(epsilon);
        let below = rise.saturating_add(epsilon);
        let rises = edge
            .leaving(true)
            .1
            .is_some_and(|up| self.scaled(up) < above);
        let falls = edge
            .leaving(false)
            .1
            .is_some_and(|by| self.scaled(by).saturating_neg() > below);
        if rises {
            let price = self.units_up(above);
            self.put_edge(a, edge.moved(s, a, (edge.flow, edge.hi), price));
        } else if falls {
            let price = self.units_down(below);
            self.put_edge(a, edge.moved(s, a, (edge.lo, edge.flow), price));
        }
    }

    /// Moves all flows to where they settle with a slack.
    fn settle_edges<N: Name, A: Name, C: Cost>(&mut self, s: &State<N, A, C>, epsilon: i128) {
        for a in 0..s.graph().arc_count() {
            self.settle_edge(s, a, epsilon);
        }
    }

    /// Lines up the groups that have too much.
    fn line_up(&mut self) {
        self.rewind();
        fill(&mut self.aside, false);
        self.ring.clear();
        for group in 0..self.groups {
            if self.excess(group) > 0 {
                self.ring.put(group);
            }
        }
    }

    /// One phase: moves excesses on arcs that pay, where potentials may be wrong by epsilon, until none is left that can be
    /// placed; false where that takes too long.
    pub(crate) fn refine<N: Name, A: Name, C: Cost>(
        &mut self,
        s: &State<N, A, C>,
        epsilon: i128,
        far: i128,
    ) -> bool {
        self.settle_edges(s, epsilon);
        self.line_up();
        let often = self.size().saturating_mul(16);
        let limit = self.looks.saturating_add(self.size().saturating_mul(300));
        let mut next = self.looks.saturating_add(often);
        for _group in self.looks..limit {
            let Some(group) = self.ring.take() else {
                return true;
            };
            if self.looks >= limit {
                return false;
            }
            if read(&self.aside, group, true) {
                continue;
            }
            let ended = self.discharge(s, group, epsilon, limit.min(next));
            if !ended || self.looks >= next {
                self.part(far);
                next = self.looks.saturating_add(often);
            }
            if self.excess(group) > 0 {
                self.ring.put(group);
            }
        }
        false
    }
}

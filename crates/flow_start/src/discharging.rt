use crate::lists::{add, read, write};
use crate::nets::Net;
use flow_cost::Cost;
use flow_graph::Name;
use flow_residual::State;

/// An excess as a flow, at most 2^61.
fn as_flow(excess: i128) -> i64 {
    excess.max(0).min(1 << 61) as i64
}

impl Net {
    /// Moves what a group has too much along a half arc: as much as pays, at most all of it.
    fn push<N: Name, A: Name, C: Cost>(&mut self, s: &State<N, A, C>, group: u32, place: u32) {
        self.looks = self.looks.saturating_add(1);
        let (half, edge) = self.half(place);
        let (other, price) = edge.leaving(half.outward);
        let Some(price) = price else {
            return;
        };
        let fall = read(&self.potentials, other, 0).saturating_sub(read(
            &self.potentials,
            group,
            0,
        ));
        if self.scaled(price) >= fall {
            return;
        }
        let most = as_flow(self.excess(group));
        let (bounds, price) = if half.outward {
            let end = edge.hi.min(edge.flow.saturating_add(most));
            ((edge.flow, end), self.units_up(fall))
        } else {
            let end = edge.lo.max(edge.flow.saturating_sub(most));
            ((end, edge.flow), self.units_down(fall.saturating_neg()))
        };
        self.put_edge(half.arc, edge.moved(s, half.arc, bounds, price));
        if self.excess(other) > 0 && !read(&self.aside, other, true) {
            self.ring.put(other);
        }
    }

    /// By how much a group's potential falls until one of its moves pays; none, where it has no move.
    fn fall(&self, group: u32) -> Option<i128> {
        let (first, end) = self.places(group);
        let here = read(&self.potentials, group, 0);
        let mut least = None;
        for place in first..end {
            let (half, edge) = self.half(place);
            if let (other, Some(price)) = edge.leaving(half.outward) {
                let there = read(&self.potentials, other, 0);
                let length = self
                    .scaled(price)
                    .saturating_add(here)
                    .saturating_sub(there);
                least = match least {
                    Some(shorter) if shorter <= length => Some(shorter),
                    _ => Some(length),
                };
            }
        }
        least
    }

    /// Lowers a group's potential until a move pays by epsilon; false where it has no move.
    fn relabel(&mut self, group: u32, epsilon: i128) -> bool {
        let (first, end) = self.places(group);
        self.looks = self.looks.saturating_add(end.saturating_sub(first) as u64);
        let Some(fall) = self.fall(group) else {
            return false;
        };
        let by = fall.saturating_add(epsilon).saturating_neg();
        add(&mut self.potentials, group, by);
        write(&mut self.current, group, first);
        true
    }

    /// Moves away what a group has too much, while half arcs may be looked at, up to so many in all; false where it has no
    /// move left.
    pub(crate) fn discharge<N: Name, A: Name, C: Cost>(
        &mut self,
        s: &State<N, A, C>,
        group: u32,
        epsilon: i128,
        limit: u64,
    ) -> bool {
        let (_, end) = self.places(group);
        for _look in self.looks..limit {
            if self.excess(group) <= 0 || self.looks >= limit {
                return true;
            }
            let place = read(&self.current, group, end);
            if place >= end {
                if !self.relabel(group, epsilon) {
                    return false;
                }
            } else {
                self.push(s, group, place);
                if self.excess(group) > 0 {
                    write(&mut self.current, group, place.saturating_add(1));
                }
            }
        }
        true
    }
}

use crate::lists::{add, fill, read, write};
use crate::nets::Net;

impl Net {
    /// Meets a group.
    fn meet(&mut self, group: u32) {
        if !read(&self.met, group, true) {
            write(&mut self.met, group, true);
            self.walk.put(group);
        }
    }

    /// Meets each group that lacks something.
    fn meet_lacking(&mut self) {
        for group in 0..self.groups {
            if self.excess(group) < 0 {
                self.meet(group);
            }
        }
    }

    /// Meets each group from which a unit may come to this one.
    fn meet_before(&mut self, group: u32) {
        let (first, end) = self.places(group);
        self.looks = self.looks.saturating_add(end.saturating_sub(first) as u64);
        for place in first..end {
            let (half, edge) = self.half(place);
            if let (other, true) = edge.arriving(half.outward) {
                self.meet(other);
            }
        }
    }

    /// Meets each group from which some path of moves leads to one that lacks something.
    fn meet_reaching(&mut self) {
        fill(&mut self.met, false);
        self.walk.clear();
        self.meet_lacking();
        for _group in 0..self.groups {
            let Some(group) = self.walk.take() else {
                return;
            };
            self.meet_before(group);
        }
    }

    /// Whether a group that is not aside has too much, and no path to a group that lacks something.
    fn has_stranded(&self) -> bool {
        for group in 0..self.groups {
            let met = read(&self.met, group, true) || read(&self.aside, group, true);
            if !met && self.excess(group) > 0 {
                return true;
            }
        }
        false
    }

    /// Puts the groups aside that have no path to a group that lacks something, where one of them newly has too much, and
    /// lowers their potentials so far that nothing comes to them.
    pub(crate) fn part(&mut self, far: i128) {
        self.meet_reaching();
        if !self.has_stranded() {
            return;
        }
        for group in 0..self.groups {
            if !read(&self.met, group, true) {
                write(&mut self.aside, group, true);
                add(&mut self.potentials, group, far.saturating_neg());
            }
        }
    }
}

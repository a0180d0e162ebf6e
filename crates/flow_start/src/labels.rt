use crate::lists::{read, write};
use crate::nets::Net;

impl Net {
    /// Lowers the labels of groups to which a move from this one leads, where the move pays.
    fn correct_from(&mut self, group: u32) {
        let (first, end) = self.places(group);
        let here = read(&self.labels, group, 0);
        for place in first..end {
            let (half, edge) = self.half(place);
            if let (other, Some(price)) = edge.leaving(half.outward) {
                let label = here.saturating_add(price as i128);
                if label < read(&self.labels, other, label) {
                    write(&mut self.labels, other, label);
                    self.walk.put(other);
                }
            }
        }
    }

    /// Lets the labels be the potentials in whole units.
    fn label_all(&mut self) {
        self.walk.clear();
        for group in 0..self.groups {
            let label = self.units_down(read(&self.potentials, group, 0));
            write(&mut self.labels, group, label);
            self.walk.put(group);
        }
    }

    /// Corrects labels until no move pays: then they show the flows least among those with the same excesses. False where
    /// that takes more than so many scans of each group.
    pub(crate) fn show_least(&mut self, scans: u64) -> bool {
        self.label_all();
        let limit = (self.groups as u64).saturating_mul(scans).saturating_add(1);
        for _scan in 0..limit {
            let Some(group) = self.walk.take() else {
                return true;
            };
            self.correct_from(group);
        }
        false
    }
}

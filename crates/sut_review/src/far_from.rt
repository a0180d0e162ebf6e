//! The rule that marks values far from their targets.

ghost use Rattle.std.specs.Prelude.{◌≡◌, codes};
ghost use Rattle.sut_tables.specs.Problems.{IsTableOf};
ghost use Rattle.sut_review.specs.Rules.{marks_of};
ghost use Rattle.sut_review.specs.Marks.{far_from};

use crate::laws::values_asked;
use crate::reviewer::Reviewer;
use sut_tables::{Problem, Row, Table, value};

/// Marks a row with a target where the value is farther from the target than a number of percent of the target. Its label
/// is `far_from`.
#[derive(Debug, Drop)]
pub struct FarFrom {
    percent: u32,
    tally: u64,
}

impl FarFrom {
    /// With the tally 0.
    pub fn new(percent: u32) -> FarFrom
        ensures percent { result.percent ≡ percent }
        ensures tally { result.tally ≡ 0 }
    {
        FarFrom { percent, tally: 0 }
    }

    // How many rows it marks with the values of their measures over a table.
    fn count_marked(&self, p: &Problem, t: &Table) -> u64
        requires { IsTableOf p.now t.now }
        ensures { result ≡ marks_of (far_from self.now.percent) p.now t.now }
    {
        values_asked(p, t);
        let marked = p
            .rows()
            .filter(|row| self.marks(row, value(t, row.measure())));
        marked.count() as u64
    }
}

impl Reviewer for FarFrom {
    ghost rule = { λ f. far_from f.percent };

    ghost marked = { λ f. f.tally };

    ghost name = { λ _. codes "far_from" };

    fn marks(&self, row: &Row, value: i128) -> bool {
        row.in_range();
        match row.target() {
            None => false,
            Some(target) => {
                let distance = (value - i128::from(target)).unsigned_abs();
                let allowed = u128::from(self.percent) * u128::from(target.unsigned_abs());
                distance * 100 > allowed
            }
        }
    }

    fn see(&mut self, p: &Problem, t: &Table) {
        values_asked(p, t);
        let count = self.count_marked(p, t);
        self.tally += count;
    }

    fn tally(&self) -> u64 {
        self.tally
    }

    fn label(&self) -> &str {
        "far_from"
    }
}

//! The rule that marks values at a bound.

ghost use Rattle.std.specs.Prelude.{◌≡◌, codes};
ghost use Rattle.sut_tables.specs.Problems.{IsTableOf};
ghost use Rattle.sut_review.specs.Rules.{marks_of};
ghost use Rattle.sut_review.specs.Marks.{at_bound};

use crate::laws::values_asked;
use crate::reviewer::Reviewer;
use sut_tables::{Problem, Row, Table, value};

/// Marks a row whose bounds differ and whose value is one of them. Its label is `at_bound`.
#[derive(Debug, Drop)]
pub struct AtBound {
    tally: u64,
}

impl AtBound {
    /// With the tally 0.
    pub fn new() -> AtBound
        ensures { result.tally ≡ 0 }
    {
        AtBound { tally: 0 }
    }

    // How many rows it marks with the values of their measures over a table.
    fn count_marked(&self, p: &Problem, t: &Table) -> u64
        requires { IsTableOf p.now t.now }
        ensures { result ≡ marks_of at_bound p.now t.now }
    {
        values_asked(p, t);
        let marked = p
            .rows()
            .filter(|row| self.marks(row, value(t, row.measure())));
        marked.count() as u64
    }
}

impl Reviewer for AtBound {
    ghost rule = { λ _. at_bound };

    ghost marked = { λ a. a.tally };

    ghost name = { λ _. codes "at_bound" };

    fn marks(&self, row: &Row, value: i128) -> bool {
        let lower = row.lower();
        let upper = row.upper();
        lower < upper && (value == i128::from(lower) || value == i128::from(upper))
    }

    fn see(&mut self, p: &Problem, t: &Table) {
        values_asked(p, t);
        let count = self.count_marked(p, t);
        self.tally += count;
    }

    fn tally(&self) -> u64 {
        self.tally
    }

    fn label(&self) -> &str {
        "at_bound"
    }
}

//! A reviewer of the tests' own.

ghost use Rattle.std.specs.Prelude.{◌≡◌, []};
ghost use Rattle.sut_tables.specs.Problems.{IsTableOf};
ghost use Rattle.sut_review.specs.Rules.{marks_of};
ghost use Rattle.test_runs.specs.OddValue.{odd_value};

use sut_review::Reviewer;
use sut_review::laws::values_asked;
use sut_tables::{Problem, Row, Table, value};

/// Marks each row whose value is odd. Its label is the empty text.
#[derive(Drop)]
pub(crate) struct OddValue {
    tally: u64,
}

impl OddValue {
    /// With the tally 0.
    pub(crate) fn new() -> OddValue
        ensures { result.tally ≡ 0 }
    {
        OddValue { tally: 0 }
    }

    // How many rows it marks with the values of their measures over a table.
    fn count_marked(&self, p: &Problem, t: &Table) -> u64
        requires { IsTableOf p.now t.now }
        ensures { result ≡ marks_of odd_value p.now t.now }
    {
        values_asked(p, t);
        let marked = p
            .rows()
            .filter(|row| self.marks(row, value(t, row.measure())));
        marked.count() as u64
    }
}

impl Reviewer for OddValue {
    ghost rule = { λ _. odd_value };

    ghost marked = { λ o. o.tally };

    ghost name = { λ _. [] };

    fn marks(&self, _row: &Row, value: i128) -> bool {
        value.unsigned_abs() % 2 == 1
    }

    fn see(&mut self, p: &Problem, t: &Table) {
        values_asked(p, t);
        let count = self.count_marked(p, t);
        self.tally += count;
    }

    fn tally(&self) -> u64 {
        self.tally
    }

    fn label(&self) -> &str {
        ""
    }
}

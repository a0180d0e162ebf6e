//! What a reviewer is.

ghost use Rattle.std.specs.Prelude.{◌≡◌, ℕ, ◌+◌, ◌<◌, ◌^◌, List};
ghost use Rattle.sut_tables.specs.RowFacts.{RowFacts};
ghost use Rattle.sut_tables.specs.Problems.{IsTableOf};
ghost use Rattle.sut_review.specs.Rules.{IsAsked, Rule, SameRule, marks_of};

use sut_tables::{Problem, Row, Table};

/// A plausibility rule, with a label and a tally: how many rows it has marked in the tables that it was shown. A caller
/// implements it for a rule of its own. None of the calls takes memory.
pub trait Reviewer: Drop {
    /// Which rows it marks, with which values.
    ghost rule: { Self → Rule };

    /// How many rows it has marked.
    ghost marked: { Self → ℕ };

    /// Its label.
    ghost name: { Self → List ℕ };

    /// Whether it marks a row whose measure has this value, in whole currency units.
    fn marks(&self, row: &Row, value: i128) -> bool
        requires { IsAsked value }
        ensures { result ≡ rule self.now row.now value };

    /// Adds to the tally the number of rows of the problem that it marks with the values of their measures over the table.
    /// Its rule and its label stay.
    fn see(&mut self, p: &Problem, t: &Table)
        requires few { marked self.old < 2 ^ 63 }
        requires of { IsTableOf p.now t.now }
        ensures tally { marked self.new ≡ marked self.old + marks_of (rule self.old) p.now t.now }
        ensures rule { SameRule (rule self.old) (rule self.new) }
        ensures label { name self.new ≡ name self.old };

    /// The tally.
    fn tally(&self) -> u64
        ensures { result ≡ marked self.now };

    /// The label, a text of any characters.
    fn label(&self) -> &str
        ensures { result.now ≡ name self.now };
}

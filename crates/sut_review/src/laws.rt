//! Laws of tallies.

ghost use Rattle.std.specs.Prelude.{◌≡◌, ◌≤◌, ℕ, All, List, None, Some, true, length, map, position};
ghost use Rattle.sut_tables.specs.Problems.{IsTableOf};
ghost use Rattle.sut_tables.specs.ProblemFacts.{ProblemFacts};
ghost use Rattle.sut_tables.specs.TableFacts.{TableFacts};
ghost use Rattle.sut_tables.specs.RowFacts.{RowFacts};
ghost use Rattle.sut_tables.specs.Values.{value_of};
ghost use Rattle.sut_review.specs.Rules.{IsAsked, IsHeld, Rule, asked, marks_of, tally_of};
ghost use Rattle.sut_review.specs.Seats.{AreFew, SeatFacts, dismissed, dismissed_at, ended, new_seat, seat_after, show_all, stands_at, stands_with};

use sut_tables::{Problem, Table};

/// Over a table of a problem a rule is asked about the value of each row's measure, so what counts is the rule as far as
/// it is asked. No rule marks more than 147,456 rows. It does nothing.
pub fn values_asked(p: &Problem, t: &Table)
    requires { IsTableOf p.now t.now }
    ensures values { (r : RowFacts) → IsAsked (value_of t.now r.measure) }
    ensures counts { (rule : Rule) → marks_of (asked rule) p.now t.now ≡ marks_of rule p.now t.now }
    ensures few { (rule : Rule) → marks_of rule p.now t.now ≤ 147456 }
{
    p.kept();
    let _ = t.cells();
}

/// After the tables that may be shown to a panel, a reviewer that was handed in has seen each of them, and its tally is that
/// of its rule over them: over tables of their problems, the rows that the rule marks with the values of their measures. One
/// that is dismissed then keeps both, whatever is shown later. Each reviewer counts alone. It does nothing.
pub fn tallies()
    ensures each { (tables : List (ProblemFacts × TableFacts)) (seats : List SeatFacts) → show_all tables seats ≡ map (seat_after tables) seats }
    ensures stood { (tables : List (ProblemFacts × TableFacts)) (label : List ℕ) (rule : Rule) → AreFew tables → seat_after tables (new_seat label rule) ≡ record {
      label = label;
      seen = length tables;
      tally = tally_of (asked rule) tables;
      standing = Some (asked rule);
    } }
    ensures dismissed { (before after : List (ProblemFacts × TableFacts)) (label : List ℕ) (rule : Rule) → AreFew before → seat_after after (ended (seat_after before (new_seat label rule))) ≡ record {
      label = label;
      seen = length before;
      tally = tally_of (asked rule) before;
      standing = None;
    } }
    ensures counts { (tables : List (ProblemFacts × TableFacts)) (rule : Rule) → All (λ (shown : ProblemFacts × TableFacts). IsHeld shown.0 shown.1) tables → tally_of (asked rule) tables ≡ tally_of rule tables }
    ensures left { (tables : List (ProblemFacts × TableFacts)) (seat : SeatFacts) → seat_after tables (ended seat) ≡ ended seat }
{}

/// The place that `Panel::standing` gives for a label is that of the first reviewer that stands with it, and `dismiss` at
/// that place ends its standing. It does nothing.
pub fn first_with_label()
    ensures stands { (label : List ℕ) (seats : List SeatFacts) (k : ℕ) → position (stands_with label) seats ≡ Some k → stands_at k seats ≡ true }
    ensures ends { (label : List ℕ) (seats : List SeatFacts) (k : ℕ) → position (stands_with label) seats ≡ Some k → dismissed_at k seats ≡ dismissed label seats }
{}

//! The review of an answer, where reviewers were handed in.

ghost use Rattle.std.specs.Prelude.{◌≡◌, All, IfOk, map};
ghost use Rattle.sut_tables.specs.Problems.{IsTableOf};
ghost use Rattle.sut_cert.specs.Right.{IsRight};
ghost use Rattle.sut_review.specs.Seats.{all_shown, new_seat};
ghost use Rattle.sut_review.specs.ReviewText.{review_text};
ghost use Rattle.sut_editing.specs.Shown.{seats_shown};
ghost use Rattle.sut_run.specs.Deliveries.{review_files};
ghost use Rattle.sut_run.specs.Outputs.{review_in};

use no_memory::NoMemory;
use std::alloc::Global;
use sut_cert::Answer;
use sut_review::{Panel, Reviewer};
use sut_tables::{Problem, Table};

// The text of the review after a table was shown.
fn review_of_table(
    alloc: Global,
    p: &Problem,
    t: &Table,
    reviewers: Vec<Box<dyn Reviewer>>,
) -> Result<Vec<u8>, NoMemory>
    requires zero { All (λ b. marked b ≡ 0) reviewers.items }
    requires of { IsTableOf p.now t.now }
    ensures { IfOk result (λ v. v.items ≡ review_text (all_shown p.now t.now (map (λ b. new_seat (name b) (rule b)) reviewers.items))) }
{
    let mut panel = Panel::new(alloc, reviewers)?;
    panel.review_all(p, t);
    panel.text(alloc)
}

// The text of the review where no table was shown.
fn review_of_none(alloc: Global, reviewers: Vec<Box<dyn Reviewer>>) -> Result<Vec<u8>, NoMemory>
    requires zero { All (λ b. marked b ≡ 0) reviewers.items }
    ensures { IfOk result (λ v. v.items ≡ review_text (map (λ b. new_seat (name b) (rule b)) reviewers.items)) }
{
    let panel = Panel::new(alloc, reviewers)?;
    panel.text(alloc)
}

/// The text of `review.csv` where reviewers were handed in: they see the table of a balanced answer.
pub(crate) fn review_of(
    alloc: Global,
    p: &Problem,
    a: &Answer,
    reviewers: Vec<Box<dyn Reviewer>>,
) -> Result<Option<Vec<u8>>, NoMemory>
    requires zero { All (λ b. marked b ≡ 0) reviewers.items }
    requires right { IsRight p.now a.now }
    ensures { IfOk result (λ review. review_in review ≡ review_files (seats_shown p.now a.now (map (λ b. new_seat (name b) (rule b)) reviewers.items))) }
{
    if reviewers.is_empty() {
        return Ok(None);
    }
    match a {
        Answer::Balanced(table, _) => {
            let text = review_of_table(alloc, p, table, reviewers)?;
            Ok(Some(text))
        }
        Answer::Infeasible(_) => {
            let text = review_of_none(alloc, reviewers)?;
            Ok(Some(text))
        }
    }
}

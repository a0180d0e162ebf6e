//! Reviews in runs of edits.

use crate::years::{AGAIN, HELD, ends_before, gap_under, is_accepted, shelf_with};
use std::alloc::Global;
use std::test::Fail;
use sut_outside::{FileName, MemorySink, SteadyShelf};
use sut_review::{AtBound, FarFrom, Reviewer};
use sut_run::Status;

/// Takes the edits before the program's two rules, the second at so many percent.
pub(crate) fn ends_before_two(
    alloc: Global,
    shelf: &mut SteadyShelf,
    out: &mut MemorySink,
    percent: u32,
) -> Result<Status, Fail> {
    let mut reviewers: Vec<Box<dyn Reviewer>> = Vec::new(alloc);
    reviewers.push(Box::new(alloc, AtBound::new())?)?;
    reviewers.push(Box::new(alloc, FarFrom::new(percent))?)?;
    ends_before(alloc, shelf, out, reviewers)
}

/// The edits, the numbers with which run and check end, the lines of the check, and the review at 1 percent.
type Case = (&'static str, u8, &'static str, &'static str);

fn passes(alloc: Global, case: &Case) -> Result<bool, Fail> {
    let (edits, code, checked, review) = case;
    let mut shelf = shelf_with(alloc, &gap_under(edits))?;
    let mut out = MemorySink::new(alloc, 1000, Vec::new(alloc))?;
    let status = ends_before_two(alloc, &mut shelf, &mut out, 1)?;
    let is_reviewed = shelf.file(FileName::ReviewCsv) == Some(review.as_bytes());
    Ok(status.code() == *code && is_reviewed && is_accepted(alloc, &mut shelf, *code, checked)?)
}

// In each table each of the four cells with a target is more than 1 percent from it, and none is at a bound.
#[test]
fn two_rules(rt: HostRuntime) -> Result<(), Fail> {
    let cases: [Case; 5] = [
        (
            "balance,,,,,,,,\ndismiss,,far_from,,,,,,\nset,make,X,A,,108,,,\nbalance,,,,,,,,\n",
            0,
            "least\ncost 100\n",
            "label,seen,tally,standing\nat_bound,2,0,yes\nfar_from,1,4,no\n",
        ),
        (
            AGAIN,
            0,
            "least\ncost 100\n",
            "label,seen,tally,standing\nat_bound,2,0,yes\nfar_from,2,8,yes\n",
        ),
        // The rows are balanced once more after the last line.
        (
            "balance,,,,,,,,\ndismiss,,far_from,,,,,,\n",
            0,
            "least\ncost 16\n",
            "label,seen,tally,standing\nat_bound,2,0,yes\nfar_from,1,4,no\n",
        ),
        // There is no table between the two that are seen.
        (
            HELD,
            0,
            "least\ncost 16\n",
            "label,seen,tally,standing\nat_bound,2,0,yes\nfar_from,2,8,yes\n",
        ),
        (
            "dismiss,,at_bound,,,,,,\nadd,gdp,,,,,,2000,3000\n",
            3,
            "no table\nentering 2000\nleaving 1000\n",
            "label,seen,tally,standing\nat_bound,0,0,no\nfar_from,0,0,yes\n",
        ),
    ];
    for case in cases {
        assert!(rt; passes(rt.alloc(), &case)?, "{}", case.0);
    }
    Ok(())
}

/// Takes the edits before two reviewers with one label, at 1 and at 3 percent.
fn ends_before_alike(
    alloc: Global,
    shelf: &mut SteadyShelf,
    out: &mut MemorySink,
) -> Result<Status, Fail> {
    let mut reviewers: Vec<Box<dyn Reviewer>> = Vec::new(alloc);
    reviewers.push(Box::new(alloc, FarFrom::new(1))?)?;
    reviewers.push(Box::new(alloc, FarFrom::new(3))?)?;
    ends_before(alloc, shelf, out, reviewers)
}

// At 3 percent the import and the second use are marked first, and then all four cells.
#[test]
fn first_with_the_label(rt: HostRuntime) -> Result<(), Fail> {
    let edits = "balance,,,,,,,,\ndismiss,,far_from,,,,,,\nset,make,X,A,,108,,,\n";
    let mut shelf = shelf_with(rt.alloc(), &gap_under(edits))?;
    let mut out = MemorySink::new(rt.alloc(), 1000, Vec::new(rt.alloc()))?;
    let status = ends_before_alike(rt.alloc(), &mut shelf, &mut out)?;
    assert!(rt; status == Status::Balanced);
    let review = "label,seen,tally,standing\nfar_from,1,4,no\nfar_from,2,6,yes\n";
    assert!(rt; shelf.file(FileName::ReviewCsv) == Some(review.as_bytes()));
    Ok(())
}

// A reviewer is dismissed once, and a label that none has names none.
#[test]
fn no_reviewer(rt: HostRuntime) -> Result<(), Fail> {
    let cases = [
        (
            "dismiss,,far_from,,,,,,\nbalance,,,,,,,,\ndismiss,,far_from,,,,,,\n",
            "sut: edits.csv line 4: no-reviewer\n",
        ),
        (
            "dismiss,,far,,,,,,\n",
            "sut: edits.csv line 2: no-reviewer\n",
        ),
    ];
    for (edits, line) in cases {
        let mut shelf = shelf_with(rt.alloc(), &gap_under(edits))?;
        let mut out = MemorySink::new(rt.alloc(), 1000, Vec::new(rt.alloc()))?;
        let status = ends_before_two(rt.alloc(), &mut shelf, &mut out, 1)?;
        let told = status.line(rt.alloc())?;
        assert!(rt; told.as_slice() == line.as_bytes(), "{edits}");
        assert!(rt; shelf.file(FileName::ReviewCsv).is_none() && out.text().is_empty());
    }
    Ok(())
}

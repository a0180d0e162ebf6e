//! What runs of edits print: a line for each time that the rows were balanced, and the lines of the last answer.

use crate::years::{AGAIN, HELD, Year, ends, gap_under, is_accepted, shelf_with};
use std::alloc::Global;
use std::process::Abort;
use std::test::Fail;
use sut_outside::MemorySink;
use test_years::{FLAT, SMALL};

/// A year, the number with which run and check end, the lines with which the run begins, and all lines of the check.
type Case = (Year<'static>, u8, &'static str, &'static str);

fn passes(alloc: Global, case: &Case) -> Result<bool, Fail> {
    let (year, code, printed, checked) = case;
    let mut shelf = shelf_with(alloc, year)?;
    let mut out = MemorySink::new(alloc, 1000, Vec::new(alloc))?;
    let status = ends(alloc, &mut shelf, &mut out)?;
    let is_printed = status.code() == *code && out.text().starts_with(printed.as_bytes());
    Ok(is_printed && is_accepted(alloc, &mut shelf, *code, checked)?)
}

fn check(rt: &impl Abort, alloc: Global, cases: &[Case]) -> Result<(), Fail> {
    for case in cases {
        assert!(rt; passes(alloc, case)?, "{}", case.0.edits);
    }
    Ok(())
}

// Which cell moves by 12 and not by 13 where there are no imports is free; the cost is not.
#[test]
fn balanced_at_the_end(rt: HostRuntime) -> Result<(), Fail> {
    let cases: [Case; 5] = [
        (
            gap_under(""),
            0,
            "end balanced 16\nbalanced\ncost 16\ngdp 82 82 82\n",
            "least\ncost 16\n",
        ),
        (
            gap_under(AGAIN),
            0,
            "line 2 balanced 16\nline 4 balanced 100\nbalanced\ncost 100\ngdp 103 103 103\n",
            "least\ncost 100\n",
        ),
        (
            gap_under("drop,import,X,,,,,,\n"),
            0,
            "end balanced 482\nbalanced\ncost 482\ngdp 9",
            "least\ncost 482\n",
        ),
        (
            gap_under("drop,import,X,,,,,,\nbalance,,,,,,,,\nadd,import,X,,,30,,,\n"),
            0,
            "line 3 balanced 482\nend balanced 16\nbalanced\ncost 16\ngdp 82 82 82\n",
            "least\ncost 16\n",
        ),
        (
            Year {
                settings: FLAT,
                classes: SMALL,
                rows: "",
                edits: "",
            },
            0,
            "end balanced 0\nbalanced\ncost 0\ngdp 0 0 0\n",
            "least\ncost 0\n",
        ),
    ];
    check(&rt, rt.alloc(), &cases)
}

#[test]
fn infeasible(rt: HostRuntime) -> Result<(), Fail> {
    let cases: [Case; 2] = [
        (
            gap_under(HELD),
            0,
            "line 2 balanced 16\nline 4 infeasible\nend balanced 16\nbalanced\ncost 16\ngdp 82 82 82\n",
            "least\ncost 16\n",
        ),
        (
            gap_under("balance,,,,,,,,\nadd,gdp,,,,,,2000,3000\n"),
            3,
            "line 2 balanced 16\nend infeasible\ninfeasible\nentering 2000\nleaving 1000\n",
            "no table\nentering 2000\nleaving 1000\n",
        ),
    ];
    check(&rt, rt.alloc(), &cases)
}

// The most that a file may ask for, and once more at the end.
#[test]
fn sixteen_times(rt: HostRuntime) -> Result<(), Fail> {
    let cases: [Case; 1] = [(
        gap_under(
            "balance,,,,,,,,\nbalance,,,,,,,,\nbalance,,,,,,,,\nbalance,,,,,,,,\nbalance,,,,,,,,\nbalance,,,,,,,,\nbalance,,,,,,,,\nbalance,,,,,,,,\nbalance,,,,,,,,\nbalance,,,,,,,,\nbalance,,,,,,,,\nbalance,,,,,,,,\nbalance,,,,,,,,\nbalance,,,,,,,,\nbalance,,,,,,,,\nset,make,X,A,,108,,,\n",
        ),
        0,
        "line 2 balanced 16\nline 3 balanced 16\nline 4 balanced 16\nline 5 balanced 16\nline 6 balanced 16\nline 7 balanced 16\nline 8 balanced 16\nline 9 balanced 16\nline 10 balanced 16\nline 11 balanced 16\nline 12 balanced 16\nline 13 balanced 16\nline 14 balanced 16\nline 15 balanced 16\nline 16 balanced 16\nend balanced 100\nbalanced\ncost 100\ngdp 103 103 103\n",
        "least\ncost 100\n",
    )];
    check(&rt, rt.alloc(), &cases)
}

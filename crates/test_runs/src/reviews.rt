//! Reviews of balanced tables, and of a year that has none.

ghost use Rattle.std.specs.Prelude.{◌≡◌, All};

use crate::odd_value::OddValue;
use std::alloc::Global;
use std::process::Abort;
use std::test::Fail;
use sut_outside::{FileName, MemorySink, SteadyShelf};
use sut_review::{AtBound, FarFrom, Reviewer};
use sut_run::run;
use test_years::realistic::FILES;
use test_years::{FLAT, SMALL, SOURCE_HEADER, joined, steady, words_of};

/// The settings and rows of a year of one product, and the lines of its review.
type Case = (&'static str, &'static str, &'static str);

fn shelf_with(alloc: Global, settings: &str, rows: &str) -> Result<SteadyShelf, Fail> {
    let source = joined(alloc, SOURCE_HEADER, rows)?;
    let files = [
        (FileName::SettingsToml, settings),
        (FileName::ClassesCsv, SMALL),
        (FileName::SourceCsv, source.as_str()),
    ];
    Ok(steady(alloc, &files)?)
}

/// Balances the files of the shelf before these reviewers.
fn balance(
    alloc: Global,
    shelf: &mut SteadyShelf,
    reviewers: Vec<Box<dyn Reviewer>>,
) -> Result<(), Fail>
    requires { All (λ b. marked b ≡ 0) reviewers.items }
{
    let words = match words_of(alloc, &["balance"]) {
        Ok(words) => words,
        Err(_) => {
            drop(reviewers);
            return Err("words".into());
        }
    };
    let mut out = match MemorySink::new(alloc, 1000, Vec::new(alloc)) {
        Ok(out) => out,
        Err(_) => {
            drop(reviewers);
            return Err("a sink".into());
        }
    };
    let _status = run(alloc, &words, shelf, &mut out, reviewers);
    Ok(())
}

/// Balances before the program's two rules, the second at so many percent.
fn balance_before_two(alloc: Global, shelf: &mut SteadyShelf, percent: u32) -> Result<(), Fail> {
    let mut reviewers: Vec<Box<dyn Reviewer>> = Vec::new(alloc);
    reviewers.push(Box::new(alloc, AtBound::new())?)?;
    reviewers.push(Box::new(alloc, FarFrom::new(percent))?)?;
    balance(alloc, shelf, reviewers)
}

#[test]
fn two_reviewers(rt: HostRuntime) -> Result<(), Fail> {
    let cases: [Case; 3] = [
        // Both cells are 2 from their targets.
        (
            FLAT,
            "make,X,A,,100,,,\nbasic,X,F,,104,,,\nadded,V,A,,,,0,1000\n",
            "label,seen,tally,standing\nat_bound,1,0,yes\nfar_from,1,2,yes\n",
        ),
        (
            FLAT,
            "make,X,A,,100,,0,90\nbasic,X,F,,80,,,\nadded,V,A,,,,0,1000\n",
            "label,seen,tally,standing\nat_bound,1,1,yes\nfar_from,1,2,yes\n",
        ),
        // There is no table, so nothing is seen.
        (
            FLAT,
            "make,X,A,,100,,0,90\nbasic,X,F,,100,,95,\nadded,V,A,,,,0,1000\n",
            "label,seen,tally,standing\nat_bound,0,0,yes\nfar_from,0,0,yes\n",
        ),
    ];
    for (settings, rows, want) in cases {
        let mut shelf = shelf_with(rt.alloc(), settings, rows)?;
        balance_before_two(rt.alloc(), &mut shelf, 1)?;
        assert!(rt;
            shelf.file(FileName::ReviewCsv) == Some(want.as_bytes()),
            "{rows}"
        );
    }
    Ok(())
}

/// Balances before the tests' own rule.
fn balance_before_odd(alloc: Global, shelf: &mut SteadyShelf) -> Result<(), Fail> {
    let mut reviewers: Vec<Box<dyn Reviewer>> = Vec::new(alloc);
    reviewers.push(Box::new(alloc, OddValue::new())?)?;
    balance(alloc, shelf, reviewers)
}

#[test]
fn rule_of_ones_own(rt: HostRuntime) -> Result<(), Fail> {
    let cases: [Case; 2] = [
        // All three values are 102.
        (
            FLAT,
            "make,X,A,,100,,,\nbasic,X,F,,104,,,\nadded,V,A,,,,0,1000\n",
            "label,seen,tally,standing\n,1,0,yes\n",
        ),
        // All three values are 101.
        (
            "scheme = \"flat\"\n[grades]\nW = 3\n",
            "make,X,A,,100,W,,\nbasic,X,F,,104,,,\nadded,V,A,,,,0,1000\n",
            "label,seen,tally,standing\n,1,3,yes\n",
        ),
    ];
    for (settings, rows, want) in cases {
        let mut shelf = shelf_with(rt.alloc(), settings, rows)?;
        balance_before_odd(rt.alloc(), &mut shelf)?;
        assert!(rt;
            shelf.file(FileName::ReviewCsv) == Some(want.as_bytes()),
            "{rows}"
        );
    }
    Ok(())
}

// Worked by hand from the spread of each product's gap. No cell that may move comes to a bound, and none moves by more than
// 10 percent. Three move by 10: the change in stocks of AGR (10 by 1), the use of TRD by households (20 by 2) and the
// transport margin of AGR in industry C (10 by 1). Four more move by 6 2/3: the trade margins of AGR to households and of
// MAN in F (30 by 2), the transport margin of FOD to households and the use of SRV by B (15 by 1).
#[test]
fn whole_economy(rt: HostRuntime) -> Result<(), Fail> {
    for (percent, want) in [
        (
            10,
            "label,seen,tally,standing\nat_bound,1,0,yes\nfar_from,1,0,yes\n",
        ),
        (
            9,
            "label,seen,tally,standing\nat_bound,1,0,yes\nfar_from,1,3,yes\n",
        ),
        (
            6,
            "label,seen,tally,standing\nat_bound,1,0,yes\nfar_from,1,7,yes\n",
        ),
    ] {
        let mut shelf = steady(rt.alloc(), &FILES)?;
        balance_before_two(rt.alloc(), &mut shelf, percent)?;
        assert!(rt;
            shelf.file(FileName::ReviewCsv) == Some(want.as_bytes()),
            "{percent}"
        );
    }
    Ok(())
}

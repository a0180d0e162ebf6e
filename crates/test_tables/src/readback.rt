//! Tables read back: whole, with another target, and short.

use crate::small_year::{AIMED, problem_of};
use std::alloc::Global;
use std::process::Abort;
use std::test::Fail;
use sut_measures::{Measure, Total};
use sut_readback::{BalancedCause, BalancedFault, read_balanced};
use sut_tables::{Problem, value};

const WHOLE: &str =
    "kind,a,b,c,target,value\nmake,X,A,,100,90\nbasic,X,F,,100,80\nadded,V,A,,100,70\npurchase,X,F,,,80\nsupply,X,,,,90\noutput,A,,,,90\nvalue_added,A,,,,70\nitem_total,V,,,,70\nfinal_total,F,,,,80\ngdp,,,,,80\n";

/// What the table of a text has for GDP, or the fault of the text.
fn gdp_read(alloc: Global, problem: &Problem, text: &str) -> Result<i128, BalancedFault> {
    let table = read_balanced(alloc, problem, text.as_bytes())?;
    Ok(value(&table, Measure::Total(Total::Gdp)))
}

/// A text, and what is read from it.
type TextCase = (&'static str, Result<i128, BalancedFault>);

fn check_texts(
    rt: &impl Abort,
    alloc: Global,
    problem: &Problem,
    cases: &[TextCase],
) -> Result<(), Fail> {
    for &(text, want) in cases {
        assert_eq!(rt; gdp_read(alloc, problem, text), want);
    }
    Ok(())
}

fn fault(line: u64, cause: BalancedCause) -> Result<i128, BalancedFault> {
    Err(BalancedFault { line, cause })
}

#[test]
fn tables_read_back(rt: HostRuntime) -> Result<(), Fail> {
    let problem = problem_of(&rt, rt.alloc(), AIMED)?;
    check_texts(
        &rt,
        rt.alloc(),
        &problem,
        &[
            (WHOLE, Ok(80)),
            (
                "kind,a,b,c,target,value\nmake,X,A,,99,90\n",
                fault(2, BalancedCause::WrongTarget),
            ),
            (
                "kind,a,b,c,target,value\nmake,X,A,,100,90\n",
                fault(3, BalancedCause::Short),
            ),
        ],
    )
}

//! Verdicts on potentials and on sets of accounts.

use crate::small_year::{ADDED, BASIC, BOUGHT, MAKE, RowCase, problem_of};
use std::alloc::Global;
use std::process::Abort;
use std::test::Fail;
use sut_cert::{AccountSet, Potentials};
use sut_classes::{FinalId, IndustryId, ItemId, ProductId};
use sut_measures::{Account, Measure, Total};
use sut_tables::{Problem, Table};
use sut_verify::{Reason, Verdict, verify, verify_cut};

const PURCHASE: Measure = Measure::Total(Total::Purchase(ProductId(0), BOUGHT));

const SUPPLY: Measure = Measure::Total(Total::Supply(ProductId(0)));

/// Rows aimed at 0: a make up to its upper bound, a purchase from its lower bound, and an added item.
const fn rows(upper: i64, lower: i64) -> [RowCase; 3] {
    [
        (MAKE, 0, 0, upper),
        (BASIC, 0, lower, 1000),
        (ADDED, 0, 0, 1000),
    ]
}

/// Potentials of the product's supply and use, the other accounts with 0, and the verdict.
type PotentialsCase = (i128, i128, &'static [Account], Verdict);

const OTHERS: &[Account] = &[
    Account::Bought(ProductId(0), BOUGHT),
    Account::Adding(IndustryId(0)),
    Account::Industry(IndustryId(0)),
    Account::Making(IndustryId(0)),
    Account::Final(FinalId(0)),
    Account::Item(ItemId(0)),
    Account::Spending,
    Account::Income,
];

/// The verdict on the table of zeros.
fn verdict_of(
    alloc: Global,
    problem: &Problem,
    (supplied, used, others, _want): PotentialsCase,
) -> Result<Verdict, Fail> {
    let mut pairs = Vec::new(alloc);
    pairs.push((Account::Supplied(ProductId(0)), supplied))?;
    pairs.push((Account::Used(ProductId(0)), used))?;
    for account in others {
        pairs.push((*account, 0))?;
    }
    let potentials = Potentials::of(pairs).ok_or("potentials")?;
    let table = Table::zeros(alloc, problem)?;
    Ok(verify(problem, &table, &potentials))
}

fn check_potentials(
    rt: &impl Abort,
    alloc: Global,
    problem: &Problem,
    cases: &[PotentialsCase],
) -> Result<(), Fail> {
    for case in cases {
        assert_eq!(rt; verdict_of(alloc, problem, *case)?, case.3);
    }
    Ok(())
}

#[test]
fn zeros_are_least(rt: HostRuntime) -> Result<(), Fail> {
    let problem = problem_of(&rt, rt.alloc(), &rows(90, 0))?;
    let up = Reason::Up {
        measure: MAKE,
        slope: 1,
        rise: 2,
    };
    let bent = Reason::Bent {
        measure: SUPPLY,
        rise: -1,
    };
    check_potentials(
        &rt,
        rt.alloc(),
        &problem,
        &[
            (1, 1, OTHERS, Verdict::Least),
            (2, 2, OTHERS, Verdict::Refused(up)),
            (1, 0, OTHERS, Verdict::Refused(bent)),
            (
                0,
                0,
                &[],
                Verdict::Refused(Reason::NoPotential(Account::Bought(ProductId(0), BOUGHT))),
            ),
        ],
    )
}

/// A list of accounts, and the verdict on their set.
type CutCase = (&'static [Account], Verdict);

fn cut_verdict(alloc: Global, problem: &Problem, accounts: &[Account]) -> Result<Verdict, Fail> {
    let mut list = Vec::new(alloc);
    for account in accounts {
        list.push(*account)?;
    }
    let set = AccountSet::of(list).ok_or("a set")?;
    Ok(verify_cut(problem, &set))
}

fn check_cuts(
    rt: &impl Abort,
    alloc: Global,
    problem: &Problem,
    cases: &[CutCase],
) -> Result<(), Fail> {
    for &(accounts, want) in cases {
        assert_eq!(rt; cut_verdict(alloc, problem, accounts)?, want);
    }
    Ok(())
}

#[test]
fn more_enters_than_leaves(rt: HostRuntime) -> Result<(), Fail> {
    let problem = problem_of(&rt, rt.alloc(), &rows(90, 95))?;
    let no_table = Verdict::NoTable {
        entering: 95,
        leaving: 90,
    };
    let no_gap = Reason::NoGap {
        entering: 0,
        leaving: 0,
    };
    check_cuts(
        &rt,
        rt.alloc(),
        &problem,
        &[
            (OTHERS, no_table),
            (
                &[Account::Bought(ProductId(0), BOUGHT)],
                Verdict::Refused(Reason::Crosses(PURCHASE)),
            ),
            (&[], Verdict::Refused(no_gap)),
        ],
    )
}

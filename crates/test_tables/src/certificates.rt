//! Certificates: texts with faults, texts that are printed again, pairs and sets.

use crate::small_year::{AIMED, problem_of};
use std::alloc::Global;
use std::process::Abort;
use std::test::Fail;
use sut_cert::{AccountSet, CertCause, CertFault, Potentials, print_certificate, read_certificate};
use sut_classes::ProductId;
use sut_measures::Account;
use sut_tables::Problem;

/// The fault of a text; or none, after a test that the text is what its certificate prints.
fn fault_of(
    rt: &impl Abort,
    alloc: Global,
    problem: &Problem,
    text: &[u8],
) -> Result<Option<CertFault>, Fail> {
    match read_certificate(alloc, problem, text) {
        Ok(certificate) => {
            let printed = print_certificate(alloc, problem, &certificate)?;
            assert_eq!(rt; printed.as_slice(), text);
            Ok(None)
        }
        Err(fault) => Ok(Some(fault)),
    }
}

const POTENTIALS: &str =
    "account,a,b,potential\nsupplied,X,,4\nused,X,,4\nbought,X,F,0\nadding,A,,0\nindustry,A,,0\nmaking,A,,0\nfinal,F,,0\nitem,V,,0\nspending,,,0\nincome,,,-1\n";

/// A text, and the line and the cause of its fault.
type TextCase = (&'static [u8], u64, CertCause);

fn check_faults(
    rt: &impl Abort,
    alloc: Global,
    problem: &Problem,
    cases: &[TextCase],
) -> Result<(), Fail> {
    for &(text, line, cause) in cases {
        let want = Some(CertFault { line, cause });
        assert_eq!(rt; fault_of(rt, alloc, problem, text)?, want);
    }
    Ok(())
}

#[test]
fn texts_with_faults(rt: HostRuntime) -> Result<(), Fail> {
    let problem = problem_of(&rt, rt.alloc(), AIMED)?;
    check_faults(
        &rt,
        rt.alloc(),
        &problem,
        &[
            (b"", 1, CertCause::Header),
            (
                b"account,a,b\nincome,,\nbought,X,F\n",
                3,
                CertCause::WrongAccount,
            ),
            (
                b"account,a,b,potential\nsupplied,X,,04\n",
                2,
                CertCause::NotNumber,
            ),
            (
                b"account,a,b,potential\nsupplied,X,,4\n",
                3,
                CertCause::Short,
            ),
        ],
    )
}

fn check_printed(
    rt: &impl Abort,
    alloc: Global,
    problem: &Problem,
    texts: &[&'static str],
) -> Result<(), Fail> {
    for &text in texts {
        assert_eq!(rt; fault_of(rt, alloc, problem, text.as_bytes())?, None);
    }
    Ok(())
}

#[test]
fn texts_printed_again(rt: HostRuntime) -> Result<(), Fail> {
    let problem = problem_of(&rt, rt.alloc(), AIMED)?;
    check_printed(
        &rt,
        rt.alloc(),
        &problem,
        &[POTENTIALS, "account,a,b\nbought,X,F\nincome,,\n"],
    )
}

/// What the potentials give to an account, or none where the pairs are no potentials.
fn given(
    alloc: Global,
    pairs: &[(Account, i128)],
    a: Account,
) -> Result<Option<Option<i128>>, Fail> {
    let mut list = Vec::new(alloc);
    for pair in pairs {
        list.push(*pair)?;
    }
    match Potentials::of(list) {
        Some(potentials) => Ok(Some(potentials.get(a))),
        None => Ok(None),
    }
}

/// Whether an account is in the set, or none where the list is no set.
fn held(alloc: Global, accounts: &[Account], a: Account) -> Result<Option<bool>, Fail> {
    let mut list = Vec::new(alloc);
    for account in accounts {
        list.push(*account)?;
    }
    match AccountSet::of(list) {
        Some(set) => Ok(Some(set.has(a))),
        None => Ok(None),
    }
}

const LIMIT: i128 = 1_000_000_000_000_000_000_000_000;

const X: Account = Account::Supplied(ProductId(0));

const Y: Account = Account::Supplied(ProductId(1));

/// Pairs, and what the second account has.
type PairsCase = (&'static [(Account, i128)], Option<Option<i128>>);

/// A list of accounts, and whether the second account is in it.
type SetCase = (&'static [Account], Option<bool>);

fn check_pairs(rt: &impl Abort, alloc: Global, cases: &[PairsCase]) -> Result<(), Fail> {
    for &(pairs, want) in cases {
        assert_eq!(rt; given(alloc, pairs, Y)?, want);
    }
    Ok(())
}

fn check_sets(rt: &impl Abort, alloc: Global, cases: &[SetCase]) -> Result<(), Fail> {
    for &(accounts, want) in cases {
        assert_eq!(rt; held(alloc, accounts, Y)?, want);
    }
    Ok(())
}

#[test]
fn potentials_of_pairs(rt: HostRuntime) -> Result<(), Fail> {
    check_pairs(
        &rt,
        rt.alloc(),
        &[
            (&[(X, LIMIT)], Some(None)),
            (&[(X, 4), (Y, -LIMIT)], Some(Some(-LIMIT))),
            (&[(Y, LIMIT + 1)], None),
            (&[(Y, 0), (Y, 0)], None),
            (&[(Y, 0), (X, 0)], None),
        ],
    )
}

#[test]
fn sets_of_accounts(rt: HostRuntime) -> Result<(), Fail> {
    check_sets(
        &rt,
        rt.alloc(),
        &[
            (&[], Some(false)),
            (&[X, Y, Account::Income], Some(true)),
            (&[X, Account::Income], Some(false)),
            (&[Y, Y], None),
            (&[Y, X], None),
        ],
    )
}

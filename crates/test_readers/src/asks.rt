//! Files of asks.

use std::alloc::Global;
use std::test::Fail;
use sut_asks::{AskCause, AskFault, read_asks};
use sut_classes::{Classes, IndustryId, ProductId, read_classes};
use sut_measures::{Cell, Field, Measure, NameFault, Total};
use sut_settings::{Settings, read_settings};
use sut_source::read_source;
use sut_tables::Problem;

const SETTINGS: &[u8] = b"scheme = \"flat\"\n";

// One product, one industry, one final use, one item.
const CLASSES: &[u8] = b"axis,code,kind\nproduct,X,plain\nindustry,A,\nfinal,F,\nitem,V,\n";

// The product is made and used, and not imported.
const SOURCE: &[u8] = b"kind,a,b,c,target,grade,lower,upper\nmake,X,A,,100,,,\nbasic,X,F,,104,,,\n";

fn problem_of(alloc: Global, settings: &Settings, classes: Classes) -> Option<Problem> {
    match read_source(alloc, settings, classes, SOURCE) {
        Ok(problem) => Some(problem),
        Err(_) => None,
    }
}

fn problem_under(alloc: Global, settings: &Settings) -> Option<Problem> {
    match read_classes(alloc, CLASSES) {
        Ok(classes) => problem_of(alloc, settings, classes),
        Err(_) => None,
    }
}

fn small_problem(alloc: Global) -> Option<Problem> {
    match read_settings(alloc, SETTINGS) {
        Ok(settings) => problem_under(alloc, &settings),
        Err(_) => None,
    }
}

// What a file gives in the small year.
fn asks_in(alloc: Global, text: &str) -> Option<Result<Vec<Measure>, AskFault>> {
    match small_problem(alloc) {
        Some(problem) => Some(read_asks(alloc, &problem, text.as_bytes())),
        None => None,
    }
}

// The first fault of a file, if it has one.
fn fault_in(alloc: Global, text: &str) -> Option<AskFault> {
    match asks_in(alloc, text) {
        Some(Err(fault)) => Some(fault),
        Some(Ok(_)) | None => None,
    }
}

const MAKE: Measure = Measure::Cell(Cell::Make(ProductId(0), IndustryId(0)));

const SUPPLY: Measure = Measure::Total(Total::Supply(ProductId(0)));

const GDP: Measure = Measure::Total(Total::Gdp);

fn reads(alloc: Global, text: &str) -> bool {
    match asks_in(alloc, text) {
        Some(Ok(asks)) => asks.iter().copied().eq([MAKE, SUPPLY, GDP, SUPPLY]),
        Some(Err(_)) | None => false,
    }
}

#[test]
fn right_asks(rt: HostRuntime) {
    let text = "kind,a,b,c\nmake,X,A,\nsupply,X,,\ngdp,,,\nsupply,X,,\n";
    assert!(rt; reads(rt.alloc(), text));
}

/// A file, the line of its first fault, and the fault.
type Case = (&'static str, u64, AskCause);

const CASES: [Case; 9] = [
    ("", 1, AskCause::Header),
    ("kind,a,b\nmake,X,A,\n", 1, AskCause::Header),
    ("kind,a,b,c\n", 2, AskCause::Short),
    ("kind,a,b,c\nimport,X,,\n", 2, AskCause::NotLive),
    (
        "kind,a,b,c\ngdp,,,\nimport_total,,,\n",
        3,
        AskCause::NotLive,
    ),
    ("kind,a,b,c\nmake,X,A\n", 2, AskCause::Csv),
    ("kind,a,b,c\nmake,X,A,,\n", 2, AskCause::Csv),
    (
        "kind,a,b,c\nmade,X,A,\n",
        2,
        AskCause::BadName(NameFault::UnknownKind),
    ),
    (
        "kind,a,b,c\nmake,X,A,\nmake,X,F,\n",
        3,
        AskCause::BadName(NameFault::UnknownCode(Field::B)),
    ),
];

#[test]
fn faults(rt: HostRuntime) {
    for (text, line, cause) in CASES {
        let fault = AskFault { line, cause };
        assert!(rt; fault_in(rt.alloc(), text) == Some(fault), "{text}");
    }
}

/// The line after 64 asks, and its fault, if it has one.
type Last = (&'static str, Option<AskCause>);

const LAST: [Last; 4] = [
    ("", None),
    ("make,X,A,\n", Some(AskCause::TooMany)),
    ("import,X,,\n", Some(AskCause::NotLive)),
    ("make,X,A\n", Some(AskCause::Csv)),
];

#[test]
fn after_64_asks(rt: HostRuntime) -> Result<(), Fail> {
    for (last, cause) in LAST {
        let mut text = String::from_str(rt.alloc(), "kind,a,b,c\n")?;
        for _ in 0..64u32 {
            text.push_str("gdp,,,\n")?;
        }
        text.push_str(last)?;
        let want = cause.map(|cause| AskFault { line: 66, cause });
        assert!(rt; fault_in(rt.alloc(), &text) == want, "{last}");
    }
    Ok(())
}

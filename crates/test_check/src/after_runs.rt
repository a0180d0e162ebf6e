//! What a run has written, checked on the same shelf.

use crate::written::{GAP, ends};
use std::alloc::Global;
use std::process::Abort;
use std::test::Fail;
use sut_outside::{FileName, MemorySink};
use sut_run::run;
use test_years::{FINALS, FLAT, SMALL, SOURCE_HEADER, joined, steady, words_of};

/// Whether a run with the word `balance` over these files ends with this number, and then the check does, and prints these
/// lines.
pub(crate) fn accepts(
    alloc: Global,
    files: &[(FileName, &str)],
    code: u8,
    printed: &str,
) -> Result<bool, Fail> {
    let mut shelf = steady(alloc, files)?;
    let mut out = MemorySink::new(alloc, 1000, Vec::new(alloc))?;
    let words = words_of(alloc, &["balance"])?;
    let status = run(alloc, &words, &mut shelf, &mut out, Vec::new(alloc));
    let mut lines = MemorySink::new(alloc, 1000, Vec::new(alloc))?;
    let checked = ends(alloc, &[], &mut shelf, &mut lines)?;
    Ok(status.code() == code && checked.code() == code && lines.text() == printed.as_bytes())
}

/// Settings, classes, rows, the number with which run and check end, and the lines of the check.
type Case = (&'static str, &'static str, &'static str, u8, &'static str);

fn check(rt: &impl Abort, alloc: Global, cases: &[Case]) -> Result<(), Fail> {
    for (settings, classes, rows, code, printed) in cases {
        let source = joined(alloc, SOURCE_HEADER, rows)?;
        let files = [
            (FileName::SettingsToml, *settings),
            (FileName::ClassesCsv, *classes),
            (FileName::SourceCsv, source.as_str()),
        ];
        assert!(rt; accepts(alloc, &files, *code, printed)?, "{rows}");
    }
    Ok(())
}

/// A product G, and a product T that makes the services of the margin TR.
const TRADE: &str =
    "axis,code,kind\nmargin,TR,\nproduct,G,plain\nproduct,T,TR\nindustry,A,\nindustry,B,\nfinal,F,\nitem,V,\n";

/// A tax and a subsidy.
const TAXES: &str =
    "axis,code,kind\nproduct,X,plain\nindustry,A,\nfinal,F,\nitem,V,\ntax,VAT,\ntax,SUB,\n";

/// Two products in one group.
const GROUPS: &str =
    "axis,code,kind,group\nproduct_group,G,,\nproduct,X,plain,G\nproduct,Y,plain,G\nindustry,A,,\nfinal,F,,\nitem,V,,\n";

/// A grade of weight 3.
const GRADED: &str = "scheme = \"flat\"\n[grades]\nW = 3\n";

/// The greatest grade of the relative scheme.
const RELATIVE: &str = "scheme = \"relative\"\n[grades]\nH = 100\n";

#[test]
fn one_product(rt: HostRuntime) -> Result<(), Fail> {
    let files = [
        (FileName::SettingsToml, FLAT),
        (FileName::ClassesCsv, SMALL),
        (FileName::SourceCsv, GAP),
    ];
    assert!(rt; accepts(rt.alloc(), &files, 0, "least\ncost 8\n")?);
    let cases: [Case; 6] = [
        (FLAT, SMALL, "", 0, "least\ncost 0\n"),
        // Amounts at the ends of their range: unit steps would never end.
        (
            FLAT,
            SMALL,
            "make,X,A,,-1000000000000,,1000000000000,1000000000000\nbasic,X,F,,0,,,\nadded,V,A,,,,0,1000000000000\n",
            0,
            "least\ncost 5000000000000000000000000\n",
        ),
        (
            FLAT,
            SMALL,
            "make,X,A,,100,,,\nbasic,X,F,,100,,,\nadded,V,A,,100,,,\n",
            0,
            "least\ncost 0\n",
        ),
        (
            FLAT,
            SMALL,
            "make,X,A,,100,,,\nbasic,X,F,,101,,,\nadded,V,A,,,,0,1000\n",
            0,
            "least\ncost 1\n",
        ),
        (
            FLAT,
            FINALS,
            "make,X,A,,80,,,\nimport,X,,,30,,,\nbasic,X,F,,70,,,\nbasic,X,E,,48,,,\nadded,V,A,,,,0,1000\n",
            0,
            "least\ncost 16\n",
        ),
        (
            FLAT,
            SMALL,
            "make,X,A,,100,,0,90\nbasic,X,F,,80,,,\nadded,V,A,,,,0,1000\n",
            0,
            "least\ncost 200\n",
        ),
    ];
    check(&rt, rt.alloc(), &cases)
}

#[test]
fn weights_and_penalties(rt: HostRuntime) -> Result<(), Fail> {
    let cases: [Case; 4] = [
        (
            GRADED,
            SMALL,
            "make,X,A,,100,W,,\nbasic,X,F,,104,,,\nadded,V,A,,,,0,1000\n",
            0,
            "least\ncost 12\n",
        ),
        (
            RELATIVE,
            SMALL,
            "make,X,A,,0,H,,\nbasic,X,F,,3,H,,\nadded,V,A,,,,0,1000\n",
            0,
            "least\ncost 23332\n",
        ),
        (
            GRADED,
            SMALL,
            "make,X,A,,100,W,,\nbasic,X,F,,104,:abs,,\nadded,V,A,,,,0,1000\n",
            0,
            "least\ncost 4\n",
        ),
        (
            FLAT,
            SMALL,
            "make,X,A,,100,,,\nbasic,X,F,,104,:band:2,,\nadded,V,A,,,,0,1000\n",
            0,
            "least\ncost 2\n",
        ),
    ];
    check(&rt, rt.alloc(), &cases)
}

#[test]
fn margins_taxes_and_groups(rt: HostRuntime) -> Result<(), Fail> {
    let cases: [Case; 3] = [
        (
            FLAT,
            TRADE,
            "make,G,A,,100,,,\nbasic,G,F,,100,,,\nmake,T,B,,20,,,\nservice,T,TR,,,,0,1000\nmargin,TR,G,F,24,,,\nadded,V,A,,,,0,1000\nadded,V,B,,,,0,1000\n",
            0,
            "least\ncost 8\n",
        ),
        (
            FLAT,
            TAXES,
            "make,X,A,,100,,100,100\nbasic,X,F,,100,,100,100\ntax,VAT,X,F,15,,,\ntax_total,VAT,,,19,,,\ntax,SUB,X,F,-5,,-5,-5\nadded,V,A,,,,0,1000\n",
            0,
            "least\ncost 8\n",
        ),
        (
            FLAT,
            GROUPS,
            "make,X,A,,100,,,\nmake,Y,A,,100,,,\nbasic,X,F,,100,,,\nbasic,Y,F,,100,,,\nmake_group,G,A,,208,,,\nadded,V,A,,,,0,1000\n",
            0,
            "least\ncost 32\n",
        ),
    ];
    check(&rt, rt.alloc(), &cases)
}

#[test]
fn contradicting_bounds(rt: HostRuntime) -> Result<(), Fail> {
    let cases: [Case; 3] = [
        (
            FLAT,
            SMALL,
            "make,X,A,,100,,0,90\nbasic,X,F,,100,,95,\nadded,V,A,,,,0,1000\n",
            3,
            "no table\nentering 95\nleaving 90\n",
        ),
        (
            FLAT,
            SMALL,
            "supply,X,,,5,,5,5\n",
            3,
            "no table\nentering 5\nleaving 0\n",
        ),
        (
            FLAT,
            GROUPS,
            "make,X,A,,100,,,\nmake,Y,A,,100,,,\nbasic,X,F,,100,,100,100\nbasic,Y,F,,100,,100,100\npurchase_group,G,F,,,,0,150\nadded,V,A,,,,0,1000\n",
            3,
            "no table\nentering 200\nleaving 150\n",
        ),
    ];
    check(&rt, rt.alloc(), &cases)
}

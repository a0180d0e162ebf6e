//! Edits that are refused, as they are read or as they are taken: nothing is written, and nothing is printed.

use crate::years::{EDITS_HEADER, GAP, Year, ends, gap_under, shelf_with};
use std::alloc::Global;
use std::process::Abort;
use std::test::Fail;
use sut_outside::{FileName, MemorySink, SteadyShelf};
use test_years::{FINALS, FLAT, SOURCE_HEADER, joined, steady};

const WRITTEN: [FileName; 9] = [
    FileName::EditedCsv,
    FileName::TrailCsv,
    FileName::BalancedCsv,
    FileName::SupplyCsv,
    FileName::UseCsv,
    FileName::AccountsCsv,
    FileName::CertificateCsv,
    FileName::ReportJson,
    FileName::ReviewCsv,
];

// Whether the run on this shelf ends with this number and this status line, and leaves nothing behind.
fn refuses(alloc: Global, shelf: &mut SteadyShelf, code: u8, line: &str) -> Result<bool, Fail> {
    let mut out = MemorySink::new(alloc, 1000, Vec::new(alloc))?;
    let status = ends(alloc, shelf, &mut out)?;
    let told = status.line(alloc)?;
    let is_told = status.code() == code && told.as_slice() == line.as_bytes();
    let is_unwritten = WRITTEN.iter().all(|name| shelf.file(*name).is_none());
    Ok(is_told && is_unwritten && out.text().is_empty())
}

/// The year and the status line.
type Case = (Year<'static>, &'static str);

fn check(rt: &impl Abort, alloc: Global, cases: &[Case]) -> Result<(), Fail> {
    for (year, line) in cases {
        let mut shelf = shelf_with(alloc, year)?;
        assert!(rt; refuses(alloc, &mut shelf, 8, line)?, "{}", year.edits);
    }
    Ok(())
}

#[test]
fn as_they_are_taken(rt: HostRuntime) -> Result<(), Fail> {
    let cases: [Case; 9] = [
        (
            gap_under("drop,supply,X,,,,,,\n"),
            "sut: edits.csv line 2: no-row\n",
        ),
        (
            gap_under("set,supply,X,,,110,,,\n"),
            "sut: edits.csv line 2: no-row\n",
        ),
        (
            gap_under("drop,import,X,,,,,,\nset,import,X,,,30,,,\n"),
            "sut: edits.csv line 3: no-row\n",
        ),
        (
            gap_under("add,make,X,A,,1,,,\n"),
            "sut: edits.csv line 2: row-there\n",
        ),
        (
            gap_under("add,supply,X,,,110,,,\nadd,supply,X,,,110,,,\n"),
            "sut: edits.csv line 3: row-there\n",
        ),
        // No reviewer was handed in.
        (
            gap_under("dismiss,,far_from,,,,,,\n"),
            "sut: edits.csv line 2: no-reviewer\n",
        ),
        (
            gap_under("dismiss,,,,,,,,\n"),
            "sut: edits.csv line 2: no-reviewer\n",
        ),
        // The rows were balanced before.
        (
            gap_under("balance,,,,,,,,\nset,make,X,A,,108,,,\nbalance,,,,,,,,\ndrop,gdp,,,,,,,\n"),
            "sut: edits.csv line 5: no-row\n",
        ),
        // Two that are refused: the first of them.
        (
            gap_under("add,make,X,A,,1,,,\ndrop,supply,X,,,,,,\n"),
            "sut: edits.csv line 2: row-there\n",
        ),
    ];
    check(&rt, rt.alloc(), &cases)
}

// All lines are read before one is taken: the first would be refused.
#[test]
fn as_they_are_read(rt: HostRuntime) -> Result<(), Fail> {
    let cases: [Case; 6] = [
        (
            gap_under("drop,supply,X,,,,,,\nbalance\n"),
            "sut: edits.csv line 3: csv\n",
        ),
        (
            gap_under("drop,supply,X,,,,,,\nremove,make,X,A,,,,,\n"),
            "sut: edits.csv line 3: unknown-edit\n",
        ),
        (
            gap_under("drop,supply,X,,,,,,\nbalance,,,,,,,,5\n"),
            "sut: edits.csv line 3: not-empty upper\n",
        ),
        (
            gap_under("drop,supply,X,,,,,,\nset,make,X,B,,1,,,\n"),
            "sut: edits.csv line 3: bad-row unknown-code b\n",
        ),
        (
            gap_under("drop,supply,X,,,,,,\nset,make,X,A,,1,,5,4\n"),
            "sut: edits.csv line 3: bad-row crossed\n",
        ),
        (
            gap_under(
                "balance,,,,,,,,\nbalance,,,,,,,,\nbalance,,,,,,,,\nbalance,,,,,,,,\nbalance,,,,,,,,\nbalance,,,,,,,,\nbalance,,,,,,,,\nbalance,,,,,,,,\nbalance,,,,,,,,\nbalance,,,,,,,,\nbalance,,,,,,,,\nbalance,,,,,,,,\nbalance,,,,,,,,\nbalance,,,,,,,,\nbalance,,,,,,,,\nbalance,,,,,,,,\n",
            ),
            "sut: edits.csv line 17: too-many\n",
        ),
    ];
    check(&rt, rt.alloc(), &cases)
}

// The files of the year are read first, and the edits last.
#[test]
fn missing_files(rt: HostRuntime) -> Result<(), Fail> {
    let source = joined(rt.alloc(), SOURCE_HEADER, GAP)?;
    let files = [
        (FileName::SettingsToml, FLAT),
        (FileName::ClassesCsv, FINALS),
        (FileName::SourceCsv, source.as_str()),
    ];
    let lines = [
        "sut: missing settings.toml\n",
        "sut: missing classes.csv\n",
        "sut: missing source.csv\n",
        "sut: missing edits.csv\n",
    ];
    for (count, line) in lines.iter().enumerate() {
        let there = files.get(..count).ok_or("files")?;
        let mut shelf = steady(rt.alloc(), there)?;
        assert!(rt; refuses(rt.alloc(), &mut shelf, 12, line)?, "{line}");
    }
    Ok(())
}

// A fault of the source comes before one of the edits, whose header is its first line.
#[test]
fn faults_of_both(rt: HostRuntime) -> Result<(), Fail> {
    let bad = "kind,a,b,c,target,grade,lower,upper\nmake,X,A,,1000000000001,,,\n";
    let pairs = [
        (bad, "", 7, "sut: source.csv line 2: out-of-range target\n"),
        (SOURCE_HEADER, "", 8, "sut: edits.csv line 1: header\n"),
        (
            SOURCE_HEADER,
            SOURCE_HEADER,
            8,
            "sut: edits.csv line 1: header\n",
        ),
        (
            bad,
            EDITS_HEADER,
            7,
            "sut: source.csv line 2: out-of-range target\n",
        ),
    ];
    for (source, edits, code, line) in pairs {
        let files = [
            (FileName::SettingsToml, FLAT),
            (FileName::ClassesCsv, FINALS),
            (FileName::SourceCsv, source),
            (FileName::EditsCsv, edits),
        ];
        let mut shelf = steady(rt.alloc(), &files)?;
        assert!(rt; refuses(rt.alloc(), &mut shelf, code, line)?, "{line}");
    }
    Ok(())
}

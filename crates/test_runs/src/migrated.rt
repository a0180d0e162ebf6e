//! Classes in format 2.

use crate::years::{FLAT, GAP, SMALL, Year, ends, steady};
use std::alloc::Global;
use std::process::Abort;
use std::test::Fail;
use sut_outside::{FileName, MemoryShelf, MemorySink, SteadyShelf};
use sut_run::Status;

const SMALL_2: &str = "axis,code,kind,group\nproduct,X,plain,\nindustry,A,,\nfinal,F,,\nitem,V,,\n";

// All eight axes, in another order than that of the printed text.
const MIXED: &str = "axis,code,kind,group
tax,VAT,,
item,V,,
final,F,,
product_group,G,,
industry_group,H,,
margin,TR,,
industry,A,,H
product,X,plain,G
product,T,TR,
industry,B,,
";

const MIXED_2: &str = "axis,code,kind,group
margin,TR,,
product_group,G,,
product,X,plain,G
product,T,TR,
industry_group,H,,
industry,A,,H
industry,B,,
final,F,,
item,V,,
tax,VAT,,
";

// A run of `migrate` over these classes alone.
fn migrated(alloc: Global, classes: &str) -> Result<(Status, SteadyShelf, MemorySink), Fail> {
    let mut shelf = SteadyShelf::new(alloc);
    shelf.place(FileName::ClassesCsv, classes.as_bytes())?;
    let mut out = MemorySink::new(alloc, 1000, Vec::new(alloc))?;
    let status = ends(alloc, &["migrate"], &mut shelf, &mut out)?;
    Ok((status, shelf, out))
}

fn passes(alloc: Global, classes: &str, written: &str, printed: &str) -> Result<bool, Fail> {
    let (status, shelf, out) = migrated(alloc, classes)?;
    Ok(
        status == Status::Migrated
            && shelf.file(FileName::Classes2Csv) == Some(written.as_bytes())
            && shelf.file(FileName::ClassesCsv) == Some(classes.as_bytes())
            && out.text() == printed.as_bytes(),
    )
}

#[test]
fn both_formats(rt: HostRuntime) -> Result<(), Fail> {
    for (classes, written, printed) in [
        (SMALL, SMALL_2, "migrated 4\n"),
        (SMALL_2, SMALL_2, "migrated 4\n"),
        (MIXED, MIXED_2, "migrated 10\n"),
        (MIXED_2, MIXED_2, "migrated 10\n"),
    ] {
        assert!(rt; passes(rt.alloc(), classes, written, printed)?);
    }
    Ok(())
}

// The table that `balance` writes under these classes.
fn table_under(alloc: Global, classes: &str) -> Result<SteadyShelf, Fail> {
    let year = Year {
        settings: FLAT,
        classes,
        rows: GAP,
    };
    let mut shelf = steady(alloc, &year)?;
    let mut out = MemorySink::new(alloc, 1000, Vec::new(alloc))?;
    match ends(alloc, &["balance"], &mut shelf, &mut out)? {
        Status::Balanced => Ok(shelf),
        _ => Err("not balanced".into()),
    }
}

#[test]
fn same_table(rt: HostRuntime) -> Result<(), Fail> {
    let before = table_under(rt.alloc(), SMALL)?;
    let after = table_under(rt.alloc(), SMALL_2)?;
    assert!(rt; before.file(FileName::BalancedCsv) == after.file(FileName::BalancedCsv));
    Ok(())
}

fn line_of(alloc: Global, status: Status) -> Result<Vec<u8>, Fail> {
    Ok(status.line(alloc)?)
}

// Classes that are refused: nothing is written or printed, and an older table stays.
#[test]
fn refused(rt: HostRuntime) -> Result<(), Fail> {
    for (classes, code, line) in [
        (
            "axis,code,kind,group\nproduct,X,plain,G\n",
            6,
            "sut: classes.csv line 2: unknown-group\n",
        ),
        ("axis,code\n", 6, "sut: classes.csv: header\n"),
        (
            "axis,code,kind\nproduct,X,plain\nproduct,X,plain\n",
            6,
            "sut: classes.csv line 3: duplicate\n",
        ),
    ] {
        let mut shelf = SteadyShelf::new(rt.alloc());
        shelf.place(FileName::ClassesCsv, classes.as_bytes())?;
        shelf.place(FileName::BalancedCsv, b"old")?;
        let mut out = MemorySink::new(rt.alloc(), 1000, Vec::new(rt.alloc()))?;
        let status = ends(rt.alloc(), &["migrate"], &mut shelf, &mut out)?;
        assert!(rt;
            status.code() == code && line_of(rt.alloc(), status)?.as_slice() == line.as_bytes()
        );
        assert!(rt; shelf.file(FileName::Classes2Csv).is_none() && out.text().is_empty());
        assert!(rt; shelf.file(FileName::BalancedCsv) == Some(b"old".as_slice()));
    }
    Ok(())
}

// A shelf with classes alone, or without them, whose listed calls fail.
fn failing(
    alloc: Global,
    has_classes: bool,
    fail: &[u64],
    keep: usize,
) -> Result<MemoryShelf, Fail> {
    let mut calls = Vec::new(alloc);
    calls.extend_from_slice(fail)?;
    let mut shelf = MemoryShelf::torn(alloc, calls, keep);
    if has_classes {
        shelf.place(FileName::ClassesCsv, SMALL.as_bytes())?;
    }
    Ok(shelf)
}

// How the run ends where a call or a put fails, and how many bytes of the text are left.
#[test]
fn failing_devices(rt: HostRuntime) -> Result<(), Fail> {
    let none: &[u64] = &[];
    for (has_classes, fail, keep, put, status, left) in [
        (true, none, 0, false, Status::Migrated, Some(SMALL_2.len())),
        (
            false,
            none,
            0,
            false,
            Status::Missing(FileName::ClassesCsv),
            None,
        ),
        (
            true,
            &[1, 2],
            0,
            true,
            Status::ReadFault(FileName::ClassesCsv),
            None,
        ),
        (
            true,
            &[2, 3],
            0,
            true,
            Status::WriteFault(FileName::Classes2Csv),
            Some(0),
        ),
        (
            true,
            &[2, 3],
            7,
            true,
            Status::WriteFault(FileName::Classes2Csv),
            Some(7),
        ),
        (true, none, 0, true, Status::SinkFault, Some(SMALL_2.len())),
    ] {
        let mut shelf = failing(rt.alloc(), has_classes, fail, keep)?;
        let mut puts = Vec::new(rt.alloc());
        if put {
            puts.push(1)?;
        }
        let mut out = MemorySink::new(rt.alloc(), 1000, puts)?;
        let ended = ends(rt.alloc(), &["migrate"], &mut shelf, &mut out)?;
        let text = left.and_then(|length| SMALL_2.as_bytes().get(..length));
        assert!(rt; ended == status && shelf.file(FileName::Classes2Csv) == text);
        assert!(rt; out.text().is_empty() == (status != Status::Migrated));
    }
    Ok(())
}

#[test]
fn words(rt: HostRuntime) -> Result<(), Fail> {
    for words in [["migrate", "now"].as_slice(), &["Migrate"], &["migrate "]] {
        let mut shelf = failing(rt.alloc(), true, &[1], 0)?;
        let mut out = MemorySink::new(rt.alloc(), 1000, Vec::new(rt.alloc()))?;
        assert!(rt; ends(rt.alloc(), words, &mut shelf, &mut out)? == Status::Usage);
    }
    Ok(())
}

//! What failing devices leave.

use crate::years::{FLAT, GAP, SMALL, Year, ends, place_year};
use std::alloc::Global;
use std::process::Abort;
use std::test::Fail;
use sut_outside::{FileName, MemoryShelf, MemorySink, Shelf, ShelfError, Sink, SinkError};
use sut_run::Status;

const YEAR: Year<'static> = Year {
    settings: FLAT,
    classes: SMALL,
    rows: GAP,
};

const READ: [FileName; 3] = [
    FileName::SettingsToml,
    FileName::ClassesCsv,
    FileName::SourceCsv,
];

const WRITTEN: [FileName; 6] = [
    FileName::BalancedCsv,
    FileName::SupplyCsv,
    FileName::UseCsv,
    FileName::AccountsCsv,
    FileName::CertificateCsv,
    FileName::ReportJson,
];

// A shelf whose listed calls fail, and of whose failing writes so many bytes are left.
fn torn(alloc: Global, fail: Vec<u64>, keep: usize) -> Result<MemoryShelf, Fail> {
    let mut shelf = MemoryShelf::torn(alloc, fail, keep);
    place_year(alloc, &YEAR, &mut shelf)?;
    Ok(shelf)
}

// The files that are written where nothing fails.
fn whole(alloc: Global) -> Result<MemoryShelf, Fail> {
    let mut shelf = torn(alloc, Vec::new(alloc), 0)?;
    let mut out = MemorySink::new(alloc, 1000, Vec::new(alloc))?;
    match ends(alloc, &["balance"], &mut shelf, &mut out)? {
        Status::Balanced => Ok(shelf),
        _ => Err("not balanced".into()),
    }
}

// Whether the written files before this place are whole, the one there is torn, and those after it are absent.
fn holds(shelf: &MemoryShelf, whole: &MemoryShelf, failed: usize, keep: usize) -> bool {
    WRITTEN.iter().enumerate().all(|(place, name)| {
        let text = whole.file(*name);
        if place < failed {
            shelf.file(*name) == text
        } else if place == failed {
            shelf.file(*name) == text.and_then(|bytes| bytes.get(..keep))
        } else {
            shelf.file(*name).is_none()
        }
    })
}

// The status where the call with this number fails, counted from 1.
fn status_at(call: usize) -> Option<Status> {
    let place = call.checked_sub(1)?;
    if let Some(name) = READ.get(place) {
        return Some(Status::ReadFault(*name));
    }
    let name = WRITTEN.get(place.checked_sub(READ.len())?)?;
    Some(Status::WriteFault(*name))
}

// The call after the failing one and the first put would fail too, and do so only after the run.
fn check_call(
    rt: &impl Abort,
    alloc: Global,
    call: usize,
    keep: usize,
    full: &MemoryShelf,
) -> Result<(), Fail> {
    let number = call as u64;
    let next = number.checked_add(1).ok_or("a call")?;
    let mut shelf = torn(alloc, vec![in alloc; number, next]?, keep)?;
    let mut out = MemorySink::new(alloc, 1000, vec![in alloc; 1]?)?;
    let status = ends(alloc, &["balance"], &mut shelf, &mut out)?;
    assert!(rt; Some(status) == status_at(call), "call {call}");
    let first = call.saturating_sub(READ.len() + 1);
    if call > READ.len() {
        assert!(rt; holds(&shelf, full, first, keep), "call {call}");
    } else {
        assert!(rt;
            WRITTEN.iter().all(|name| shelf.file(*name).is_none()),
            "call {call}"
        );
    }
    assert!(rt; out.text().is_empty());
    assert!(rt;
        shelf.read(FileName::SettingsToml) == Err(ShelfError::Failed),
        "call {call}"
    );
    assert!(rt; out.put(b"x") == Err(SinkError::Failed), "call {call}");
    Ok(())
}

#[test]
fn each_call_on_the_shelf_failing(rt: HostRuntime) -> Result<(), Fail> {
    let full = whole(rt.alloc())?;
    for keep in [0, 7] {
        for call in 1..=9 {
            check_call(&rt, rt.alloc(), call, keep, &full)?;
        }
    }
    Ok(())
}

// All files stand; nothing is printed, or the front of the lines that there is room for.
#[test]
fn failing_put(rt: HostRuntime) -> Result<(), Fail> {
    let full = whole(rt.alloc())?;
    let texts: [&[u8]; 2] = [b"", b"balan"];
    for (fails, text) in [true, false].iter().zip(texts) {
        let mut fail = Vec::new(rt.alloc());
        if *fails {
            fail.push(1)?;
        }
        let mut shelf = torn(rt.alloc(), Vec::new(rt.alloc()), 0)?;
        let mut out = MemorySink::new(rt.alloc(), 5, fail)?;
        let status = ends(rt.alloc(), &["balance"], &mut shelf, &mut out)?;
        assert!(rt; status == Status::SinkFault && status.code() == 13);
        assert!(rt; holds(&shelf, &full, WRITTEN.len(), 0) && out.text() == text);
    }
    Ok(())
}

// Words that are no command: no call on the shelf or the sink.
#[test]
fn no_command(rt: HostRuntime) -> Result<(), Fail> {
    let cases: [&[&str]; 7] = [
        &[],
        &["balance", "now"],
        &["edit", "balance"],
        &["Edit"],
        &["now"],
        &["Balance"],
        &["--help"],
    ];
    for words in cases {
        let mut shelf = torn(rt.alloc(), vec![in rt.alloc(); 1]?, 0)?;
        let mut out = MemorySink::new(rt.alloc(), 1000, vec![in rt.alloc(); 1]?)?;
        let status = ends(rt.alloc(), words, &mut shelf, &mut out)?;
        assert!(rt; status == Status::Usage && out.text().is_empty());
        assert!(rt; shelf.read(FileName::SourceCsv) == Err(ShelfError::Failed));
        assert!(rt; out.put(b"x") == Err(SinkError::Failed));
    }
    Ok(())
}

//! What failing devices leave.

use crate::written::{WRITTEN, ends};
use std::alloc::Global;
use std::process::Abort;
use std::test::Fail;
use sut_check::CheckStatus;
use sut_outside::{FileName, MemoryShelf, MemorySink, Shelf, ShelfError, Sink, SinkError};

// A shelf whose listed calls fail.
fn failing(alloc: Global, fail: Vec<u64>) -> Result<MemoryShelf, Fail> {
    let mut shelf = MemoryShelf::new(alloc, fail);
    for (name, text) in WRITTEN {
        shelf.place(name, text.as_bytes())?;
    }
    Ok(shelf)
}

// The call after the failing one and the first put would fail too, and do so only after the check.
fn check_call(rt: &impl Abort, alloc: Global, call: u64, name: FileName) -> Result<(), Fail> {
    let next = call.checked_add(1).ok_or("a call")?;
    let mut shelf = failing(alloc, vec![in alloc; call, next]?)?;
    let mut out = MemorySink::new(alloc, 1000, vec![in alloc; 1]?)?;
    let status = ends(alloc, &[], &mut shelf, &mut out)?;
    assert!(rt;
        status == CheckStatus::ReadFault(name) && status.code() == 10,
        "call {call}"
    );
    assert!(rt;
        out.text().is_empty() && shelf.read(FileName::SettingsToml) == Err(ShelfError::Failed)
    );
    assert!(rt; out.put(b"x") == Err(SinkError::Failed), "call {call}");
    Ok(())
}

#[test]
fn each_read_failing(rt: HostRuntime) -> Result<(), Fail> {
    let mut call: u64 = 0;
    for (name, _) in WRITTEN {
        call = call.checked_add(1).ok_or("a call")?;
        check_call(&rt, rt.alloc(), call, name)?;
    }
    Ok(())
}

// Nothing is printed, or the front of the lines that there is room for; no file changes, and no later call is made.
#[test]
fn failing_put(rt: HostRuntime) -> Result<(), Fail> {
    let texts: [&[u8]; 2] = [b"", b"least"];
    for (fails, text) in [true, false].iter().zip(texts) {
        let mut fail = Vec::new(rt.alloc());
        if *fails {
            fail.push(1)?;
        }
        let mut shelf = failing(rt.alloc(), vec![in rt.alloc(); 6]?)?;
        let mut out = MemorySink::new(rt.alloc(), 5, fail)?;
        let status = ends(rt.alloc(), &[], &mut shelf, &mut out)?;
        assert!(rt; status == CheckStatus::SinkFault && status.code() == 13);
        assert!(rt; out.text() == text);
        for (name, text) in WRITTEN {
            assert!(rt; shelf.file(name) == Some(text.as_bytes()));
        }
        assert!(rt; shelf.read(FileName::SourceCsv) == Err(ShelfError::Failed));
    }
    Ok(())
}

// Words that are not accepted: no call on the shelf or the sink.
#[test]
fn other_words(rt: HostRuntime) -> Result<(), Fail> {
    let cases: [&[&str]; 5] = [
        &["edited", "now"],
        &["Edited"],
        &["balance"],
        &[""],
        &["--help"],
    ];
    for words in cases {
        let mut shelf = failing(rt.alloc(), vec![in rt.alloc(); 1]?)?;
        let mut out = MemorySink::new(rt.alloc(), 1000, vec![in rt.alloc(); 1]?)?;
        let status = ends(rt.alloc(), words, &mut shelf, &mut out)?;
        assert!(rt; status == CheckStatus::Usage && out.text().is_empty());
        assert!(rt; shelf.read(FileName::SourceCsv) == Err(ShelfError::Failed));
        assert!(rt; out.put(b"x") == Err(SinkError::Failed));
    }
    Ok(())
}

//! Made years.

use crate::years::ends;
use std::alloc::Global;
use std::process::Abort;
use std::test::Fail;
use sut_outside::{FileName, MemorySink, SteadyShelf};
use sut_run::Status;

fn printed(alloc: Global, shelf: &mut SteadyShelf, words: &[&str]) -> Result<MemorySink, Fail> {
    let mut out = MemorySink::new(alloc, 1000, Vec::new(alloc))?;
    match ends(alloc, words, shelf, &mut out)? {
        Status::Generated | Status::Usage => Ok(out),
        _ => Err("neither made nor refused".into()),
    }
}

fn passes(alloc: Global, words: &[&str], want: &str) -> Result<bool, Fail> {
    let mut shelf = SteadyShelf::new(alloc);
    let out = printed(alloc, &mut shelf, words)?;
    let is_written = shelf.file(FileName::MadeSourceCsv).is_some();
    Ok(
        out.text().starts_with(want.as_bytes())
            && is_written != want.is_empty()
            && out.text().is_empty() == want.is_empty(),
    )
}

#[test]
fn sizes(rt: HostRuntime) -> Result<(), Fail> {
    for (words, want) in [
        (
            ["generate", "1", "1", "1"].as_slice(),
            "rows 9\nbalanced\ncost 4682370\n",
        ),
        (
            ["generate", "1", "12", "8"].as_slice(),
            "rows 188\nbalanced\n",
        ),
        (["generate", "1", "0", "1"].as_slice(), ""),
        (["generate", "2147483648", "1", "1"].as_slice(), ""),
        (["generate", "01", "1", "1"].as_slice(), ""),
        (["generate", "-1", "1", "1"].as_slice(), ""),
        (["generate", "1", "1", "4294967297"].as_slice(), ""),
        (["generate", "1", "512", "249"].as_slice(), ""),
        (["generate", "1", "1"].as_slice(), ""),
        (["generate", "1", "1", "1", "1"].as_slice(), ""),
    ] {
        assert!(rt; passes(rt.alloc(), words, want)?);
    }
    Ok(())
}

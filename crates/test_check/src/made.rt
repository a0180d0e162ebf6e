//! Made years: made twice alike, and found least once they are balanced under the names that are read.

use crate::written::ends;
use std::alloc::Global;
use std::test::Fail;
use sut_outside::{FileName, MemoryShelf, MemorySink, Shelf, SteadyShelf};
use sut_run::{Status, run};
use test_years::words_of;

/// The files of a made year, each with the name under which it is read.
const MADE: [(FileName, FileName); 3] = [
    (FileName::MadeSettingsToml, FileName::SettingsToml),
    (FileName::MadeClassesCsv, FileName::ClassesCsv),
    (FileName::MadeSourceCsv, FileName::SourceCsv),
];

/// What the run of these words prints, which makes a year or balances one.
fn printed<F: Shelf>(alloc: Global, words: &[&str], shelf: &mut F) -> Result<MemorySink, Fail> {
    let list = words_of(alloc, words)?;
    let mut out = MemorySink::new(alloc, 1000, Vec::new(alloc))?;
    match run(alloc, &list, shelf, &mut out, Vec::new(alloc)) {
        Status::Generated | Status::Balanced => Ok(out),
        _ => Err("neither made nor balanced".into()),
    }
}

#[test]
fn made_twice_alike(rt: HostRuntime) -> Result<(), Fail> {
    let words = ["generate", "1", "2", "2"];
    let mut first = MemoryShelf::new(rt.alloc(), Vec::new(rt.alloc()));
    let mut second = MemoryShelf::new(rt.alloc(), Vec::new(rt.alloc()));
    let once = printed(rt.alloc(), &words, &mut first)?;
    let again = printed(rt.alloc(), &words, &mut second)?;
    assert!(rt; once.text().starts_with(b"rows 20\nbalanced\ncost "));
    assert!(rt; once.text() == again.text());
    for (name, _) in MADE {
        assert!(rt;
            first.file(name).is_some() && first.file(name) == second.file(name),
            "{}",
            name.text()
        );
    }
    Ok(())
}

/// A shelf with the made files under the names that are read.
fn renamed(alloc: Global, made: &SteadyShelf) -> Result<SteadyShelf, Fail> {
    let mut shelf = SteadyShelf::new(alloc);
    for (from, to) in MADE {
        shelf.place(to, made.file(from).ok_or("no made file")?)?;
    }
    Ok(shelf)
}

/// The line of the cost among printed lines.
fn cost_line(lines: &[u8]) -> Option<&[u8]> {
    lines
        .split(|byte| *byte == b'\n')
        .find(|line| line.starts_with(b"cost "))
}

/// Whether the year that these words make, once it is balanced, is found least, each time at one cost.
fn is_least(alloc: Global, words: &[&str]) -> Result<bool, Fail> {
    let mut made = SteadyShelf::new(alloc);
    let at_making = printed(alloc, words, &mut made)?;
    let mut shelf = renamed(alloc, &made)?;
    let balanced = printed(alloc, &["balance"], &mut shelf)?;
    let mut lines = MemorySink::new(alloc, 1000, Vec::new(alloc))?;
    let checked = ends(alloc, &[], &mut shelf, &mut lines)?;
    let cost = cost_line(lines.text());
    Ok(
        checked.code() == 0
            && lines.text().starts_with(b"least\ncost ")
            && cost_line(at_making.text()) == cost
            && cost_line(balanced.text()) == cost,
    )
}

#[test]
fn made_years_are_least(rt: HostRuntime) -> Result<(), Fail> {
    for words in [
        ["generate", "1", "1", "1"],
        ["generate", "2", "3", "2"],
        ["generate", "7", "4", "5"],
    ] {
        assert!(rt; is_least(rt.alloc(), &words)?, "{} {}", words[2], words[3]);
    }
    Ok(())
}

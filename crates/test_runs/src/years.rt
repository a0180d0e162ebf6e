//! The three files of a year, and runs over them.

use std::alloc::Global;
use std::test::Fail;
use sut_outside::{FileName, MemoryShelf, Shelf, Sink, SteadyShelf};
use sut_run::{Status, run};
use test_years::words_of;
pub(crate) use test_years::{FLAT, SMALL, SOURCE_HEADER, joined};

/// Supply and use that are 4 apart.
pub(crate) const GAP: &str = "make,X,A,,100,,,\nbasic,X,F,,104,,,\nadded,V,A,,,,0,1000\n";

/// The texts of a year; the source without its header.
#[derive(Clone, Copy)]
pub(crate) struct Year<'a> {
    pub settings: &'a str,
    pub classes: &'a str,
    pub rows: &'a str,
}

/// A shelf with the files of the year, which never fails.
pub(crate) fn steady(alloc: Global, year: &Year<'_>) -> Result<SteadyShelf, Fail> {
    let source = joined(alloc, SOURCE_HEADER, year.rows)?;
    let files = [
        (FileName::SettingsToml, year.settings),
        (FileName::ClassesCsv, year.classes),
        (FileName::SourceCsv, source.as_str()),
    ];
    Ok(test_years::steady(alloc, &files)?)
}

/// Puts the files of the year on a shelf.
pub(crate) fn place_year(
    alloc: Global,
    year: &Year<'_>,
    shelf: &mut MemoryShelf,
) -> Result<(), Fail> {
    let source = joined(alloc, SOURCE_HEADER, year.rows)?;
    shelf.place(FileName::SettingsToml, year.settings.as_bytes())?;
    shelf.place(FileName::ClassesCsv, year.classes.as_bytes())?;
    shelf.place(FileName::SourceCsv, source.as_bytes())?;
    Ok(())
}

/// How the run of these words ends.
pub(crate) fn ends<F: Shelf, K: Sink>(
    alloc: Global,
    words: &[&str],
    shelf: &mut F,
    out: &mut K,
) -> Result<Status, Fail> {
    let list = words_of(alloc, words)?;
    Ok(run(alloc, &list, shelf, out, Vec::new(alloc)))
}

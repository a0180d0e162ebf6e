//! Years with edits of them, runs over them, and the check of what the runs wrote.

ghost use Rattle.std.specs.Prelude.{◌≡◌, All};

use std::alloc::Global;
use std::test::Fail;
use sut_check::check_run;
use sut_outside::{FileName, MemorySink, Shelf, Sink, SteadyShelf};
use sut_review::Reviewer;
use sut_run::{Status, run};
use test_years::{FINALS, FLAT, SOURCE_HEADER, joined, steady, words_of};

/// The header of edits.
pub(crate) const EDITS_HEADER: &str = "edit,kind,a,b,c,target,grade,lower,upper\n";

/// One product, made and imported for two final uses. Supply and use are 8 apart: in the one least table each cell with a
/// target moves by 2, at a cost of 16.
pub(crate) const GAP: &str =
    "make,X,A,,80,,,\nimport,X,,,30,,,\nbasic,X,F,,70,,,\nbasic,X,E,,48,,,\nadded,V,A,,,,0,1000\n";

/// The rows are balanced, one target moves by 28, and they are balanced again.
pub(crate) const AGAIN: &str = "balance,,,,,,,,\nset,make,X,A,,108,,,\nbalance,,,,,,,,\n";

/// GDP is held above what may be added, which is at most 1000, and let go again.
pub(crate) const HELD: &str =
    "balance,,,,,,,,\nadd,gdp,,,,,,2000,3000\nbalance,,,,,,,,\ndrop,gdp,,,,,,,\n";

/// The texts of a year and of edits of it; the source and the edits without their headers.
#[derive(Clone, Copy)]
pub(crate) struct Year<'a> {
    pub settings: &'a str,
    pub classes: &'a str,
    pub rows: &'a str,
    pub edits: &'a str,
}

/// The year of that gap under these edits.
pub(crate) fn gap_under(edits: &str) -> Year<'_> {
    Year {
        settings: FLAT,
        classes: FINALS,
        rows: GAP,
        edits,
    }
}

/// A shelf with the files of the year, which never fails.
pub(crate) fn shelf_with(alloc: Global, year: &Year<'_>) -> Result<SteadyShelf, Fail> {
    let source = joined(alloc, SOURCE_HEADER, year.rows)?;
    let edits = joined(alloc, EDITS_HEADER, year.edits)?;
    let files = [
        (FileName::SettingsToml, year.settings),
        (FileName::ClassesCsv, year.classes),
        (FileName::SourceCsv, source.as_str()),
        (FileName::EditsCsv, edits.as_str()),
    ];
    Ok(steady(alloc, &files)?)
}

/// How the run of the edits on this shelf ends before these reviewers.
pub(crate) fn ends_before<F: Shelf, K: Sink>(
    alloc: Global,
    shelf: &mut F,
    out: &mut K,
    reviewers: Vec<Box<dyn Reviewer>>,
) -> Result<Status, Fail>
    requires { All (λ b. marked b ≡ 0) reviewers.items }
{
    match words_of(alloc, &["edit"]) {
        Ok(words) => Ok(run(alloc, &words, shelf, out, reviewers)),
        Err(_) => {
            drop(reviewers);
            Err("words".into())
        }
    }
}

/// How it ends without reviewers.
pub(crate) fn ends<F: Shelf, K: Sink>(
    alloc: Global,
    shelf: &mut F,
    out: &mut K,
) -> Result<Status, Fail> {
    ends_before(alloc, shelf, out, Vec::new(alloc))
}

/// Whether the check of what a run of edits has written ends with this number, and prints these lines.
pub(crate) fn is_accepted(
    alloc: Global,
    shelf: &mut SteadyShelf,
    code: u8,
    lines: &str,
) -> Result<bool, Fail> {
    let words = words_of(alloc, &["edited"])?;
    let mut out = MemorySink::new(alloc, 1000, Vec::new(alloc))?;
    let status = check_run(alloc, &words, shelf, &mut out);
    Ok(status.code() == code && out.text() == lines.as_bytes())
}

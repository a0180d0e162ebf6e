//! Files that stand written, and checks over them.

use std::alloc::Global;
use std::process::Abort;
use std::test::Fail;
use sut_check::{CheckStatus, check_run};
use sut_outside::{FileName, MemorySink, Shelf, Sink, SteadyShelf};
use test_years::{FLAT, SMALL, steady, words_of};

/// Supply and use that are 4 apart.
pub(crate) const GAP: &str =
    "kind,a,b,c,target,grade,lower,upper\nmake,X,A,,100,,,\nbasic,X,F,,104,,,\nadded,V,A,,,,0,1000\n";

/// Potentials that show the table below: the make stands at slopes 3 down and 5 up, the basic at -5 and -3.
pub(crate) const POTENTIALS: &str =
    "account,a,b,potential\nsupplied,X,,4\nused,X,,4\nbought,X,F,0\nadding,A,,0\nindustry,A,,0\nmaking,A,,0\nfinal,F,,0\nitem,V,,0\nspending,,,0\nincome,,,0\n";

pub(crate) const TABLE: &str =
    "kind,a,b,c,target,value\nmake,X,A,,100,102\nbasic,X,F,,104,102\nadded,V,A,,,102\npurchase,X,F,,,102\nsupply,X,,,,102\noutput,A,,,,102\nvalue_added,A,,,,102\nitem_total,V,,,,102\nfinal_total,F,,,,102\ngdp,,,,,102\n";

/// The files of that year, in the order of reading.
pub(crate) const WRITTEN: [(FileName, &'static str); 5] = [
    (FileName::SettingsToml, FLAT),
    (FileName::ClassesCsv, SMALL),
    (FileName::SourceCsv, GAP),
    (FileName::CertificateCsv, POTENTIALS),
    (FileName::BalancedCsv, TABLE),
];

/// The text with this part replaced.
pub(crate) fn replaced(alloc: Global, text: &str, old: &str, new: &str) -> Result<String, Fail> {
    let (head, tail) = text.split_once(old).ok_or("no such part")?;
    let mut other = String::from_str(alloc, head)?;
    other.push_str(new)?;
    other.push_str(tail)?;
    Ok(other)
}

/// How the check with these words ends.
pub(crate) fn ends<F: Shelf, K: Sink>(
    alloc: Global,
    words: &[&str],
    shelf: &mut F,
    out: &mut K,
) -> Result<CheckStatus, Fail> {
    let list = words_of(alloc, words)?;
    Ok(check_run(alloc, &list, shelf, out))
}

/// Whether the check with these words ends with this status line and these printed lines.
pub(crate) fn says(
    alloc: Global,
    words: &[&str],
    shelf: &mut SteadyShelf,
    line: &str,
    printed: &str,
) -> Result<bool, Fail> {
    let mut out = MemorySink::new(alloc, 1000, Vec::new(alloc))?;
    let status = ends(alloc, words, shelf, &mut out)?;
    let told = status.line(alloc)?;
    Ok(told.as_slice() == line.as_bytes() && out.text() == printed.as_bytes())
}

/// A part of a written file, what stands in its place, and the status line of the check.
pub(crate) type Change = (FileName, &'static str, &'static str, &'static str);

/// Each change alone: the check has this status line, and prints nothing.
pub(crate) fn check_changes(
    rt: &impl Abort,
    alloc: Global,
    files: &[(FileName, &str)],
    changes: &[Change],
) -> Result<(), Fail> {
    for (name, old, new, line) in changes {
        let mut shelf = steady(alloc, files)?;
        let text = files
            .iter()
            .find(|file| file.0 == *name)
            .ok_or("no such file")?
            .1;
        let other = replaced(alloc, text, old, new)?;
        shelf.place(*name, other.as_bytes())?;
        assert!(rt; says(alloc, &[], &mut shelf, line, "")?, "{line}");
    }
    Ok(())
}

//! Runs of edits on a shelf that fails.

use crate::years::ends;
use std::alloc::Global;
use std::test::Fail;
use sut_outside::{FileName, MemoryShelf, MemorySink};
use test_years::{FLAT, SMALL};

/// The files that are read, in order.
const FILES: [(FileName, &'static str); 4] = [
    (FileName::SettingsToml, FLAT),
    (FileName::ClassesCsv, SMALL),
    (
        FileName::SourceCsv,
        "kind,a,b,c,target,grade,lower,upper\nmake,X,A,,100,,,\nbasic,X,F,,104,,,\nadded,V,A,,,,0,1000\n",
    ),
    (
        FileName::EditsCsv,
        "edit,kind,a,b,c,target,grade,lower,upper\nbalance,,,,,,,,\nset,make,X,A,,102,,,\n",
    ),
];

/// The files that are written, in order.
const WRITTEN: [FileName; 8] = [
    FileName::EditedCsv,
    FileName::TrailCsv,
    FileName::BalancedCsv,
    FileName::SupplyCsv,
    FileName::UseCsv,
    FileName::AccountsCsv,
    FileName::CertificateCsv,
    FileName::ReportJson,
];

/// The status line where a call on the shelf fails: a read for each file that is read, and then a write for each other one.
const LINES: [&'static str; 12] = [
    "sut: cannot read settings.toml\n",
    "sut: cannot read classes.csv\n",
    "sut: cannot read source.csv\n",
    "sut: cannot read edits.csv\n",
    "sut: cannot write edited.csv\n",
    "sut: cannot write trail.csv\n",
    "sut: cannot write balanced.csv\n",
    "sut: cannot write supply.csv\n",
    "sut: cannot write use.csv\n",
    "sut: cannot write accounts.csv\n",
    "sut: cannot write certificate.csv\n",
    "sut: cannot write report.json\n",
];

// A shelf whose listed calls fail.
fn failing(alloc: Global, fail: Vec<u64>) -> Result<MemoryShelf, Fail> {
    let mut shelf = MemoryShelf::new(alloc, fail);
    for (name, text) in FILES {
        shelf.place(name, text.as_bytes())?;
    }
    Ok(shelf)
}

// Whether so many files were written, in order, and no more.
fn has_written(shelf: &MemoryShelf, count: usize) -> bool {
    WRITTEN.iter().enumerate().all(|(place, name)| shelf.file(*name).is_some() == (place < count))
}

// Whether the run ends with this line where the call fails that comes after so many, and nothing is printed.
fn stops(alloc: Global, calls: usize, line: &str) -> Result<bool, Fail> {
    let number = (calls as u64).checked_add(1).ok_or("a call")?;
    let mut shelf = failing(alloc, vec![in alloc; number]?)?;
    let mut out = MemorySink::new(alloc, 1000, Vec::new(alloc))?;
    let status = ends(alloc, &mut shelf, &mut out)?;
    let told = status.line(alloc)?;
    let is_told = told.as_slice() == line.as_bytes() && out.text().is_empty();
    Ok(is_told && has_written(&shelf, calls.saturating_sub(FILES.len())))
}

#[test]
fn each_call_on_the_shelf_failing(rt: HostRuntime) -> Result<(), Fail> {
    for (calls, line) in LINES.iter().enumerate() {
        assert!(rt; stops(rt.alloc(), calls, line)?, "{line}");
    }
    Ok(())
}

// All files stand.
#[test]
fn failing_put(rt: HostRuntime) -> Result<(), Fail> {
    let mut shelf = failing(rt.alloc(), Vec::new(rt.alloc()))?;
    let mut out = MemorySink::new(rt.alloc(), 1000, vec![in rt.alloc(); 1]?)?;
    let status = ends(rt.alloc(), &mut shelf, &mut out)?;
    assert!(rt; status.code() == 13 && out.text().is_empty());
    assert!(rt; has_written(&shelf, WRITTEN.len()));
    Ok(())
}

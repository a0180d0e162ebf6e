//! The program `sutcheck`.

use std::alloc::Global;
use std::io;
use std::io::ErrorKind;
use std::process::ExitCode;
use std::test::Fail;
use sut_check_program::check_program;
use sut_console::VERSION;
use sut_outside::{FileName, MemorySink, SteadyShelf};
use sut_program::balance_program;
use test_years::{FLAT, SMALL, steady, words_of};

/// A number, and both outputs.
struct Ended {
    code: ExitCode,
    out: MemorySink,
    err: MemorySink,
}

impl Drop for Ended {
    fn drop(self) {
        let Ended { code: _, out, err } = self;
        drop(out);
        drop(err);
    }
}

// The program with these arguments.
fn program(alloc: Global, args: &[&str], shelf: &mut SteadyShelf) -> Result<Ended, Fail> {
    let args = words_of(alloc, args)?.into_iter();
    let mut out = MemorySink::new(alloc, 1000, Vec::new(alloc))?;
    let mut err = MemorySink::new(alloc, 10_000, Vec::new(alloc))?;
    let code = check_program(alloc, Ok(args), shelf, &mut out, &mut err);
    Ok(Ended { code, out, err })
}

const SOURCE: &str =
    "kind,a,b,c,target,grade,lower,upper\nmake,X,A,,100,,,\nbasic,X,F,,104,,,\nadded,V,A,,,,0,1000\n";

// A year that `sut` has balanced under no edits, without the source: its rows stand in `edited.csv` alone.
fn edited_year(alloc: Global) -> Result<SteadyShelf, Fail> {
    let mut shelf = steady(
        alloc,
        &[
            (FileName::SettingsToml, FLAT),
            (FileName::ClassesCsv, SMALL),
            (FileName::SourceCsv, SOURCE),
            (
                FileName::EditsCsv,
                "edit,kind,a,b,c,target,grade,lower,upper\nbalance,,,,,,,,\n",
            ),
        ],
    )?;
    let mut out = MemorySink::new(alloc, 1000, Vec::new(alloc))?;
    let mut err = MemorySink::new(alloc, 1000, Vec::new(alloc))?;
    let args = words_of(alloc, &["sut", "edit"])?.into_iter();
    balance_program(alloc, Ok(args), &mut shelf, &mut out, &mut err);
    shelf.place(FileName::SourceCsv, b"no header\n")?;
    Ok(shelf)
}

/// The words behind the name, the number, and both outputs.
type Case = (&'static [&'static str], u8, &'static str, &'static str);

const CASES: [Case; 2] = [
    (
        &["sutcheck"],
        7,
        "",
        "sutcheck: source.csv line 1: header\n",
    ),
    (&["sutcheck", "edited"], 0, "least\ncost 8\n", ""),
];

#[test]
fn all_words_are_passed(rt: HostRuntime) -> Result<(), Fail> {
    let mut shelf = edited_year(rt.alloc())?;
    for (args, code, out, err) in CASES {
        let ended = program(rt.alloc(), args, &mut shelf)?;
        assert_eq!(rt; ended.code, ExitCode::from(code), "{args:?}");
        assert_eq!(rt; ended.out.text(), out.as_bytes(), "{args:?}");
        assert_eq!(rt; ended.err.text(), err.as_bytes(), "{args:?}");
    }
    Ok(())
}

const OTHER_WORDS: [&[&str]; 5] = [
    &["sutcheck", "source"],
    &["sutcheck", ""],
    &["sutcheck", "edited", "edited"],
    &["sutcheck", "balance", "edited"],
    &["sutcheck", "help"],
];

#[test]
fn other_words(rt: HostRuntime) -> Result<(), Fail> {
    let head = format!(in rt.alloc();
        "sutcheck: usage: no word, or edited\nsutcheck {VERSION}: checks "
    )?;
    for args in OTHER_WORDS {
        let mut shelf = SteadyShelf::new(rt.alloc());
        let ended = program(rt.alloc(), args, &mut shelf)?;
        assert_eq!(rt; ended.code, ExitCode::from(2), "{args:?}");
        assert!(rt; ended.out.text().is_empty());
        assert!(rt; ended.err.text().starts_with(head.as_bytes()));
    }
    Ok(())
}

#[test]
fn help_names_the_word(rt: HostRuntime) -> Result<(), Fail> {
    let mut shelf = SteadyShelf::new(rt.alloc());
    let usage = program(rt.alloc(), &["sutcheck", "help"], &mut shelf)?;
    let help = str::from_utf8(usage.err.text()).unwrap_or("");
    assert!(rt; help.contains("\nUsage: sutcheck [edited]\n"));
    assert!(rt; help.contains("\n  edited  "));
    for code in [0, 1, 2, 3, 4, 5, 6, 7, 8, 9, 10, 12, 13, 14] {
        let line = format!(in rt.alloc(); "\n  {code:>2}  ")?;
        assert!(rt; help.contains(line.as_str()), "{code}");
    }
    Ok(())
}

#[test]
fn arguments_that_cannot_be_had(rt: HostRuntime) -> Result<(), Fail> {
    let alloc = rt.alloc();
    for (kind, code, line) in [
        (ErrorKind::OutOfMemory, 1, "sutcheck: out of memory\n"),
        (
            ErrorKind::InvalidData,
            2,
            "sutcheck: usage: no word, or edited\n",
        ),
    ] {
        let mut shelf = SteadyShelf::new(alloc);
        let mut out = MemorySink::new(alloc, 0, Vec::new(alloc))?;
        // the device takes no more than the line
        let mut err = MemorySink::new(alloc, line.len(), Vec::new(alloc))?;
        let fault = Err(io::Error::from(kind));
        let ended = check_program(alloc, fault, &mut shelf, &mut out, &mut err);
        assert_eq!(rt; ended, ExitCode::from(code));
        assert_eq!(rt; err.text(), line.as_bytes());
    }
    Ok(())
}

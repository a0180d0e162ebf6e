//! The program `sut`.

use std::alloc::Global;
use std::io;
use std::io::ErrorKind;
use std::process::ExitCode;
use std::test::Fail;
use sut_console::VERSION;
use sut_outside::{FileName, MemorySink, SteadyShelf};
use sut_program::balance_program;
use test_years::{FLAT, SMALL, SOURCE_HEADER, joined, steady, words_of};

/// A number, and both outputs.
struct Ended {
    code: ExitCode,
    out: MemorySink,
    err: MemorySink,
}

impl Drop for Ended {
    fn drop(self) {
        let Ended { code: _, out, err } = self;
        drop(out);
        drop(err);
    }
}

impl Ended {
    fn is(&self, code: u8, out: &str, err: &str) -> bool {
        self.code == ExitCode::from(code)
            && self.out.text() == out.as_bytes()
            && self.err.text() == err.as_bytes()
    }
}

// The program with these arguments, where standard output takes `room` bytes.
fn program(
    alloc: Global,
    args: &[&str],
    shelf: &mut SteadyShelf,
    room: usize,
) -> Result<Ended, Fail> {
    let args = words_of(alloc, args)?.into_iter();
    let mut out = MemorySink::new(alloc, room, Vec::new(alloc))?;
    let mut err = MemorySink::new(alloc, 10_000, Vec::new(alloc))?;
    let code = balance_program(alloc, Ok(args), shelf, &mut out, &mut err);
    Ok(Ended { code, out, err })
}

/// Supply and use that are 4 apart.
const GAP: &str = "make,X,A,,100,,,\nbasic,X,F,,104,,,\nadded,V,A,,,,0,1000\n";

/// More is made than may be used.
const CROSSED: &str = "make,X,A,,,,95,95\nbasic,X,F,,,,0,90\nadded,V,A,,,,0,1000\n";

const NO_AXIS: &str = "axis,code,kind\nthing,X,\n";

/// The word, classes, rows, the room of standard output, the number, and both outputs.
type Case = (
    &'static str,
    &'static str,
    &'static str,
    usize,
    u8,
    &'static str,
    &'static str,
);

const CASES: [Case; 6] = [
    (
        "balance",
        SMALL,
        GAP,
        1000,
        0,
        "balanced\ncost 8\ngdp 102 102 102\n",
        "",
    ),
    (
        "balance",
        SMALL,
        CROSSED,
        1000,
        3,
        "infeasible\nentering 95\nleaving 90\n",
        "",
    ),
    ("migrate", SMALL, GAP, 1000, 0, "migrated 4\n", ""),
    ("balance", SMALL, GAP, 5, 13, "balan", "sut: cannot print\n"),
    (
        "balance",
        NO_AXIS,
        GAP,
        1000,
        6,
        "",
        "sut: classes.csv line 2: unknown-axis\n",
    ),
    ("edit", SMALL, GAP, 1000, 12, "", "sut: missing edits.csv\n"),
];

#[test]
fn answers_and_faults(rt: HostRuntime) -> Result<(), Fail> {
    for (word, classes, rows, room, code, out, err) in CASES {
        let source = joined(rt.alloc(), SOURCE_HEADER, rows)?;
        let mut shelf = steady(
            rt.alloc(),
            &[
                (FileName::SettingsToml, FLAT),
                (FileName::ClassesCsv, classes),
                (FileName::SourceCsv, source.as_str()),
            ],
        )?;
        let ended = program(rt.alloc(), &["sut", word], &mut shelf, room)?;
        assert!(rt; ended.is(code, out, err), "{word}, {code}");
    }
    Ok(())
}

const OTHER_WORDS: [&[&str]; 8] = [
    &[],
    &["sut"],
    &["sut", "Balance"],
    &["sut", "balance", "balance"],
    &["sut", "edit", ""],
    &["sut", "generate", "1", "1"],
    &["sut", "generate", "1", "1", "01"],
    &["sut", "--version"],
];

#[test]
fn other_words(rt: HostRuntime) -> Result<(), Fail> {
    let head = format!(in rt.alloc(); "sut: usage: a command of sut\nsut {VERSION}: balances ")?;
    for args in OTHER_WORDS {
        let mut shelf = SteadyShelf::new(rt.alloc());
        let ended = program(rt.alloc(), args, &mut shelf, 1000)?;
        assert_eq!(rt; ended.code, ExitCode::from(2), "{args:?}");
        assert!(rt; ended.out.text().is_empty());
        assert!(rt; ended.err.text().starts_with(head.as_bytes()));
    }
    Ok(())
}

/// What the help text has of a command, and its words.
const COMMANDS: [(&str, &[&str]); 4] = [
    ("\n  balance\n", &["sut", "balance"]),
    ("\n  edit\n", &["sut", "edit"]),
    (
        "\n  generate SEED PRODUCTS INDUSTRIES\n",
        &["sut", "generate", "1", "1", "1"],
    ),
    ("\n  migrate\n", &["sut", "migrate"]),
];

#[test]
fn help_names_the_commands(rt: HostRuntime) -> Result<(), Fail> {
    let mut none = SteadyShelf::new(rt.alloc());
    let usage = program(rt.alloc(), &["sut", "help"], &mut none, 1000)?;
    let help = str::from_utf8(usage.err.text()).unwrap_or("");
    for (line, args) in COMMANDS {
        assert!(rt; help.contains(line), "{line}");
        let mut shelf = SteadyShelf::new(rt.alloc());
        let ended = program(rt.alloc(), args, &mut shelf, 1000)?;
        assert_ne!(rt; ended.code, ExitCode::from(2), "{line}");
    }
    for code in [0, 1, 2, 3, 5, 6, 7, 8, 10, 11, 12, 13, 14] {
        let line = format!(in rt.alloc(); "\n  {code:>2}  ")?;
        assert!(rt; help.contains(line.as_str()), "{code}");
    }
    Ok(())
}

#[test]
fn arguments_that_cannot_be_had(rt: HostRuntime) -> Result<(), Fail> {
    let alloc = rt.alloc();
    for (kind, code, line) in [
        (ErrorKind::OutOfMemory, 1, "sut: out of memory\n"),
        (ErrorKind::InvalidData, 2, "sut: usage: a command of sut\n"),
    ] {
        let mut shelf = SteadyShelf::new(alloc);
        let mut out = MemorySink::new(alloc, 0, Vec::new(alloc))?;
        // the device takes no more than the line
        let mut err = MemorySink::new(alloc, line.len(), Vec::new(alloc))?;
        let fault = Err(io::Error::from(kind));
        let ended = balance_program(alloc, fault, &mut shelf, &mut out, &mut err);
        assert_eq!(rt; ended, ExitCode::from(code));
        assert_eq!(rt; err.text(), line.as_bytes());
    }
    Ok(())
}

//! Files of dismissals.

use std::alloc::Global;
use std::test::Fail;
use sut_dismissals::{DismissCause, DismissFault, DismissLine, read_dismiss};

// What a file gives in a series of two years.
fn dismissals_in(alloc: Global, text: &str) -> Result<Vec<DismissLine>, DismissFault> {
    read_dismiss(alloc, 2, text.as_bytes())
}

// The first fault of a file, if it has one.
fn fault_in(alloc: Global, text: &str) -> Option<DismissFault> {
    match dismissals_in(alloc, text) {
        Ok(_) => None,
        Err(fault) => Some(fault),
    }
}

/// Line, year and label.
type Said = (u64, u8, &'static str);

fn says(line: &DismissLine, want: Said) -> bool {
    line.line == want.0 && line.year == want.1 && line.label.bytes() == want.2.as_bytes()
}

fn are_wanted(lines: &[DismissLine], want: &[Said]) -> bool {
    lines.len() == want.len() && lines.iter().zip(want).all(|(line, said)| says(line, *said))
}

fn reads(alloc: Global, text: &str, want: &[Said]) -> bool {
    match dismissals_in(alloc, text) {
        Ok(lines) => are_wanted(&lines, want),
        Err(_) => false,
    }
}

const READ: [(&str, &[Said]); 4] = [
    ("year,label\n", &[]),
    ("year,label\n1,far_from\n", &[(2, 1, "far_from")]),
    ("year,label\n2,\n", &[(2, 2, "")]),
    (
        "year,label\n1,\"a,b\"\n1,x\n2,x\n",
        &[(2, 1, "a,b"), (3, 1, "x"), (4, 2, "x")],
    ),
];

#[test]
fn right_dismissals(rt: HostRuntime) {
    for (text, want) in READ {
        assert!(rt; reads(rt.alloc(), text, want), "{text}");
    }
}

/// A file, the line of its first fault, and the fault.
type Case = (&'static str, u64, DismissCause);

const CASES: [Case; 13] = [
    ("", 1, DismissCause::Header),
    ("label,year\n", 1, DismissCause::Header),
    ("year,label,\n", 1, DismissCause::Header),
    ("year,label\n1\n", 2, DismissCause::Csv),
    ("year,label\n1,x,\n", 2, DismissCause::Csv),
    ("year,label\n0,x\n", 2, DismissCause::WrongYear),
    ("year,label\nx,x\n", 2, DismissCause::WrongYear),
    ("year,label\n01,x\n", 2, DismissCause::WrongYear),
    ("year,label\n,x\n", 2, DismissCause::WrongYear),
    ("year,label\n10,x\n", 2, DismissCause::WrongYear),
    ("year,label\n3,x\n", 2, DismissCause::WrongYear),
    ("year,label\n-1,x\n", 2, DismissCause::WrongYear),
    ("year,label\n2,x\n1,x\n", 3, DismissCause::WrongYear),
];

#[test]
fn faults(rt: HostRuntime) {
    for (text, line, cause) in CASES {
        let fault = DismissFault { line, cause };
        assert!(rt; fault_in(rt.alloc(), text) == Some(fault), "{text}");
    }
}

/// The line after 64 dismissals, and its fault, if it has one.
type Last = (&'static str, Option<DismissCause>);

const LAST: [Last; 4] = [
    ("", None),
    ("2,x\n", Some(DismissCause::TooMany)),
    ("0,x\n", Some(DismissCause::WrongYear)),
    ("2\n", Some(DismissCause::Csv)),
];

#[test]
fn after_64_dismissals(rt: HostRuntime) -> Result<(), Fail> {
    for (last, cause) in LAST {
        let mut text = String::from_str(rt.alloc(), "year,label\n")?;
        for _ in 0..64u32 {
            text.push_str("2,x\n")?;
        }
        text.push_str(last)?;
        let want = cause.map(|cause| DismissFault { line: 66, cause });
        assert!(rt; fault_in(rt.alloc(), &text) == want, "{last}");
    }
    Ok(())
}

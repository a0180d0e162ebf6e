//! Files of edits with a fault.

use crate::edit_files::{edits_in, under_header};
use std::alloc::Global;
use std::test::Fail;
use sut_edits::{EditsCause, EditsFault};
use sut_measures::Field;
use sut_source::RowFault;

// The first fault of a file, if it has one.
fn fault_in(alloc: Global, text: &str) -> Option<EditsFault> {
    match edits_in(alloc, text) {
        Some(Err(fault)) => Some(fault),
        Some(Ok(_)) | None => None,
    }
}

/// The line after one that is right, and the first fault of it.
type Case = (&'static str, EditsCause);

const CASES: [Case; 20] = [
    ("balance,,,,,,,\n", EditsCause::Csv),
    ("balance,,,,,,,,,\n", EditsCause::Csv),
    ("Set,make,X,A,,1,,,\n", EditsCause::UnknownEdit),
    (",,,,,,,,\n", EditsCause::UnknownEdit),
    (
        "set,mak,X,A,,1,,,\n",
        EditsCause::BadRow(RowFault::UnknownKind),
    ),
    (
        "add,make,X,B,,1,,,\n",
        EditsCause::BadRow(RowFault::UnknownCode(Field::B)),
    ),
    (
        "set,make,X,A,A,1,,,\n",
        EditsCause::BadRow(RowFault::NotEmpty(Field::C)),
    ),
    (
        "set,make,X,A,,1000000000001,,,\n",
        EditsCause::BadRow(RowFault::OutOfRange(Field::Target)),
    ),
    (
        "add,make,X,A,,1,Z,,\n",
        EditsCause::BadRow(RowFault::UnknownGrade),
    ),
    (
        "add,make,X,A,,,,,\n",
        EditsCause::BadRow(RowFault::NoTarget),
    ),
    (
        "set,make,X,A,,1,,5,4\n",
        EditsCause::BadRow(RowFault::Crossed),
    ),
    (
        "drop,make,X,F,,,,,\n",
        EditsCause::BadRow(RowFault::UnknownCode(Field::B)),
    ),
    (
        "drop,make,X,A,,1,,0,\n",
        EditsCause::NotEmpty(Field::Target),
    ),
    ("drop,make,X,A,,,,,5\n", EditsCause::NotEmpty(Field::Upper)),
    ("balance,make,X,,,,,,\n", EditsCause::NotEmpty(Field::Kind)),
    ("balance,,,,,,W,,\n", EditsCause::NotEmpty(Field::Grade)),
    (
        "dismiss,make,far_from,,,,,,\n",
        EditsCause::NotEmpty(Field::Kind),
    ),
    ("dismiss,,far_from,X,,,,,\n", EditsCause::NotEmpty(Field::B)),
    ("dismiss,,,,,,,7,\n", EditsCause::NotEmpty(Field::Lower)),
    (" balance,,,,,,,,\n", EditsCause::UnknownEdit),
];

#[test]
fn lines(rt: HostRuntime) -> Result<(), Fail> {
    for (line, cause) in CASES {
        let mut text = under_header(rt.alloc(), "balance,,,,,,,,\n")?;
        text.push_str(line)?;
        let fault = EditsFault { line: 3, cause };
        assert!(rt; fault_in(rt.alloc(), &text) == Some(fault), "{line}");
    }
    Ok(())
}

#[test]
fn headers(rt: HostRuntime) {
    let fault = EditsFault {
        line: 1,
        cause: EditsCause::Header,
    };
    let other = "edit,kind,a,b,c,target,grade,lower\nbalance,,,,,,,,\n";
    assert!(rt; fault_in(rt.alloc(), other) == Some(fault));
    assert!(rt; fault_in(rt.alloc(), "") == Some(fault));
}

// A file of so many lines.
fn repeated(alloc: Global, line: &str, times: u32) -> Result<String, Fail> {
    let mut text = under_header(alloc, "")?;
    for _ in 0..times {
        text.push_str(line)?;
    }
    Ok(text)
}

#[test]
fn too_many_edits(rt: HostRuntime) -> Result<(), Fail> {
    let drops = repeated(rt.alloc(), "drop,make,X,A,,,,,\n", 4096)?;
    assert!(rt; fault_in(rt.alloc(), &drops) == None);
    let drops = repeated(rt.alloc(), "drop,make,X,A,,,,,\n", 4097)?;
    let fault = EditsFault {
        line: 4098,
        cause: EditsCause::TooMany,
    };
    assert!(rt; fault_in(rt.alloc(), &drops) == Some(fault));
    Ok(())
}

#[test]
fn too_many_rebalances(rt: HostRuntime) -> Result<(), Fail> {
    let balances = repeated(rt.alloc(), "balance,,,,,,,,\n", 15)?;
    assert!(rt; fault_in(rt.alloc(), &balances) == None);
    let balances = repeated(rt.alloc(), "balance,,,,,,,,\n", 16)?;
    let fault = EditsFault {
        line: 17,
        cause: EditsCause::TooMany,
    };
    assert!(rt; fault_in(rt.alloc(), &balances) == Some(fault));
    Ok(())
}

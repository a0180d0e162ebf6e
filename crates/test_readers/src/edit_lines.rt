//! The edits that right lines say.

use crate::edit_files::{edits_in, under_header};
use std::alloc::Global;
use std::test::Fail;
use sut_classes::{Column, FinalId, IndustryId, ItemId, ProductId};
use sut_edits::{Edit, EditLine};
use sut_measures::{Cell, Measure, Total};
use sut_tables::{Penalty, Row};

const MAKE: Measure = Measure::Cell(Cell::Make(ProductId(0), IndustryId(0)));

const ADDED: Measure = Measure::Cell(Cell::Added(ItemId(0), IndustryId(0)));

const PURCHASE: Measure = Measure::Total(Total::Purchase(ProductId(0), Column::Final(FinalId(0))));

/// What an edit says.
#[derive(Debug, Clone, Copy, PartialEq, Eq)]
enum Said {
    Set(Measure, Numbers),
    Add(Measure, Numbers),
    Drop(Measure),
    Balance,
    Dismiss(usize),
}

/// Target, penalty, grade, weight and bounds of a row.
#[derive(Debug, Clone, Copy, PartialEq, Eq)]
struct Numbers {
    target: Option<i64>,
    penalty: Penalty,
    grade: u8,
    weight: u32,
    lower: i64,
    upper: i64,
}

fn numbers_of(row: &Row) -> Numbers {
    Numbers {
        target: row.target(),
        penalty: row.penalty(),
        grade: row.grade(),
        weight: row.weight(),
        lower: row.lower(),
        upper: row.upper(),
    }
}

fn said_by(edit: &Edit) -> Said {
    match edit {
        Edit::Set(row) => Said::Set(row.measure(), numbers_of(row)),
        Edit::Add(row) => Said::Add(row.measure(), numbers_of(row)),
        Edit::Drop(measure) => Said::Drop(*measure),
        Edit::Balance => Said::Balance,
        Edit::Dismiss(label) => Said::Dismiss(label.bytes().len()),
    }
}

const LINES: &str =
    "set,make,X,A,,108,W:band:2,,\nadd,added,V,A,,,,-5,1000\ndrop,purchase,X,F,,,,,\nbalance,,,,,,,,\ndismiss,,far_from,,,,,,\ndismiss,,,,,,,,\n";

const WANT: [Said; 6] = [
    Said::Set(
        MAKE,
        Numbers {
            target: Some(108),
            penalty: Penalty::Band(2),
            grade: 1,
            weight: 3,
            lower: 0,
            upper: 1_000_000_000_000,
        },
    ),
    Said::Add(
        ADDED,
        Numbers {
            target: None,
            penalty: Penalty::Square,
            grade: 0,
            weight: 0,
            lower: -5,
            upper: 1000,
        },
    ),
    Said::Drop(PURCHASE),
    Said::Balance,
    Said::Dismiss(8),
    Said::Dismiss(0),
];

// Whether these are the wanted edits, the first of them at line 2.
fn are_wanted(edits: &[EditLine]) -> bool {
    let lines = edits.iter().map(|line| line.line).eq(2..8);
    let words = edits.iter().map(|line| said_by(&line.edit)).eq(WANT);
    lines && words
}

fn reads(alloc: Global, text: &str) -> bool {
    match edits_in(alloc, text) {
        Some(Ok(edits)) => are_wanted(&edits),
        Some(Err(_)) | None => false,
    }
}

#[test]
fn right_lines(rt: HostRuntime) -> Result<(), Fail> {
    let text = under_header(rt.alloc(), LINES)?;
    assert!(rt; reads(rt.alloc(), &text));
    Ok(())
}

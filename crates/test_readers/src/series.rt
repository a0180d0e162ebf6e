//! The files of a series of two years.

use std::alloc::Global;
use std::test::Fail;
use sut_classes::{IndustryId, ProductId};
use sut_dismissals::{DismissCause, DismissFault, DismissLine};
use sut_input::{InputFault, SeriesInput, SeriesInputFault, read_series_input};
use sut_measures::{Cell, Field, Measure};
use sut_outside::{FileName, SteadyShelf};
use sut_settings::grade_text;
use sut_source::{RowFault, SourceFault};
use sut_tables::Problem;
use test_years::{SMALL, steady};

const SETTINGS: &str = "scheme = \"flat\"\n[grades]\nG = 7\n";

const FIRST: &str = "kind,a,b,c,target,grade,lower,upper\nmake,X,A,,100,G,,\nbasic,X,F,,104,G,,\n";

const SECOND: &str = "kind,a,b,c,target,grade,lower,upper\nmake,X,A,,120,G,,\nbasic,X,F,,121,G,,\n";

// The target of the second row is above 10^12.
const TOO_LARGE: &str =
    "kind,a,b,c,target,grade,lower,upper\nmake,X,A,,120,G,,\nbasic,X,F,,1000000000001,G,,\n";

const DISMISSALS: &str = "year,label\n1,x\n2,y\n";

// The series has no year 3.
const NO_YEAR: &str = "year,label\n1,x\n3,y\n";

const MAKE: Measure = Measure::Cell(Cell::Make(ProductId(0), IndustryId(0)));

fn makes(problem: &Problem, target: i64) -> bool {
    match problem.find(MAKE) {
        Some(row) => row.target() == Some(target),
        None => false,
    }
}

fn are_years(years: &[Problem], targets: &[i64]) -> bool {
    years.len() == targets.len()
        && years
            .iter()
            .zip(targets)
            .all(|(p, target)| makes(p, *target))
}

/// Line, year and label.
type Said = (u64, u8, &'static str);

fn says(line: &DismissLine, want: Said) -> bool {
    line.line == want.0 && line.year == want.1 && line.label.bytes() == want.2.as_bytes()
}

fn are_said(lines: &[DismissLine], want: &[Said]) -> bool {
    lines.len() == want.len() && lines.iter().zip(want).all(|(line, said)| says(line, *said))
}

// The settings, the first and the second year, and the dismissals, as the files above give them.
fn is_wanted(given: &SeriesInput) -> bool {
    grade_text(&given.settings, 1) == Some(b"G".as_slice())
        && are_years(&given.years, &[100, 120])
        && are_said(&given.dismissals, &[(2, 1, "x"), (3, 2, "y")])
}

// Whether the answer is this fault, or where none is named the parts that are wanted.
fn answers(alloc: Global, shelf: &mut SteadyShelf, want: Option<SeriesInputFault>) -> bool {
    match read_series_input(alloc, shelf, 2) {
        Ok(given) => {
            let same = want.is_none() && is_wanted(&given);
            drop(given);
            same
        }
        Err(fault) => want == Some(fault),
    }
}

/// The files, and the first fault, if there is one.
type Case = (
    &'static [(FileName, &'static str)],
    Option<SeriesInputFault>,
);

const CASES: [Case; 5] = [
    (
        &[
            (FileName::SettingsToml, SETTINGS),
            (FileName::ClassesCsv, SMALL),
            (FileName::Year1Csv, FIRST),
            (FileName::Year2Csv, SECOND),
            (FileName::DismissCsv, DISMISSALS),
        ],
        None,
    ),
    (
        &[
            (FileName::SettingsToml, SETTINGS),
            (FileName::ClassesCsv, SMALL),
            (FileName::Year1Csv, FIRST),
            (FileName::DismissCsv, DISMISSALS),
        ],
        Some(SeriesInputFault::Input(InputFault::Missing(FileName::Year2Csv))),
    ),
    (
        &[
            (FileName::SettingsToml, SETTINGS),
            (FileName::ClassesCsv, SMALL),
            (FileName::Year1Csv, FIRST),
            (FileName::Year2Csv, TOO_LARGE),
            (FileName::DismissCsv, DISMISSALS),
        ],
        Some(SeriesInputFault::BadYear(
            2,
            SourceFault {
                line: 3,
                cause: RowFault::OutOfRange(Field::Target),
            },
        )),
    ),
    (
        &[
            (FileName::SettingsToml, SETTINGS),
            (FileName::ClassesCsv, SMALL),
            (FileName::Year1Csv, FIRST),
            (FileName::Year2Csv, SECOND),
            (FileName::DismissCsv, NO_YEAR),
        ],
        Some(SeriesInputFault::BadDismiss(DismissFault {
            line: 3,
            cause: DismissCause::WrongYear,
        })),
    ),
    (
        &[
            (FileName::SettingsToml, SETTINGS),
            (FileName::ClassesCsv, SMALL),
            (FileName::Year2Csv, SECOND),
            (FileName::DismissCsv, NO_YEAR),
        ],
        Some(SeriesInputFault::Input(InputFault::Missing(FileName::Year1Csv))),
    ),
];

#[test]
fn series_and_their_faults(rt: HostRuntime) -> Result<(), Fail> {
    for (files, want) in CASES {
        let mut shelf = steady(rt.alloc(), files)?;
        assert!(rt; answers(rt.alloc(), &mut shelf, want), "{want:?}");
    }
    Ok(())
}

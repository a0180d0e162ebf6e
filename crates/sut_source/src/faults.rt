//! What is wrong with a source.

use sut_measures::Field;

/// Why a line is no row of a source: the first of these that holds, in this order, but for `Header`, which speaks of the
/// first line.
#[derive(Debug, Clone, Copy, PartialEq, Eq)]
pub enum RowFault {
    /// The record has not as many fields as the header.
    Csv,
    /// The first record is not the header, or there is none.
    Header,
    /// The kind is no kind of measure.
    UnknownKind,
    /// A field of the name is no code of its axis.
    UnknownCode(Field),
    /// A field that the kind does not use, or the grade of a row without a target, is not empty.
    NotEmpty(Field),
    /// The service's product is not of that margin kind.
    WrongService,
    /// The field is no whole number.
    NotNumber(Field),
    /// The number is not in -10^12 to 10^12.
    OutOfRange(Field),
    /// The grade is none of the settings.
    UnknownGrade,
    /// What stands after the grade's colon is no penalty.
    BadPenalty,
    /// A bound is empty where there is no target.
    NoTarget,
    /// The lower bound is above the upper one.
    Crossed,
    /// The measure has a row on this earlier line.
    Duplicate(u64),
    /// There are already 131,072 rows of cells, or 16,384 rows of totals.
    TooMany,
    /// Memory ran out.
    NoMemory,
}

/// The first fault of a source, with its line, from 1.
#[derive(Debug, Clone, Copy, PartialEq, Eq)]
pub struct SourceFault {
    pub line: u64,
    pub cause: RowFault,
}

//! What is wrong with edits.

use sut_measures::Field;
use sut_source::RowFault;

/// Why an edit is no step on the rows.
#[derive(Debug, Clone, Copy, PartialEq, Eq)]
pub enum EditFault {
    /// The measure of a `set` or a `drop` has no row.
    NoRow,
    /// The measure of an `add` has a row.
    RowThere,
    /// There are already 131,072 rows of cells, or 16,384 rows of totals.
    Full,
    /// Memory ran out.
    NoMemory,
}

/// Why a line is no edit, or why its edit is refused.
#[derive(Debug, Clone, Copy, PartialEq, Eq)]
pub enum EditsCause {
    /// The record has not nine fields.
    Csv,
    /// The first record is not the header, or there is none.
    Header,
    /// The first field is no word of an edit.
    UnknownEdit,
    /// A field that the edit does not use is not empty.
    NotEmpty(Field),
    /// The fields are no row of a source, or do not name a measure.
    BadRow(RowFault),
    /// There are already 4,096 edits, or 15 rebalances.
    TooMany,
    /// The measure of a `set` or a `drop` has no row.
    NoRow,
    /// The measure of an `add` has a row.
    RowThere,
    /// There are already 131,072 rows of cells, or 16,384 rows of totals.
    Full,
    /// No standing reviewer has the label.
    NoReviewer,
    /// Memory ran out.
    NoMemory,
}

/// The first fault of a file of edits, with its line, from 1.
#[derive(Debug, Clone, Copy, PartialEq, Eq)]
pub struct EditsFault {
    pub line: u64,
    pub cause: EditsCause,
}

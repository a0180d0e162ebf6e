//! What an edit is.

use sut_measures::Measure;
use sut_tables::Row;
use sut_text::Label;

/// A change of the rows, or of who looks on.
#[derive(Drop)]
pub enum Edit {
    /// Puts this row in the place of that of its measure.
    Set(Row),
    /// Adds this row, whose measure has none.
    Add(Row),
    /// Takes out the row of this measure.
    Drop(Measure),
    /// Balances the rows as they are now.
    Balance,
    /// Dismisses the first standing reviewer with this label.
    Dismiss(Label),
}

/// An edit with its line in the file, from 2.
#[derive(Drop)]
pub struct EditLine {
    pub line: u64,
    pub edit: Edit,
}

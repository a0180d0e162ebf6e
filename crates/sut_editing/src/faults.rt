//! Why a run of edits is not done.

use sut_edits::EditsFault;

/// Why a run of edits is not done.
#[derive(Debug, Clone, Copy, PartialEq, Eq)]
pub enum EditingFault {
    /// The first line whose edit is refused: `NoRow`, `RowThere`, `Full` or `NoReviewer`.
    Refused(EditsFault),
    /// Memory ran out.
    NoMemory,
}

//! What is wrong with a file of a balanced table.

/// Why a line of a balanced table is none.
#[derive(Debug, Clone, Copy, PartialEq, Eq)]
pub enum BalancedCause {
    /// The record hasn't six fields.
    Csv,
    /// The first record isn't the header, or there is none.
    Header,
    /// The name isn't read, or it isn't that of the next live measure, or none is left.
    WrongMeasure,
    /// The target isn't spelled as that of the measure's row.
    WrongTarget,
    /// The value isn't a number.
    NotNumber,
    /// The value is too wide, or it is a cell's and lies outside -10^12 to 10^12.
    OutOfRange,
    /// The value of a total isn't its sum over the cells that were read.
    WrongTotal { printed: i128, sum: i128 },
    /// Live measures are left after the last record.
    Short,
    NoMemory,
}

/// The first fault of a balanced table, with its line.
#[derive(Debug, Clone, Copy, PartialEq, Eq)]
pub struct BalancedFault {
    pub line: u64,
    pub cause: BalancedCause,
}

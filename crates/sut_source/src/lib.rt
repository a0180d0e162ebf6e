//! Rows of a source: reading and printing. Numbers are whole currency units.
#![tactic(auto)]

pub mod faults;
mod grades;
mod lines;
mod numbers;
pub mod print;
pub mod read;
pub mod rows;

pub use faults::{RowFault, SourceFault};
pub use print::print_source;
pub use read::read_source;
pub use rows::{RowText, read_row, row_from};

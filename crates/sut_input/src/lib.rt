//! What the files of a year spell: settings, classes and a source, and what follows them: edits, a balanced table or asks; and
//! what those of a series spell: settings, classes, a source for each year, and dismissals.
#![tactic(auto)]

pub mod asks;
pub mod edits;
pub mod faults;
pub mod files;
pub mod problems;
pub mod series;
pub mod tables;

pub use asks::{AskInput, AskInputFault, read_ask_input};
pub use edits::{EditInput, EditInputFault, read_edit_input};
pub use faults::InputFault;
pub use files::read_file;
pub use problems::{Input, read_classes_file, read_problem};
pub use series::{SeriesInput, SeriesInputFault, read_series_input};
pub use tables::{TableInput, TableInputFault, read_table_input};

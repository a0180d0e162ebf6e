//! Edits of a problem's rows: reading them, and their steps.
#![tactic(auto)]

mod adding;
pub mod edits;
pub mod faults;
mod lines;
pub mod read;
pub mod steps;

pub use edits::{Edit, EditLine};
pub use faults::{EditFault, EditsCause, EditsFault};
pub use read::read_edits;
pub use steps::apply_edit;

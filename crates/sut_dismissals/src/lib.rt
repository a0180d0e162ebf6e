//! The dismissals of reviewers after the years of a series, read from `dismiss.csv`.
#![tactic(auto)]

pub mod dismissals;
pub mod faults;
pub mod read;

pub use dismissals::DismissLine;
pub use faults::{DismissCause, DismissFault};
pub use read::read_dismiss;

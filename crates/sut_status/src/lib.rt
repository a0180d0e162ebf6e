//! How a run ends: its status, the number that a program ends with, and the line that it prints on standard error.
#![tactic(auto)]

pub mod broken;
pub mod endings;
pub mod faults;
pub mod places;
pub mod statuses;
pub mod years;

pub use statuses::Status;
pub use years::year_file;

//! Reading `balanced.csv` back as a table of a problem, and the laws of its text.
#![tactic(auto)]

pub mod faults;
pub mod laws;
mod lines;
pub mod read;
mod reading;

pub use faults::{BalancedCause, BalancedFault};
pub use lines::target_of;
pub use read::read_balanced;

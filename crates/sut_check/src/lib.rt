//! The separate check of what was written: a certificate against the source, and with potentials a table. It stands on no
//! solver.
#![tactic(auto)]

pub mod checks;
pub mod claims;
mod fault_words;
pub mod faults;
mod files;
mod judging;
mod lines;
pub mod reasons;
pub mod statuses;
mod words;

pub use checks::check_run;
pub use statuses::CheckStatus;

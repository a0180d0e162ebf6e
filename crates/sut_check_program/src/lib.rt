//! The program `sutcheck` as a function of its arguments: what it prints on standard error, and the number that it ends with.
#![tactic(auto)]

pub mod endings;
mod help;
pub mod programs;

pub use endings::{end, error_text};
pub use programs::check_program;

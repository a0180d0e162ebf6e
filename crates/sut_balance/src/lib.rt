//! The answer to a problem: a least table with potentials that show it, or a set of accounts that shows that no table is
//! admissible.
#![tactic(auto)]

pub mod balancing;
mod by_account;
mod solving;
mod starting;

pub use balancing::{balance, balance_in, balance_over};
pub use starting::started;
pub use sut_cert::Answer;

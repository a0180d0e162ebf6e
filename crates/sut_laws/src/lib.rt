//! The laws of the accounts, as contracts of functions that do nothing: what a national accountant asks of printed accounts, of
//! prices, of balances and of potentials, and what is live and what reads back. Each law stands in `specs/` with its source.
#![tactic(auto)]

pub mod accounts;
pub mod balances;
pub mod certificates;
pub mod live;
pub mod readings;
pub mod valuation;

//! The separate verifier: verdicts on certificates of tables. It stands on no solver.
#![tactic(auto)]

mod cuts;
mod potentials;
mod slopes;
pub mod verdicts;

pub use cuts::verify_cut;
pub use potentials::verify;
pub use verdicts::{Reason, Verdict};

//! Reviewers: rules that a caller hands in, which mark the rows of balanced tables and count them.
#![tactic(auto)]

mod at_bound;
mod far_from;
pub mod laws;
mod panel;
mod reviewer;
mod seats;

pub use at_bound::AtBound;
pub use far_from::FarFrom;
pub use panel::Panel;
pub use reviewer::Reviewer;

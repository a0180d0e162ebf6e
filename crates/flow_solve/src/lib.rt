//! A least circulation with potentials that show it, or a set that shows that there is none.
#![tactic(auto)]

mod advancing;
mod nearing;
mod scaling;
mod solving;

pub use scaling::has_much_left;
pub use solving::{Outcome, solve};

//! Checks that numbers on the arcs of a graph are a circulation of least cost, and that a set of nodes shows that there is
//! no circulation.
#![tactic(auto)]

mod checks;
pub mod laws;

pub use checks::{contradicts, shows_least};

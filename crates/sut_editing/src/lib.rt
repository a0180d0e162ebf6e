//! A run of edits: they are taken in order, the rows are balanced where a line says so and once at the end, and what came of
//! it is shown and written down.
#![tactic(auto)]

pub mod editing;
pub mod faults;
mod logs;
mod rebalancing;
mod reviewing;
mod taking;

pub use editing::{Edited, edit_rows};
pub use faults::EditingFault;

//! A session over edits: a problem's rows as they are now, their answer, and the network on which it was found.
#![tactic(auto)]

mod following;
mod last_tables;
mod networks;
pub mod sessions;

pub use sessions::Session;

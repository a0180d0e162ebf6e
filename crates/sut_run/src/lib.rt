//! The run of a command: files in, files and printed lines out.
#![tactic(auto)]

pub mod balancing;
pub mod commands;
mod editing;
mod generating;
mod migrating;
mod outputs;
mod preparing;
mod reviewing;
pub mod runs;
mod writing;

pub use commands::Command;
pub use runs::run;
pub use sut_status::Status;

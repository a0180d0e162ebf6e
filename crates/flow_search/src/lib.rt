//! A tight residual path from a node to one that lacks the step, or the nodes that can be reached.
#![tactic(auto)]

mod following;
mod frontier;
mod heap;
mod meeting;
mod pricing;
mod raising;
mod relaxing;
mod searching;

pub use searching::{Found, search};

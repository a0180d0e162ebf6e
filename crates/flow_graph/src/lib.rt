//! A directed graph whose nodes and arcs have names, and whose arcs have a lower and an upper bound.
#![tactic(auto)]

mod arcs;
mod graphs;
mod names;

pub use arcs::{Arc, ArcId, Arcs, NodeId};
pub use graphs::{Graph, GraphFault};
pub use names::Name;

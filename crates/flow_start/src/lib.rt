//! Flows and potentials from which the solver has little left to do: convex cost scaling by push and relabel (Goldberg and
//! Tarjan 1990) on a contracted network.
#![tactic(auto)]

mod asking;
mod discharging;
mod edges;
mod groups;
mod labels;
mod lifting;
mod lists;
mod nets;
mod parting;
mod refining;
mod rings;
mod scaling;
mod starting;
mod windows;

pub use starting::start;

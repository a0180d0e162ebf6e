//! Flows with potentials on a graph, and the moves that keep them right.
#![tactic(auto)]

mod carrying;
mod counter;
mod gaps;
mod rooms;
mod settling;
mod states;

pub use counter::Steps;
pub use rooms::Room;
pub use states::State;

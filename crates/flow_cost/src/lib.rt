//! Convex costs of a whole number, and where a number settles under one.
#![tactic(auto)]

mod costs;
mod losses;
mod settling;

pub use costs::{Cost, Either, Free, Linear};
pub use losses::{Absolute, Band, Square};
pub use settling::settle;

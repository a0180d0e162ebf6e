//! GDP of a table: by production, by income and by expenditure.
#![tactic(auto)]

pub mod gross;
pub mod measured;
mod parts;

pub use gross::gdp;
pub use measured::Gdp;

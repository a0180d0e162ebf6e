//! Rows, problems and tables: what a source says, and numbers for its cells.
#![tactic(auto)]

pub mod breaks;
pub mod costs;
mod group_lists;
pub mod laws;
pub mod live_lists;
mod live_tallies;
mod made_live;
pub mod problems;
pub mod rows;
mod sums;
pub mod table_values;
pub mod tables;
mod tally;

pub use breaks::first_open;
pub use costs::cost;
pub use live_lists::{live, live_accounts, next_live, next_live_account};
pub use problems::{AddFault, Problem, Rows};
pub use rows::{Penalty, Row};
pub use table_values::{value, values};
pub use tables::{Broken, Held, Place, Table};

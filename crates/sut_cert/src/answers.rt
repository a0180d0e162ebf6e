//! The answer to a problem.

use crate::{AccountSet, Potentials};
use sut_tables::Table;

/// A balanced table with the potentials that show it, or a set of accounts that shows that there is none.
#[derive(Drop)]
pub enum Answer {
    Balanced(Table, Potentials),
    Infeasible(AccountSet),
}

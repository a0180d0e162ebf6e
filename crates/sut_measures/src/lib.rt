//! Cells, totals and accounts of supply and use tables: their order, their names, and the account that each measure leaves and enters.
#![tactic(auto)]

pub mod accounts;
pub mod endpoints;
pub mod faults;
mod fields;
pub mod fitting;
mod kind_places;
mod kinds;
pub mod measures;
pub mod names;
pub mod orders;
mod read_accounts;
mod read_names;
mod shapes;
pub mod sums;
pub mod words;

pub use accounts::Account;
pub use endpoints::ends;
pub use faults::{Field, NameFault};
pub use fitting::{account_fits, fits};
pub use measures::{Cell, Measure, Total};
pub use names::{put_account, put_name};
pub use read_accounts::read_account;
pub use read_names::read_name;
pub use sums::{adds_to, industry_of_item, product_of, sign_within, total_with};

//! The printed texts of an answer.
#![tactic(auto)]

mod accounts;
mod balanced;
mod codes;
mod edited;
pub mod laws;
mod numbers;
mod report;
mod screen;
mod supply;
mod trail;
mod use_table;
mod words;

pub use accounts::accounts_text;
pub use balanced::balanced_text;
pub use edited::edited_text;
pub use report::report_text;
pub use screen::{generated_text, put_gdp, put_rebalance, screen_text};
pub use supply::supply_text;
pub use sut_readback::{BalancedCause, BalancedFault, read_balanced};
pub use trail::put_trail_lines;
pub use use_table::use_text;
pub use words::put_word_line;

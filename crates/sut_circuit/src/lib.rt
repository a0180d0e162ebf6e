//! The circuit of a problem: its live accounts as nodes, its live measures as arcs. Its circulations are the values of the
//! problem's admissible tables.
#![tactic(auto)]

mod changing;
pub mod circuits;
pub mod costs;
mod growing;
pub mod laws;
pub mod table_flows;

pub use circuits::{Circuit, build};
pub use costs::RowCost;
pub use table_flows::{flow_of, table_of, table_over};

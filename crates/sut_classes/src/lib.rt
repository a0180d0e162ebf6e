//! Classes of supply and use tables: typed codes and the lists that they are places in.
#![tactic(auto)]

pub mod classes;
mod codes;
pub mod faults;
pub mod ids;
mod lists;
pub mod orders;
mod print;
pub mod read;

pub use classes::Classes;
pub use faults::ClassFault;
pub use ids::{
    Axis, Column, FinalId, IndustryGroupId, IndustryId, ItemId, MarginId, ProductGroupId,
    ProductId, TaxId,
};
pub use print::print_classes;
pub use read::{is_code, read_classes};

//! Certificates: potentials that show a table least, or a set of accounts that shows a problem impossible.
#![tactic(auto)]

pub mod answers;
pub mod certificates;
pub mod faults;
pub mod laws;
mod print;
mod read;
pub mod sums;

pub use answers::Answer;
pub use certificates::{AccountSet, Certificate, Potentials};
pub use faults::{CertCause, CertFault};
pub use print::print_certificate;
pub use read::read_certificate;
pub use sums::{entering, leaving};

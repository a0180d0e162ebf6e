//! What the verifier answers.

use sut_measures::{Account, Measure};
use sut_tables::Broken;

/// Why a certificate is refused. The rise of a measure is the potential of the account that it
/// enters less that of the account that it leaves.
#[derive(Debug, Clone, Copy, PartialEq, Eq)]
pub enum Reason {
    /// An identity or a bound of the table is broken.
    Open(Broken),
    /// A live account has no potential.
    NoPotential(Account),
    /// A live measure has a rise and no row.
    Bent {
        measure: Measure,
        rise: i128,
    },
    /// Below its upper bound, one more of a row's value costs less than the rise.
    Up {
        measure: Measure,
        slope: i128,
        rise: i128,
    },
    /// Above its lower bound, the last one of a row's value cost more than the rise.
    Down {
        measure: Measure,
        slope: i128,
        rise: i128,
    },
    /// A live measure without a row has one end in the set.
    Crosses(Measure),
    /// The lower bounds of the rows that enter the set sum to no more than the upper bounds of
    /// those that leave it.
    NoGap {
        entering: i128,
        leaving: i128,
    },
}

/// A table is least, or a problem has no admissible table, or the certificate shows neither.
#[derive(Debug, Clone, Copy, PartialEq, Eq)]
pub enum Verdict {
    Least,
    NoTable { entering: i128, leaving: i128 },
    Refused(Reason),
}

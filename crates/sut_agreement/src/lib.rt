//! What the two programs say of one another's files: laws, as contracts of functions that do nothing.
#![tactic(auto)]

ghost use Rattle.sut_agreement.specs.Agreement.{CutIsAccepted, LeastIsAccepted};

/// Where a run of `balance` or `edit` was balanced, the separate check of the files that it left, against the source under which
/// their problem stands, answers `Least` and prints the cost of the written table, or wants memory, unless a device fails.
pub fn least_is_accepted()
    ensures { LeastIsAccepted }
{}

/// Where such a run was infeasible, the separate check answers `NoTable` and prints both sums of the written set of accounts, or
/// wants memory, unless a device fails.
pub fn cut_is_accepted()
    ensures { CutIsAccepted }
{}

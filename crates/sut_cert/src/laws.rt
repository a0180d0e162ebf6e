//! The laws of certificates: functions that do nothing, whose contracts are the laws.

ghost use Rattle.sut_cert.specs.Laws.{ShownLeast, ContradictionImpossible};

/// Potentials that show a table show it least.
pub fn shown_least()
    ensures { ShownLeast }
{}

/// A set of accounts that contradicts shows that no table is admissible.
pub fn contradiction_impossible()
    ensures { ContradictionImpossible }
{}

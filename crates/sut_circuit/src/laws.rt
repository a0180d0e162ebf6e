//! What holds between the tables of a problem and the circulations of its circuit, as functions that do nothing.

ghost use Rattle.sut_circuit.specs.CircuitLaws.{CirculationsAreTables, TablesAreCirculations, LeastTogether, CertificatesTogether, AnswersAreRight, WideArcs};

use flow_cost::Cost;

/// Each circulation is the values of an admissible table of equal cost.
pub fn circulations_are_tables<C: Cost>()
    ensures { CirculationsAreTables C.value_at }
{}

/// The values of each admissible table are a circulation of equal cost, which gives the table back.
pub fn tables_are_circulations<C: Cost>()
    ensures { TablesAreCirculations C.value_at }
{}

/// A circulation is least exactly where its table is, and there is none exactly where the problem is impossible.
pub fn least_together<C: Cost>()
    ensures { LeastTogether C.value_at }
{}

/// What shows or refutes a circulation shows or refutes a table.
pub fn certificates_together<C: Cost>()
    ensures { CertificatesTogether C.value_at }
{}

/// The table and the potentials, or the set, that a solver's answer gives are right.
pub fn answers_are_right<C: Cost>()
    ensures { AnswersAreRight C.value_at }
{}

/// The arc of a measure without a row never binds in a circulation, and crosses no set that contradicts.
pub fn wide_arcs<C: Cost>()
    ensures { WideArcs C.value_at }
{}

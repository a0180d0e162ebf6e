//! What a solver starts from. It need not be admissible: the nearer it is to a least table, the less is left to do.

ghost use Rattle.std.specs.Prelude.{IfOk};
ghost use Rattle.sut_circuit.specs.IsCircuit.{IsCircuit};

use flow_start::start;
use no_memory::NoMemory;
use std::alloc::Global;
use sut_circuit::{Circuit, build};
use sut_tables::Problem;

/// The circuit of a problem, with flows and potentials from which the solver has little left to do. Which ones they are
/// promises nothing: the solver shows what it answers.
pub fn started(alloc: Global, p: &Problem) -> Result<Circuit, NoMemory>
    ensures circuit { IfOk result (IsCircuit p.now) }
{
    let mut circuit = build(alloc, p)?;
    start(alloc, &mut circuit.state)?;
    Ok(circuit)
}

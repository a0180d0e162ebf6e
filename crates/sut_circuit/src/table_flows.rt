//! From the flows of a circuit to a table, and back.

ghost use Rattle.std.specs.Prelude.{◌≡◌, pos, length, map, IsTrue, IfOk};
ghost use Rattle.flow_graph.specs.Circulation.{IsCirculation, total_cost};
ghost use Rattle.sut_tables.specs.Costs.{IsAdmissible, cost};
ghost use Rattle.sut_tables.specs.ProblemFacts.{ProblemFacts};
ghost use Rattle.sut_tables.specs.ProblemRules.{IsKept};
ghost use Rattle.sut_tables.specs.Problems.{IsTableOf};
ghost use Rattle.sut_tables.specs.Rows.{InRange};
ghost use Rattle.sut_tables.specs.Tables.{put_number};
ghost use Rattle.sut_tables.specs.Values.{value_of};
ghost use Rattle.sut_circuit.specs.RowCosts.{cost_at};
ghost use Rattle.sut_circuit.specs.Circuit.{flows_of, table_from};
ghost use Rattle.sut_circuit.specs.IsCircuit.{IsCircuit};
ghost use Rattle.sut_circuit.specs.TableFlows.{FitsIn, put_flow};

use crate::circuits::Circuit;
use flow_graph::ArcId;
use no_memory::NoMemory;
use std::alloc::Global;
use sut_measures::{Cell, Measure};
use sut_tables::{Held, Problem, Table, value};

/// Whether a cell has this number of whole currency units.
fn has(held: &Held, cell: Cell, x: i64) -> bool
    requires { InRange held.now.number }
    ensures { IsTrue result → (held.now.cell ≡ cell) × (held.now.number ≡ x) }
{
    held.number == x && held.cell.cmp(&cell).is_eq()
}

/// Whether the table's cell at a place is this one, and has this number.
fn stands_at(table: &Table, at: usize, cell: Cell, x: i64) -> bool
    ensures { IsTrue result → put_number table.now cell x ≡ table.now }
{
    match table.cells().get(at) {
        Some(held) => has(held, cell, x),
        None => false,
    }
}

/// Puts the flow of a measure's arc into a table, where the measure is a cell and the flow is not the number that stands at
/// this place already. Cells come first among the measures, so the place of an arc is that of its cell.
fn put_flow(table: &mut Table, at: usize, m: Measure, x: i64)
    requires { FitsIn m x }
    ensures { table.new ≡ put_flow table.old m x }
{
    if let Measure::Cell(cell) = m {
        if !stands_at(table, at, cell, x) {
            let _held = table.put(cell, x);
        }
    }
}

/// The table of a circulation of a problem's circuit, which is admissible and costs as much: each live measure's value is
/// the flow of its arc. It is written over a table of the problem, where only the numbers that differ are put.
pub fn table_over(mut table: Table, c: &Circuit, p: &Problem) -> Table
    requires table { IsTableOf p.now table }
    requires circuit { IsCircuit p.now c.now }
    requires circulation { IsCirculation (length c.now.state.graph.nodes) c.now.state.graph.arcs c.now.state.flows }
    ensures table { result ≡ table_from p.now c.now.state.flows }
    ensures admissible { IsAdmissible p.now result }
    ensures values { flows_of p.now result ≡ c.now.state.flows }
    ensures cost { pos (cost p.now result) ≡ total_cost cost_at c.now.state.costs c.now.state.flows }
{
    p.kept();
    let graph = c.state.graph();
    for a in 0..graph.arc_count() {
        put_flow(
            &mut table,
            a as usize,
            graph.arc_name(ArcId(a)),
            c.state.flow(ArcId(a)),
        );
    }
    table
}

/// The table of a circulation of a problem's circuit, as `table_over` writes it, in memory of its own.
pub fn table_of(alloc: Global, c: &Circuit, p: &Problem) -> Result<Table, NoMemory>
    requires circuit { IsCircuit p.now c.now }
    requires circulation { IsCirculation (length c.now.state.graph.nodes) c.now.state.graph.arcs c.now.state.flows }
    ensures table { IfOk result (λ t. t ≡ table_from p.now c.now.state.flows) }
    ensures admissible { IfOk result (IsAdmissible p.now) }
    ensures values { IfOk result (λ t. flows_of p.now t ≡ c.now.state.flows) }
    ensures cost { IfOk result (λ t. pos (cost p.now t) ≡ total_cost cost_at c.now.state.costs c.now.state.flows) }
{
    let zeros = Table::zeros(alloc, p)?;
    Ok(table_over(zeros, c, p))
}

/// Writes the circulation of a table that is admissible for the circuit's problem: the flow of each measure's arc is its
/// value.
pub fn flow_of(t: &Table, c: &Circuit, out: &mut [i64])
    requires circuit { (p : ProblemFacts) × IsKept p × IsCircuit p c.now × IsAdmissible p t.now }
    requires places { length out.old ≡ length c.now.state.graph.arcs }
    ensures flows { out.new ≡ map (value_of t.now) c.now.state.graph.names }
    ensures circulation { IsCirculation (length c.now.state.graph.nodes) c.now.state.graph.arcs out.new }
    ensures cost { (p : ProblemFacts) → IsKept p → IsCircuit p c.now → IsAdmissible p t.now → total_cost cost_at c.now.state.costs out.new ≡ pos (cost p t.now) }
    ensures table { (p : ProblemFacts) → IsKept p → IsCircuit p c.now → IsAdmissible p t.now → table_from p out.new ≡ t.now }
{
    let graph = c.state.graph();
    for a in 0..graph.arc_count() {
        out[a as usize] = value(t, graph.arc_name(ArcId(a))) as i64;
    }
}

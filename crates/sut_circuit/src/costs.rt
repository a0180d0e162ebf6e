//! What the flow of a measure's arc costs.

ghost use Rattle.std.specs.Prelude.{◌≡◌, ◌^◌, ℤ, pos, ◌≤ℤ◌, Some, IfOk};
ghost use Rattle.std.specs.List.{AllZip};
ghost use Rattle.sut_tables.specs.Costs.{term};
ghost use Rattle.sut_circuit.specs.Building.{HoldsBounds};
ghost use Rattle.sut_circuit.specs.RowCosts.{cost_at, span_at};
ghost use Rattle.sut_circuit.specs.Circuit.{IsCostOf};

use flow_cost::{Absolute, Band, Either, Free, Square};
use no_memory::NoMemory;
use std::alloc::Global;
use sut_measures::Measure;
use sut_tables::{Penalty, Problem, Row};

/// What the flow of an arc costs: the term of its row, or nothing.
pub type RowCost = Either<Either<Square, Absolute>, Either<Band, Free>>;

/// The cost of a row with a target, which is not moved into the bounds.
fn aimed(row: &Row, target: i64) -> RowCost
    requires { row.now.target ≡ Some target }
    ensures value { (x : ℤ) → cost_at result x ≡ pos (term row.now x) }
    ensures span { pos (10 ^ 12) ≤ℤ span_at result }
{
    row.in_range();
    let weight = row.weight();
    match row.penalty() {
        Penalty::Square => {
            let cost = Square::new(target, weight).unwrap();
            Either::One(Either::One(cost))
        }
        Penalty::Absolute => {
            let cost = Absolute::new(target, weight).unwrap();
            Either::One(Either::Other(cost))
        }
        Penalty::Band(width) => {
            let cost = Band::new(target, weight, width).unwrap();
            Either::Other(Either::One(cost))
        }
    }
}

/// The cost of a row: nothing without a target.
pub(crate) fn row_cost(row: &Row) -> RowCost
    ensures value { (x : ℤ) → cost_at result x ≡ pos (term row.now x) }
    ensures span { pos (10 ^ 12) ≤ℤ span_at result }
{
    match row.target() {
        Some(target) => aimed(row, target),
        None => Either::Other(Either::Other(Free)),
    }
}

/// The cost of a measure's arc: that of its row, or nothing where it has none.
fn cost_of(p: &Problem, m: Measure) -> RowCost
    ensures cost { IsCostOf cost_at p.now m result }
    ensures bounds { HoldsBounds span_at p.now m result }
{
    match p.find(m) {
        Some(row) => {
            row.in_range();
            row_cost(row)
        }
        None => Either::Other(Either::Other(Free)),
    }
}

/// The cost of each measure's arc.
pub(crate) fn costs_of(
    alloc: Global,
    p: &Problem,
    measures: &[Measure],
) -> Result<Vec<RowCost>, NoMemory>
    ensures costs { IfOk result (λ v. AllZip (IsCostOf cost_at p.now) measures.now v.items) }
    ensures bounds { IfOk result (λ v. AllZip (HoldsBounds span_at p.now) measures.now v.items) }
{
    let mut costs = Vec::new(alloc);
    for m in measures {
        costs.push(cost_of(p, *m))?;
    }
    Ok(costs)
}

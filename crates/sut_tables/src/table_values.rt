//! The values of measures over a table.

ghost use Rattle.std.specs.Prelude.{◌≡◌, IfOk, map};
ghost use Rattle.sut_tables.specs.Problems.{IsTableOf, live_measures};
ghost use Rattle.sut_tables.specs.Values.{value_of};

use crate::live_lists::live;
use crate::sums::CellSum;
use crate::{Problem, Table};
use no_memory::NoMemory;
use std::alloc::Global;
use sut_measures::Measure;

/// The value of a measure over a table, in whole currency units: the cell's number, or the sum of
/// the total's cells.
pub fn value(t: &Table, m: Measure) -> i128
    ensures { result ≡ value_of t.now m }
{
    match m {
        Measure::Cell(c) => i128::from(t.get(c)),
        Measure::Total(u) => t.sum(CellSum::Total(u)),
    }
}

/// The value of each live measure of a problem, in order, over a table of it.
pub fn values(alloc: Global, p: &Problem, t: &Table) -> Result<Vec<i128>, NoMemory>
    requires { IsTableOf p.now t.now }
    ensures { IfOk result (λ v. v.items ≡ map (value_of t.now) (live_measures p.now)) }
{
    let measures = live(alloc, p)?;
    let values = measures.iter().map(|m| value(t, *m)).collect(alloc)?;
    Ok(values)
}

//! A table as far as it is read.

ghost use Rattle.std.specs.Prelude.{◌≡◌, [], Some, IfOk, drop};
ghost use Rattle.sut_tables.specs.Breaks.{first_of};
ghost use Rattle.sut_tables.specs.Rows.{InRange};
ghost use Rattle.sut_tables.specs.Values.{total_value};
ghost use Rattle.sut_readback.specs.BalancedFile.{nothing_read, with_cell};

use no_memory::NoMemory;
use std::alloc::Global;
use std::marker::Model;
use sut_measures::{Cell, Measure, Total};
use sut_tables::{Problem, Table, live, value};

/// A table whose first cells are read, and the live measures, of which so many are read. Contracts
/// see the cells that are read and the measures that are still to come.
#[derive(Drop)]
pub(crate) struct Reading {
    table: Table,
    measures: Vec<Measure>,
    lines: usize,
}

impl Model for Reading {
    ghost use Rattle.sut_readback.specs.BalancedFile.{TableSoFar};

    ghost Value = { TableSoFar };

    ghost use Rattle.sut_readback.specs.ReadingView.{reading_of, HasCellsFirst};

    ghost view = { reading_of };

    ghost invariant = { HasCellsFirst };
}

impl Reading {
    /// No line is read.
    pub fn new(alloc: Global, p: &Problem) -> Result<Reading, NoMemory>
        ensures { IfOk result (λ r. r ≡ nothing_read p.now) }
    {
        p.kept();
        let measures = live(alloc, p)?;
        let table = Table::zeros(alloc, p)?;
        Ok(Reading {
            table,
            measures,
            lines: 0,
        })
    }

    /// The next measure, or none once all are read.
    pub fn next(&self) -> Option<Measure>
        ensures { result ≡ first_of self.now.coming }
    {
        self.measures.get(self.lines).copied()
    }

    /// The sum of the next measure, a total, over the cells that are read.
    pub fn sum(&self, u: Total) -> i128
        requires { first_of self.now.coming ≡ Some (Measure.Total u) }
        ensures { result ≡ total_value self.now.table u }
    {
        value(&self.table, Measure::Total(u))
    }

    /// The next measure, a total, is read.
    pub fn pass(&mut self, u: Total)
        requires { first_of self.old.coming ≡ Some (Measure.Total u) }
        ensures { self.new ≡ record self.old { coming = drop 1 self.old.coming } }
    {
        prove!(self.lines < self.measures.len());
        self.lines += 1;
    }

    /// The next measure, a cell, is read as a number of whole currency units, of -10^12 to 10^12.
    pub fn put(&mut self, c: Cell, x: i64)
        requires next { first_of self.old.coming ≡ Some (Measure.Cell c) }
        requires range { InRange x }
        ensures { self.new ≡ with_cell self.old c x }
    {
        self.table.cells();
        self.table.put(c, x);
        prove!(self.lines < self.measures.len());
        self.lines += 1;
    }

    /// The table, once all measures are read.
    pub fn into_table(self) -> Table
        requires { self.coming ≡ [] }
        ensures { result ≡ self.table }
    {
        self.table
    }
}

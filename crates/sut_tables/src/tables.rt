//! A table: a number for each cell that has a row, and the groups that its totals are summed by.

ghost use Rattle.std.specs.Prelude.{◌≡◌, ◌<◌, ◌^◌, All, false, length, map, pos, IfOk, IfSome, IfNone};
ghost use Rattle.std.specs.List.{HoldsAt};
ghost use Rattle.sut_measures.specs.Keys.{cell_key};
ghost use Rattle.sut_tables.specs.CellSums.{IsUpTo, sum_at};
ghost use Rattle.sut_tables.specs.InOrder.{IsAscending};
ghost use Rattle.sut_tables.specs.Rows.{InRange};
ghost use Rattle.sut_tables.specs.Problems.{IsTableOf, cell_rows};
ghost use Rattle.sut_tables.specs.Tables.{holds, put_number, zeros};
ghost use Rattle.sut_tables.specs.Values.{number_at};

use crate::Problem;
use crate::group_lists::{industry_group_of, industry_groups, product_group_of, product_groups};
use crate::sums::{CellSum, change_sums, number_for, zero_sums};
use no_memory::NoMemory;
use std::alloc::Global;
use std::collections::BTreeMap;
use std::marker::Model;
use sut_classes::{IndustryGroupId, IndustryId, MarginId, ProductGroupId, ProductId};
use sut_measures::{Cell, Measure};

/// A cell with its number of whole currency units.
#[derive(Debug, Clone, Copy, PartialEq, Eq)]
pub struct Held {
    pub cell: Cell,
    pub number: i64,
}

/// An identity or a bound: of a product, an industry or a margin kind, or of a row's measure.
#[derive(Debug, Clone, Copy, PartialEq, Eq)]
pub enum Place {
    /// Supply equals use of a product.
    Product(ProductId),
    /// Output equals inputs of an industry.
    Industry(IndustryId),
    /// Services equal margins of a kind.
    Margin(MarginId),
    /// A value lies below its lower bound.
    Below(Measure),
    /// A value lies above its upper bound.
    Above(Measure),
}

/// A broken identity with its two sides, or a broken bound with the value and the bound.
#[derive(Debug, Clone, Copy, PartialEq, Eq)]
pub struct Broken {
    pub place: Place,
    pub left: i128,
    pub right: i128,
}

/// A whole number for each cell that has a row; every other cell is 0. Beside its cells it keeps their sums, so that a value
/// is a look-up.
pub struct Table {
    cells: Vec<Held>,
    product_groups: Vec<Option<ProductGroupId>>,
    industry_groups: Vec<Option<IndustryGroupId>>,
    sums: BTreeMap<CellSum, i128>,
}

impl Drop for Table {
    fn drop(self) {
        let Table {
            cells,
            product_groups,
            industry_groups,
            sums,
        } = self;
        drop(cells);
        drop(product_groups);
        drop(industry_groups);
        drop(sums);
    }
}

impl Model for Table {
    ghost use Rattle.sut_tables.specs.TableFacts.{TableFacts};

    ghost Value = { TableFacts };

    ghost use Rattle.sut_tables.specs.TableView.{facts_of, KeepsSums};

    ghost view = { facts_of };

    ghost invariant = { KeepsSums };
}

// The place of a cell among cells in order, if it is among them.
fn place_of(cells: &[Held], c: Cell) -> Option<usize>
    requires { IsAscending (λ (h : Held). cell_key h.cell) cells.now }
    ensures held { IfSome result (λ i. (i < length cells.now) × HoldsAt (λ (h : Held). h.cell ≡ c) cells.now i) }
    ensures absent { IfNone result (holds cells.now c ≡ false) }
{
    match cells.binary_search_by_key(&c, |h| h.cell) {
        Ok(place) => Some(place),
        Err(_) => None,
    }
}

// The cells that have a row, in order, each with the number 0.
fn zero_cells(alloc: Global, p: &Problem) -> Result<Vec<Held>, NoMemory>
    ensures { IfOk result (λ v. v.items ≡ map (λ c. record { cell = c; number = pos 0 }) (cell_rows p.now)) }
{
    let mut cells = Vec::new(alloc);
    for row in p.rows() {
        if let Measure::Cell(cell) = row.measure() {
            cells.push(Held { cell, number: 0 })?;
        }
    }
    Ok(cells)
}

impl Table {
    /// 0 for each cell that has a row in the problem.
    pub fn zeros(alloc: Global, p: &Problem) -> Result<Table, NoMemory>
        ensures value { IfOk result (λ t. t ≡ zeros p.now) }
        ensures belongs { IfOk result (λ t. IsTableOf p.now t) }
    {
        p.kept();
        let product_groups = product_groups(alloc, p.classes())?;
        let industry_groups = industry_groups(alloc, p.classes())?;
        let cells = zero_cells(alloc, p)?;
        let sums = zero_sums(alloc, &product_groups, &industry_groups, &cells)?;
        Ok(Table {
            cells,
            product_groups,
            industry_groups,
            sums,
        })
    }

    /// The cells that are held, in measure order, each with its number of -10^12 to 10^12.
    pub fn cells(&self) -> &[Held]
        ensures all { result.now ≡ self.now.cells }
        ensures in_order { IsAscending (λ (h : Held). cell_key h.cell) result.now }
        ensures in_range { All (λ (h : Held). InRange h.number) result.now }
    {
        &self.cells
    }

    /// The number of a cell; 0 where it isn't held.
    pub fn get(&self, c: Cell) -> i64
        ensures { result ≡ number_at self.now.cells c }
    {
        match place_of(&self.cells, c) {
            Some(place) => self.cells[place].number,
            None => 0,
        }
    }

    // A sum over the cells.
    pub(crate) fn sum(&self, s: CellSum) -> i128
        ensures value { result ≡ sum_at self.now s }
        ensures small { IsUpTo (2 ^ 120) result }
    {
        number_for(&self.sums, s)
    }

    /// Sets the number of a cell, which lies in -10^12 to 10^12. False, and nothing changes,
    /// exactly where the cell isn't held.
    pub fn put(&mut self, c: Cell, x: i64) -> bool
        requires { InRange x }
        ensures answer { result ≡ holds self.old.cells c }
        ensures after { self.new ≡ put_number self.old c x }
        ensures refused { result ≡ false → self.new ≡ self.old }
    {
        let Some(place) = place_of(&self.cells, c) else {
            return false;
        };
        let change = i128::from(x) - i128::from(self.cells[place].number);
        self.cells[place].number = x;
        let product_group = product_group_of(&self.product_groups, c);
        let industry_group = industry_group_of(&self.industry_groups, c);
        change_sums(&mut self.sums, product_group, industry_group, c, change);
        true
    }
}

//! The first broken identity or bound of a table.

ghost use Rattle.std.specs.Prelude.{◌≡◌, ◌↔◌, ◌≤◌, IsNone};
ghost use Rattle.std.specs.List.{flat_map, range_with_len};
ghost use Rattle.sut_tables.specs.Problems.{IsTableOf};
ghost use Rattle.sut_tables.specs.Costs.{IsAdmissible};
ghost use Rattle.sut_tables.specs.Breaks.{below, broken_bounds, broken_industry, broken_margin, broken_product, first_break, first_of, unequal};

use crate::sums::CellSum;
use crate::table_values::value;
use crate::{Broken, Place, Problem, Row, Table};
use sut_classes::{Axis, IndustryId, MarginId, ProductId};
use sut_measures::Total;

// An identity's two sides, where they differ.
fn unequal(place: Place, left: i128, right: i128) -> Option<Broken>
    ensures { result ≡ first_of (unequal place left right) }
{
    if left == right {
        None
    } else {
        Some(Broken { place, left, right })
    }
}

// Makes plus import, and basics plus services.
fn open_product(t: &Table, i: ProductId) -> Option<Broken>
    ensures { result ≡ first_of (broken_product t.now i.0) }
{
    let supply = t.sum(CellSum::Total(Total::Supply(i)));
    unequal(Place::Product(i), supply, t.sum(CellSum::Uses(i)))
}

// Makes, and inputs plus added items.
fn open_industry(t: &Table, j: IndustryId) -> Option<Broken>
    ensures { result ≡ first_of (broken_industry t.now j.0) }
{
    let output = t.sum(CellSum::Total(Total::Output(j)));
    let inputs = t.sum(CellSum::Total(Total::Inputs(j)));
    let value_added = t.sum(CellSum::Total(Total::ValueAdded(j)));
    unequal(Place::Industry(j), output, inputs + value_added)
}

// Services, and margins.
fn open_margin(t: &Table, k: MarginId) -> Option<Broken>
    ensures { result ≡ first_of (broken_margin t.now k.0) }
{
    let margins = t.sum(CellSum::Total(Total::MarginTotal(k)));
    unequal(Place::Margin(k), t.sum(CellSum::Services(k)), margins)
}

// The lower bound, and then the upper one.
fn open_bound(t: &Table, row: &Row) -> Option<Broken>
    ensures { result ≡ first_of (broken_bounds t.now row.now) }
{
    let measure = row.measure();
    let left = value(t, measure);
    let lower = i128::from(row.lower());
    if left < lower {
        return Some(Broken {
            place: Place::Below(measure),
            left,
            right: lower,
        });
    }
    let upper = i128::from(row.upper());
    if upper < left {
        return Some(Broken {
            place: Place::Above(measure),
            left,
            right: upper,
        });
    }
    None
}

fn first_open_product(t: &Table, count: usize) -> Option<Broken>
    requires { count ≤ 512 }
    ensures { result ≡ first_of (flat_map (broken_product t.now) (range_with_len 0 count)) }
{
    for place in 0..count {
        if let Some(found) = open_product(t, ProductId(place as u16)) {
            return Some(found);
        }
    }
    None
}

fn first_open_industry(t: &Table, count: usize) -> Option<Broken>
    requires { count ≤ 512 }
    ensures { result ≡ first_of (flat_map (broken_industry t.now) (range_with_len 0 count)) }
{
    for place in 0..count {
        if let Some(found) = open_industry(t, IndustryId(place as u16)) {
            return Some(found);
        }
    }
    None
}

fn first_open_margin(t: &Table, count: usize) -> Option<Broken>
    requires { count ≤ 512 }
    ensures { result ≡ first_of (flat_map (broken_margin t.now) (range_with_len 0 count)) }
{
    for place in 0..count {
        if let Some(found) = open_margin(t, MarginId(place as u16)) {
            return Some(found);
        }
    }
    None
}

fn first_open_bound(p: &Problem, t: &Table) -> Option<Broken>
    ensures { result ≡ first_of (flat_map (broken_bounds t.now) p.now.rows) }
{
    for row in p.rows() {
        if let Some(found) = open_bound(t, row) {
            return Some(found);
        }
    }
    None
}

// The first broken identity or bound.
fn first_broken(p: &Problem, t: &Table) -> Option<Broken>
    ensures { result ≡ first_break p.now t.now }
{
    let classes = p.classes();
    if let Some(found) = first_open_product(t, classes.count(Axis::Product)) {
        return Some(found);
    }
    if let Some(found) = first_open_industry(t, classes.count(Axis::Industry)) {
        return Some(found);
    }
    if let Some(found) = first_open_margin(t, classes.count(Axis::Margin)) {
        return Some(found);
    }
    first_open_bound(p, t)
}

/// The first broken identity or bound: of products, then industries, then margin kinds, then rows
/// in measure order, each lower bound before the upper one. None comes exactly where the table is
/// admissible.
pub fn first_open(p: &Problem, t: &Table) -> Option<Broken>
    requires { IsTableOf p.now t.now }
    ensures first { result ≡ first_break p.now t.now }
    ensures admissible { IsNone result ↔ IsAdmissible p.now t.now }
{
    p.kept();
    first_broken(p, t)
}

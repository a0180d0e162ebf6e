//! Whether the classes have a measure or an account.

ghost use Rattle.std.specs.Prelude.{◌≡◌, nat_lt};
ghost use Rattle.sut_classes.specs.Places.{kind_at};
ghost use Rattle.sut_measures.specs.Fits as classes_have;
ghost use Rattle.sut_measures.specs.Shapes.{length_of, seen};
ghost use Rattle.sut_measures.specs.Shapes as shapes;

use crate::shapes::{Place, Shape, account_shape, cell_shape, total_shape};
use crate::{Account, Cell, Measure, Total};
use sut_classes::{Axis, Classes, Column, MarginId, ProductId};

fn has(classes: &Classes, axis: Axis, place: u16) -> bool
    ensures { result ≡ nat_lt place (length_of classes.now axis) }
{
    (place as usize) < classes.count(axis)
}

fn has_column(classes: &Classes, column: Column) -> bool
    ensures { result ≡ classes_have.has_column classes.now column }
{
    match column {
        Column::Industry(j) => has(classes, Axis::Industry, j.0),
        Column::Final(f) => has(classes, Axis::Final, f.0),
    }
}

/// Whether the product is of this margin kind.
fn is_of_kind(classes: &Classes, product: ProductId, kind: MarginId) -> bool
    ensures { result ≡ classes_have.is_kind (kind_at classes.now product) kind }
{
    match classes.kind_of(product) {
        Some(of_product) => of_product.0 == kind.0,
        None => false,
    }
}

fn has_place(classes: &Classes, place: Place) -> bool
    ensures { result ≡ shapes.has_place classes.now place }
{
    match place {
        Place::Nothing => true,
        Place::Code(axis, n) => has(classes, axis, n),
        Place::Buyer(column) => has_column(classes, column),
    }
}

/// Whether the classes have each place.
fn shape_fits(classes: &Classes, s: Shape) -> bool
    ensures { result ≡ shapes.shape_fits classes.now (seen s) }
{
    has_place(classes, s.1) && has_place(classes, s.2) && has_place(classes, s.3)
}

/// Whether a service has its product's margin kind.
fn has_right_kind(classes: &Classes, c: Cell) -> bool
    ensures { result ≡ shapes.has_right_kind classes.now c }
{
    match c {
        Cell::Service(i, k) => is_of_kind(classes, i, k),
        _ => true,
    }
}

fn cell_fits(classes: &Classes, c: Cell) -> bool
    ensures { result ≡ classes_have.cell_fits classes.now c }
{
    shape_fits(classes, cell_shape(c)) && has_right_kind(classes, c)
}

fn total_fits(classes: &Classes, t: Total) -> bool
    ensures { result ≡ classes_have.total_fits classes.now t }
{
    shape_fits(classes, total_shape(t))
}

/// Whether every place of the measure is below its axis's count, and a service has its product's
/// margin kind.
pub fn fits(classes: &Classes, m: Measure) -> bool
    ensures { result ≡ classes_have.fits classes.now m }
{
    match m {
        Measure::Cell(c) => cell_fits(classes, c),
        Measure::Total(t) => total_fits(classes, t),
    }
}

/// Whether every place of the account is below its axis's count.
pub fn account_fits(classes: &Classes, a: Account) -> bool
    ensures { result ≡ classes_have.account_fits classes.now a }
{
    shape_fits(classes, account_shape(a))
}

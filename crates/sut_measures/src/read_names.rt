//! Names of measures, read.

ghost use Rattle.std.specs.Prelude.{◌≡◌, ◌==◌, if◌then◌else◌, [], None, Ok, IfOk, IsTrue};
ghost use Rattle.sut_records.specs.FirstFault.{and_then};
ghost use Rattle.sut_measures.specs.Fits as classes_have;
ghost use Rattle.sut_measures.specs.KindPlaces as kind_places;
ghost use Rattle.sut_measures.specs.Kinds as words;
ghost use Rattle.sut_measures.specs.ReadNames as names;
ghost use Rattle.sut_measures.specs.ReadNames.{measure_of};

use crate::fields::nothing_in;
use crate::fitting::fits;
use crate::kind_places::{cell_at, group_total_at, read_third, read_two, total_at};
use crate::kinds::{CellKind, GroupKind, TotalKind, cell_kind, group_kind, total_kind};
use crate::shapes::Place::Nothing;
use crate::shapes::{cell_shape, total_shape};
use crate::{Cell, Field, Measure, NameFault};
use sut_classes::Classes;

/// A service names its product's margin kind.
fn with_right_service(classes: &Classes, m: Measure) -> Result<Measure, NameFault>
    ensures { result ≡ names.with_right_service classes.now m }
{
    if fits(classes, m) {
        Ok(m)
    } else {
        Err(NameFault::WrongService)
    }
}

/// A cell, of which a service must name its product's margin kind.
fn measure_of_cell(classes: &Classes, cell: Cell) -> Result<Measure, NameFault>
    ensures { result ≡ kind_places.cell_read classes.now cell }
{
    match cell {
        Cell::Service(i, k) => with_right_service(classes, Measure::Cell(Cell::Service(i, k))),
        _ => Ok(Measure::Cell(cell)),
    }
}

fn read_cell(
    classes: &Classes,
    kind: CellKind,
    a: &[u8],
    b: &[u8],
    c: &[u8],
) -> Result<Measure, NameFault>
    ensures { result ≡ measure_of classes.now (words.cell_word kind) a.now b.now c.now }
{
    let due = cell_shape(cell_at(kind, Nothing, Nothing, Nothing));
    let (first, second) = match read_two(classes, due, a, b) {
        Ok(read) => read,
        Err(fault) => return Err(fault),
    };
    match read_third(classes, due, c) {
        Ok(third) => measure_of_cell(classes, cell_at(kind, first, second, third)),
        Err(fault) => Err(fault),
    }
}

/// The total of two fields; its name leaves c empty.
fn read_total(classes: &Classes, kind: TotalKind, a: &[u8], b: &[u8]) -> Result<Measure, NameFault>
    ensures { result ≡ measure_of classes.now (words.total_word kind) a.now b.now [] }
{
    let due = total_shape(total_at(kind, Nothing, Nothing));
    match read_two(classes, due, a, b) {
        Ok((first, second)) => Ok(Measure::Total(total_at(kind, first, second))),
        Err(fault) => Err(fault),
    }
}

/// A total whose name leaves c empty.
fn then_nothing_in_c(read: Result<Measure, NameFault>, c: &[u8]) -> Result<Measure, NameFault>
    ensures { result ≡ and_then read (λ m. names.nothing_in Field.C c.now (Ok m)) }
{
    let total = read?;
    nothing_in(Field::C, c)?;
    Ok(total)
}

/// The kind of groups' totals of this word, of classes that have groups.
fn group_kind_of(classes: &Classes, word: &[u8]) -> Option<GroupKind>
    ensures { result ≡ (if classes.now.format == 2 then words.kind_named words.group_word words.group_kinds word.now else None) }
{
    if classes.format() == 2 {
        group_kind(word)
    } else {
        None
    }
}

/// The total of a group, of classes that have groups.
fn read_group_total(
    classes: &Classes,
    kind: GroupKind,
    a: &[u8],
    b: &[u8],
) -> Result<Measure, NameFault>
    requires { classes.now.format ≡ 2 }
    ensures { result ≡ measure_of classes.now (words.group_word kind) a.now b.now [] }
{
    let due = total_shape(group_total_at(kind, Nothing, Nothing));
    match read_two(classes, due, a, b) {
        Ok((first, second)) => Ok(Measure::Total(group_total_at(kind, first, second))),
        Err(fault) => Err(fault),
    }
}

/// The measure of this name, or the name's first fault: the kind is looked at first, then a, b and
/// c in turn, then whether a service has its product's margin kind.
pub fn read_name(
    classes: &Classes,
    kind: &[u8],
    a: &[u8],
    b: &[u8],
    c: &[u8],
) -> Result<Measure, NameFault>
    ensures value { result ≡ measure_of classes.now kind.now a.now b.now c.now }
    ensures fitting { IfOk result (λ m. IsTrue (classes_have.fits classes.now m)) }
{
    if let Some(kind) = cell_kind(kind) {
        return read_cell(classes, kind, a, b, c);
    }
    if let Some(kind) = total_kind(kind) {
        return then_nothing_in_c(read_total(classes, kind, a, b), c);
    }
    match group_kind_of(classes, kind) {
        Some(kind) => then_nothing_in_c(read_group_total(classes, kind, a, b), c),
        None => Err(NameFault::UnknownKind),
    }
}

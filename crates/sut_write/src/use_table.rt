//! `use.csv`.

ghost use Rattle.std.specs.Prelude.{◌≡◌, ◌≤◌, ◌^◌, ◌++◌, ◌∷◌, [], IfOk, OnOk, length, map};
ghost use Rattle.std.specs.List.{flat_map};
ghost use Rattle.sut_text.specs.Text.{line_text, optional_text, whole_text};
ghost use Rattle.sut_text.specs.Fields.{field_bytes};
ghost use Rattle.sut_tables.specs.CellSums.{IsUpTo};
ghost use Rattle.sut_tables.specs.Problems.{IsTableOf};
ghost use Rattle.sut_tables.specs.Values.{int_sum_by};
ghost use Rattle.sut_write.specs.Places.{columns as columns_of, finals, industries, items, margins, products, taxes};
ghost use Rattle.sut_write.specs.Use as table;
ghost use Rattle.sut_write.specs.Use.{use_text};

use crate::codes::code_of;
use crate::numbers::value_in;
use no_memory::NoMemory;
use std::alloc::Global;
use sut_classes::{Axis, Classes, Column, FinalId, IndustryId, ItemId, MarginId, ProductId, TaxId};
use sut_measures::{Cell, Measure, Total};
use sut_tables::{Problem, Table};
use sut_text::fields::{Field, put_one};
use sut_text::{put_byte, put_bytes, put_whole};

/// A line of the use table: a layer of a product's price, or of all products together.
#[derive(Clone, Copy)]
enum UseLine {
    Basic(ProductId),
    Margin(ProductId, MarginId),
    Tax(ProductId, TaxId),
    Purchasers(ProductId),
    /// What each column spends at purchasers' prices.
    Spent,
    Added(ItemId),
    ValueAdded,
    Output,
}

fn push_industries(columns: &mut Vec<Column>, classes: &Classes) -> Result<(), NoMemory>
    ensures { OnOk result (columns.new.items ≡ columns.old.items ++ map Column.Industry (industries classes.now)) }
{
    for place in 0..classes.count(Axis::Industry) {
        columns.push(Column::Industry(IndustryId(place as u16)))?;
    }
    Ok(())
}

fn push_finals(columns: &mut Vec<Column>, classes: &Classes) -> Result<(), NoMemory>
    ensures { OnOk result (columns.new.items ≡ columns.old.items ++ map Column.Final (finals classes.now)) }
{
    for place in 0..classes.count(Axis::Final) {
        columns.push(Column::Final(FinalId(place as u16)))?;
    }
    Ok(())
}

// All industries, and then the final uses.
fn all_columns(alloc: Global, classes: &Classes) -> Result<Vec<Column>, NoMemory>
    ensures columns { IfOk result (λ v. v.items ≡ columns_of classes.now) }
    ensures few { IfOk result (λ v. length v.items ≤ 1024) }
{
    classes.kept();
    let mut columns = Vec::new(alloc);
    push_industries(&mut columns, classes)?;
    push_finals(&mut columns, classes)?;
    Ok(columns)
}

fn heading<'a>(classes: &'a Classes, column: Column) -> Field<'a>
    ensures { field_bytes result ≡ table.column_heading classes.now column }
{
    match column {
        Column::Industry(j) => Field::Tagged(b"industry", code_of(classes, Axis::Industry, j.0)),
        Column::Final(f) => Field::Tagged(b"final", code_of(classes, Axis::Final, f.0)),
    }
}

// Appends the heading of each column, behind a comma.
fn put_headings(out: &mut Vec<u8>, classes: &Classes, columns: &[Column]) -> Result<(), NoMemory>
    ensures { OnOk result (out.new.items ≡ out.old.items ++ flat_map (λ q. 44 ∷ table.column_heading classes.now q) columns.now) }
{
    for column in columns {
        put_byte(out, b',')?;
        put_one(out, heading(classes, *column))?;
    }
    Ok(())
}

fn put_header(out: &mut Vec<u8>, classes: &Classes, columns: &[Column]) -> Result<(), NoMemory>
    requires { columns.now ≡ columns_of classes.now }
    ensures { OnOk result (out.new.items ≡ out.old.items ++ line_text (table.use_header classes.now)) }
{
    put_bytes(out, b"product,layer")?;
    put_headings(out, classes, columns)?;
    put_bytes(out, b",total\n")?;
    Ok(())
}

fn product_field<'a>(classes: &'a Classes, line: UseLine) -> Field<'a>
    ensures { field_bytes result ≡ table.line_product classes.now line }
{
    match line {
        UseLine::Basic(i) | UseLine::Margin(i, _) | UseLine::Tax(i, _) | UseLine::Purchasers(i) =>
            Field::Text(code_of(classes, Axis::Product, i.0)),
        UseLine::Spent | UseLine::Added(_) | UseLine::ValueAdded | UseLine::Output => {
            Field::Text(b":total")
        }
    }
}

fn layer_field<'a>(classes: &'a Classes, line: UseLine) -> Field<'a>
    ensures { field_bytes result ≡ table.line_layer classes.now line }
{
    match line {
        UseLine::Basic(_) => Field::Text(b"basic"),
        UseLine::Margin(_, k) => Field::Tagged(b"margin", code_of(classes, Axis::Margin, k.0)),
        UseLine::Tax(_, x) => Field::Tagged(b"tax", code_of(classes, Axis::Tax, x.0)),
        UseLine::Purchasers(_) | UseLine::Spent => Field::Text(b"purchasers"),
        UseLine::Added(v) => Field::Tagged(b"added", code_of(classes, Axis::Item, v.0)),
        UseLine::ValueAdded => Field::Text(b"value_added"),
        UseLine::Output => Field::Text(b"output"),
    }
}

// The measure that a line prints in a column, if the column has a number there.
fn measure_of(line: UseLine, q: Column) -> Option<Measure>
    ensures { result ≡ table.line_measure line q }
{
    match line {
        UseLine::Basic(i) => Some(Measure::Cell(Cell::Basic(i, q))),
        UseLine::Margin(i, k) => Some(Measure::Cell(Cell::Margin(k, i, q))),
        UseLine::Tax(i, x) => Some(Measure::Cell(Cell::Tax(x, i, q))),
        UseLine::Purchasers(i) => Some(Measure::Total(Total::Purchase(i, q))),
        UseLine::Spent => match q {
            Column::Industry(j) => Some(Measure::Total(Total::Inputs(j))),
            Column::Final(f) => Some(Measure::Total(Total::FinalTotal(f))),
        },
        UseLine::Added(v) => match q {
            Column::Industry(j) => Some(Measure::Cell(Cell::Added(v, j))),
            Column::Final(_) => None,
        },
        UseLine::ValueAdded => match q {
            Column::Industry(j) => Some(Measure::Total(Total::ValueAdded(j))),
            Column::Final(_) => None,
        },
        UseLine::Output => match q {
            Column::Industry(j) => Some(Measure::Total(Total::Output(j))),
            Column::Final(_) => None,
        },
    }
}

// The number of a line in a column, which may be absent.
fn put_number(
    out: &mut Vec<u8>,
    p: &Problem,
    t: &Table,
    line: UseLine,
    q: Column,
) -> Result<(), NoMemory>
    requires { IsTableOf p.now t.now }
    ensures { OnOk result (out.new.items ≡ out.old.items ++ optional_text (table.line_number t.now line q)) }
{
    match measure_of(line, q) {
        None => Ok(()),
        Some(m) => put_whole(out, value_in(p, t, m)),
    }
}

// Appends the number of a line in each column, behind a comma.
fn put_numbers(
    out: &mut Vec<u8>,
    p: &Problem,
    t: &Table,
    columns: &[Column],
    line: UseLine,
) -> Result<(), NoMemory>
    requires { IsTableOf p.now t.now }
    ensures { OnOk result (out.new.items ≡ out.old.items ++ flat_map (λ q. 44 ∷ optional_text (table.line_number t.now line q)) columns.now) }
{
    for column in columns {
        put_byte(out, b',')?;
        put_number(out, p, t, line, *column)?;
    }
    Ok(())
}

// The number of a line in a column; an absent one counts as 0.
fn number_or_zero(p: &Problem, t: &Table, line: UseLine, q: Column) -> i128
    requires { IsTableOf p.now t.now }
    ensures value { result ≡ table.or_zero (table.line_number t.now line q) }
    ensures small { IsUpTo (2 ^ 58) result }
{
    match measure_of(line, q) {
        None => 0,
        Some(m) => value_in(p, t, m),
    }
}

// The sum of a line's numbers.
fn line_sum(p: &Problem, t: &Table, columns: &[Column], line: UseLine) -> i128
    requires of_problem { IsTableOf p.now t.now }
    requires few { length columns.now ≤ 1024 }
    ensures { result ≡ int_sum_by (λ q. table.or_zero (table.line_number t.now line q)) columns.now }
{
    let mut sum: i128 = 0;
    for column in columns {
        sum += number_or_zero(p, t, line, *column);
    }
    sum
}

// Appends the last field of a line, behind a comma, and the line's end.
fn put_line_sum(out: &mut Vec<u8>, sum: i128) -> Result<(), NoMemory>
    ensures { OnOk result (out.new.items ≡ out.old.items ++ (44 ∷ (whole_text sum ++ 10 ∷ []))) }
{
    put_byte(out, b',')?;
    put_whole(out, sum)?;
    put_byte(out, b'\n')?;
    Ok(())
}

fn put_line(
    out: &mut Vec<u8>,
    p: &Problem,
    t: &Table,
    columns: &[Column],
    line: UseLine,
) -> Result<(), NoMemory>
    requires of_problem { IsTableOf p.now t.now }
    requires columns { columns.now ≡ columns_of p.now.classes }
    requires few { length columns.now ≤ 1024 }
    ensures { OnOk result (out.new.items ≡ out.old.items ++ line_text (table.use_line p.now.classes t.now line)) }
{
    put_one(out, product_field(p.classes(), line))?;
    put_byte(out, b',')?;
    put_one(out, layer_field(p.classes(), line))?;
    put_numbers(out, p, t, columns, line)?;
    put_line_sum(out, line_sum(p, t, columns, line))?;
    Ok(())
}

fn put_margin_lines(
    out: &mut Vec<u8>,
    p: &Problem,
    t: &Table,
    columns: &[Column],
    i: ProductId,
) -> Result<(), NoMemory>
    requires of_problem { IsTableOf p.now t.now }
    requires columns { columns.now ≡ columns_of p.now.classes }
    requires few { length columns.now ≤ 1024 }
    ensures { OnOk result (out.new.items ≡ out.old.items ++ flat_map line_text (map (table.use_line p.now.classes t.now) (map (UseLine.Margin i) (margins p.now.classes)))) }
{
    for place in 0..p.classes().count(Axis::Margin) {
        put_line(
            out,
            p,
            t,
            columns,
            UseLine::Margin(i, MarginId(place as u16)),
        )?;
    }
    Ok(())
}

fn put_tax_lines(
    out: &mut Vec<u8>,
    p: &Problem,
    t: &Table,
    columns: &[Column],
    i: ProductId,
) -> Result<(), NoMemory>
    requires of_problem { IsTableOf p.now t.now }
    requires columns { columns.now ≡ columns_of p.now.classes }
    requires few { length columns.now ≤ 1024 }
    ensures { OnOk result (out.new.items ≡ out.old.items ++ flat_map line_text (map (table.use_line p.now.classes t.now) (map (UseLine.Tax i) (taxes p.now.classes)))) }
{
    for place in 0..p.classes().count(Axis::Tax) {
        put_line(out, p, t, columns, UseLine::Tax(i, TaxId(place as u16)))?;
    }
    Ok(())
}

// The layers of a product.
fn put_layers(
    out: &mut Vec<u8>,
    p: &Problem,
    t: &Table,
    columns: &[Column],
    i: ProductId,
) -> Result<(), NoMemory>
    requires of_problem { IsTableOf p.now t.now }
    requires columns { columns.now ≡ columns_of p.now.classes }
    requires few { length columns.now ≤ 1024 }
    ensures { OnOk result (out.new.items ≡ out.old.items ++ flat_map line_text (map (table.use_line p.now.classes t.now) (table.product_lines p.now.classes i))) }
{
    put_line(out, p, t, columns, UseLine::Basic(i))?;
    put_margin_lines(out, p, t, columns, i)?;
    put_tax_lines(out, p, t, columns, i)?;
    put_line(out, p, t, columns, UseLine::Purchasers(i))?;
    Ok(())
}

fn put_product_lines(
    out: &mut Vec<u8>,
    p: &Problem,
    t: &Table,
    columns: &[Column],
) -> Result<(), NoMemory>
    requires of_problem { IsTableOf p.now t.now }
    requires columns { columns.now ≡ columns_of p.now.classes }
    requires few { length columns.now ≤ 1024 }
    ensures { OnOk result (out.new.items ≡ out.old.items ++ flat_map line_text (map (table.use_line p.now.classes t.now) (flat_map (table.product_lines p.now.classes) (products p.now.classes)))) }
{
    for place in 0..p.classes().count(Axis::Product) {
        put_layers(out, p, t, columns, ProductId(place as u16))?;
    }
    Ok(())
}

fn put_added_lines(
    out: &mut Vec<u8>,
    p: &Problem,
    t: &Table,
    columns: &[Column],
) -> Result<(), NoMemory>
    requires of_problem { IsTableOf p.now t.now }
    requires columns { columns.now ≡ columns_of p.now.classes }
    requires few { length columns.now ≤ 1024 }
    ensures { OnOk result (out.new.items ≡ out.old.items ++ flat_map line_text (map (table.use_line p.now.classes t.now) (map UseLine.Added (items p.now.classes)))) }
{
    for place in 0..p.classes().count(Axis::Item) {
        put_line(out, p, t, columns, UseLine::Added(ItemId(place as u16)))?;
    }
    Ok(())
}

// The lines of all products together.
fn put_total_lines(
    out: &mut Vec<u8>,
    p: &Problem,
    t: &Table,
    columns: &[Column],
) -> Result<(), NoMemory>
    requires of_problem { IsTableOf p.now t.now }
    requires columns { columns.now ≡ columns_of p.now.classes }
    requires few { length columns.now ≤ 1024 }
    ensures { OnOk result (out.new.items ≡ out.old.items ++ flat_map line_text (map (table.use_line p.now.classes t.now) (table.total_lines p.now.classes))) }
{
    put_line(out, p, t, columns, UseLine::Spent)?;
    put_added_lines(out, p, t, columns)?;
    put_line(out, p, t, columns, UseLine::ValueAdded)?;
    put_line(out, p, t, columns, UseLine::Output)?;
    Ok(())
}

/// `use.csv`: under a header of columns, industries before final uses, the layers of each product's
/// price, and then what each column spends, the items by industry, value added and output, each line
/// with the sum of its numbers.
pub fn use_text(alloc: Global, p: &Problem, t: &Table) -> Result<Vec<u8>, NoMemory>
    requires { IsTableOf p.now t.now }
    ensures { IfOk result (λ v. v.items ≡ use_text p.now.classes t.now) }
{
    let columns = all_columns(alloc, p.classes())?;
    let mut out = Vec::new(alloc);
    put_header(&mut out, p.classes(), &columns)?;
    put_product_lines(&mut out, p, t, &columns)?;
    put_total_lines(&mut out, p, t, &columns)?;
    Ok(out)
}

//! `supply.csv`.

ghost use Rattle.std.specs.Prelude.{◌≡◌, ◌≤◌, ◌^◌, ◌++◌, ◌∷◌, [], IfOk, OnOk, length, map};
ghost use Rattle.std.specs.List.{flat_map};
ghost use Rattle.sut_text.specs.Text.{line_text, whole_text};
ghost use Rattle.sut_text.specs.Fields.{field_bytes};
ghost use Rattle.sut_tables.specs.CellSums.{IsUpTo};
ghost use Rattle.sut_tables.specs.Problems.{IsTableOf};
ghost use Rattle.sut_tables.specs.Values.{int_sum_by};
ghost use Rattle.sut_write.specs.Places.{below, industries, margins, products, taxes};
ghost use Rattle.sut_write.specs.Supply as table;
ghost use Rattle.sut_write.specs.Supply.{supply_text};

use crate::codes::code_of;
use crate::numbers::{net_margin, supply_at_purchasers, value_in};
use no_memory::NoMemory;
use std::alloc::Global;
use sut_classes::{Axis, Classes, IndustryId, MarginId, ProductId, TaxId};
use sut_measures::{Cell, Measure, Total};
use sut_tables::{Problem, Table};
use sut_text::fields::{Field, put_one};
use sut_text::{put_byte, put_bytes, put_whole};

/// A column of the supply table.
#[derive(Clone, Copy)]
enum SupplyColumn {
    Make(IndustryId),
    Import,
    Supply,
    /// The margins of a kind less the product's own services.
    Margin(MarginId),
    Tax(TaxId),
    /// Supply at purchasers' prices.
    Purchasers,
}

fn push_makes(columns: &mut Vec<SupplyColumn>, classes: &Classes) -> Result<(), NoMemory>
    ensures { OnOk result (columns.new.items ≡ columns.old.items ++ map SupplyColumn.Make (industries classes.now)) }
{
    for place in 0..classes.count(Axis::Industry) {
        columns.push(SupplyColumn::Make(IndustryId(place as u16)))?;
    }
    Ok(())
}

fn push_margins(columns: &mut Vec<SupplyColumn>, classes: &Classes) -> Result<(), NoMemory>
    ensures { OnOk result (columns.new.items ≡ columns.old.items ++ map SupplyColumn.Margin (margins classes.now)) }
{
    for place in 0..classes.count(Axis::Margin) {
        columns.push(SupplyColumn::Margin(MarginId(place as u16)))?;
    }
    Ok(())
}

fn push_taxes(columns: &mut Vec<SupplyColumn>, classes: &Classes) -> Result<(), NoMemory>
    ensures { OnOk result (columns.new.items ≡ columns.old.items ++ map SupplyColumn.Tax (taxes classes.now)) }
{
    for place in 0..classes.count(Axis::Tax) {
        columns.push(SupplyColumn::Tax(TaxId(place as u16)))?;
    }
    Ok(())
}

fn supply_columns(alloc: Global, classes: &Classes) -> Result<Vec<SupplyColumn>, NoMemory>
    ensures { IfOk result (λ v. v.items ≡ table.supply_columns classes.now) }
{
    let mut columns = Vec::new(alloc);
    push_makes(&mut columns, classes)?;
    columns.push(SupplyColumn::Import)?;
    columns.push(SupplyColumn::Supply)?;
    push_margins(&mut columns, classes)?;
    push_taxes(&mut columns, classes)?;
    columns.push(SupplyColumn::Purchasers)?;
    Ok(columns)
}

fn heading<'a>(classes: &'a Classes, column: SupplyColumn) -> Field<'a>
    ensures { field_bytes result ≡ table.supply_heading classes.now column }
{
    match column {
        SupplyColumn::Make(j) => Field::Tagged(b"make", code_of(classes, Axis::Industry, j.0)),
        SupplyColumn::Import => Field::Text(b"import"),
        SupplyColumn::Supply => Field::Text(b"supply"),
        SupplyColumn::Margin(k) => Field::Tagged(b"margin", code_of(classes, Axis::Margin, k.0)),
        SupplyColumn::Tax(x) => Field::Tagged(b"tax", code_of(classes, Axis::Tax, x.0)),
        SupplyColumn::Purchasers => Field::Text(b"purchasers"),
    }
}

// Appends the heading of each column, behind a comma.
fn put_headings(
    out: &mut Vec<u8>,
    classes: &Classes,
    columns: &[SupplyColumn],
) -> Result<(), NoMemory>
    ensures { OnOk result (out.new.items ≡ out.old.items ++ flat_map (λ c. 44 ∷ table.supply_heading classes.now c) columns.now) }
{
    for column in columns {
        put_byte(out, b',')?;
        put_one(out, heading(classes, *column))?;
    }
    Ok(())
}

// The number of a product in a column.
fn supply_number(p: &Problem, t: &Table, column: SupplyColumn, i: ProductId) -> i128
    requires { IsTableOf p.now t.now }
    ensures value { result ≡ table.supply_number p.now.classes t.now column i }
    ensures small { IsUpTo (2 ^ 69) result }
{
    match column {
        SupplyColumn::Make(j) => value_in(p, t, Measure::Cell(Cell::Make(i, j))),
        SupplyColumn::Import => value_in(p, t, Measure::Cell(Cell::Import(i))),
        SupplyColumn::Supply => value_in(p, t, Measure::Total(Total::Supply(i))),
        SupplyColumn::Margin(k) => net_margin(p, t, k, i),
        SupplyColumn::Tax(x) => value_in(p, t, Measure::Total(Total::TaxProduct(x, i))),
        SupplyColumn::Purchasers => supply_at_purchasers(p, t, i),
    }
}

// Appends the number of a product in each column, behind a comma.
fn put_numbers(
    out: &mut Vec<u8>,
    p: &Problem,
    t: &Table,
    columns: &[SupplyColumn],
    i: ProductId,
) -> Result<(), NoMemory>
    requires { IsTableOf p.now t.now }
    ensures { OnOk result (out.new.items ≡ out.old.items ++ flat_map (λ c. 44 ∷ whole_text (table.supply_number p.now.classes t.now c i)) columns.now) }
{
    for column in columns {
        put_byte(out, b',')?;
        put_whole(out, supply_number(p, t, *column, i))?;
    }
    Ok(())
}

fn put_product_line(
    out: &mut Vec<u8>,
    p: &Problem,
    t: &Table,
    columns: &[SupplyColumn],
    i: ProductId,
) -> Result<(), NoMemory>
    requires of_problem { IsTableOf p.now t.now }
    requires columns { columns.now ≡ table.supply_columns p.now.classes }
    ensures { OnOk result (out.new.items ≡ out.old.items ++ line_text (table.supply_line p.now.classes t.now i)) }
{
    put_bytes(out, code_of(p.classes(), Axis::Product, i.0))?;
    put_numbers(out, p, t, columns, i)?;
    put_byte(out, b'\n')?;
    Ok(())
}

fn put_product_lines(
    out: &mut Vec<u8>,
    p: &Problem,
    t: &Table,
    columns: &[SupplyColumn],
) -> Result<(), NoMemory>
    requires of_problem { IsTableOf p.now t.now }
    requires columns { columns.now ≡ table.supply_columns p.now.classes }
    ensures { OnOk result (out.new.items ≡ out.old.items ++ flat_map line_text (map (table.supply_line p.now.classes t.now) (products p.now.classes))) }
{
    for place in 0..p.classes().count(Axis::Product) {
        put_product_line(out, p, t, columns, ProductId(place as u16))?;
    }
    Ok(())
}

// The sum of a column over the first products.
fn column_sum(p: &Problem, t: &Table, column: SupplyColumn, count: usize) -> i128
    requires of_problem { IsTableOf p.now t.now }
    requires few { count ≤ 512 }
    ensures { result ≡ int_sum_by (λ n. table.supply_number p.now.classes t.now column (record { 0 = n })) (below count) }
{
    let mut sum: i128 = 0;
    for place in 0..count {
        sum += supply_number(p, t, column, ProductId(place as u16));
    }
    sum
}

fn whole_column(p: &Problem, t: &Table, column: SupplyColumn) -> i128
    requires { IsTableOf p.now t.now }
    ensures { result ≡ table.column_sum p.now.classes t.now column }
{
    column_sum(p, t, column, p.classes().count(Axis::Product))
}

// Appends the sum of each column, behind a comma.
fn put_sums(
    out: &mut Vec<u8>,
    p: &Problem,
    t: &Table,
    columns: &[SupplyColumn],
) -> Result<(), NoMemory>
    requires { IsTableOf p.now t.now }
    ensures { OnOk result (out.new.items ≡ out.old.items ++ flat_map (λ c. 44 ∷ whole_text (table.column_sum p.now.classes t.now c)) columns.now) }
{
    for column in columns {
        put_byte(out, b',')?;
        put_whole(out, whole_column(p, t, *column))?;
    }
    Ok(())
}

fn put_header(
    out: &mut Vec<u8>,
    classes: &Classes,
    columns: &[SupplyColumn],
) -> Result<(), NoMemory>
    requires { columns.now ≡ table.supply_columns classes.now }
    ensures { OnOk result (out.new.items ≡ out.old.items ++ line_text (table.supply_header classes.now)) }
{
    put_bytes(out, b"product")?;
    put_headings(out, classes, columns)?;
    put_byte(out, b'\n')?;
    Ok(())
}

fn put_sum_line(
    out: &mut Vec<u8>,
    p: &Problem,
    t: &Table,
    columns: &[SupplyColumn],
) -> Result<(), NoMemory>
    requires of_problem { IsTableOf p.now t.now }
    requires columns { columns.now ≡ table.supply_columns p.now.classes }
    ensures { OnOk result (out.new.items ≡ out.old.items ++ line_text (table.supply_sums p.now.classes t.now)) }
{
    put_bytes(out, b":total")?;
    put_sums(out, p, t, columns)?;
    put_byte(out, b'\n')?;
    Ok(())
}

/// `supply.csv`: under a header of headings a line for each product with its makes by industry, its
/// import, its supply, its net margins and taxes by kind, and its supply at purchasers' prices, and
/// then the line `:total` of the column sums.
pub fn supply_text(alloc: Global, p: &Problem, t: &Table) -> Result<Vec<u8>, NoMemory>
    requires { IsTableOf p.now t.now }
    ensures { IfOk result (λ v. v.items ≡ supply_text p.now.classes t.now) }
{
    let columns = supply_columns(alloc, p.classes())?;
    let mut out = Vec::new(alloc);
    put_header(&mut out, p.classes(), &columns)?;
    put_product_lines(&mut out, p, t, &columns)?;
    put_sum_line(&mut out, p, t, &columns)?;
    Ok(out)
}

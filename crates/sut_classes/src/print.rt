//! Printing classes in format 2.

ghost use Rattle.std.specs.Prelude.{◌≡◌, ◌++◌, ◌∷◌, [], Ok, IfOk, OnOk, map};
ghost use Rattle.std.specs.List.{flat_map};
ghost use Rattle.sut_text.specs.Text.{line_text};
ghost use Rattle.sut_classes.specs.ClassFile.{classes_of};
ghost use Rattle.sut_classes.specs.ClassText.{axis_word as axis_text, classes_text, code_text as code_there, group_text as group_there, industry_group_text, industry_line as industry_fields, kind_text as kind_there, plain_line, product_line as product_fields};
ghost use Rattle.sut_classes.specs.Groups.{group_at, industry_group_at};
ghost use Rattle.sut_classes.specs.Places.{codes_of, kind_at};

use crate::classes::Classes;
use crate::ids::{Axis, IndustryId, ProductId};
use no_memory::NoMemory;
use std::alloc::Global;
use sut_text::fields::{Field, put_line};

fn axis_word(axis: Axis) -> &'static [u8]
    ensures { result.now ≡ axis_text axis }
{
    match axis {
        Axis::Product => b"product",
        Axis::Industry => b"industry",
        Axis::Final => b"final",
        Axis::Item => b"item",
        Axis::Margin => b"margin",
        Axis::Tax => b"tax",
        Axis::ProductGroup => b"product_group",
        Axis::IndustryGroup => b"industry_group",
    }
}

// The code at a place; empty where the place isn't there.
fn code_text(classes: &Classes, axis: Axis, place: u16) -> &[u8]
    ensures { result.now ≡ code_there classes.now axis place }
{
    match classes.code(axis, place) {
        Some(code) => code,
        None => b"",
    }
}

fn kind_text(classes: &Classes, product: ProductId) -> &[u8]
    ensures { result.now ≡ kind_there classes.now (kind_at classes.now product) }
{
    match classes.kind_of(product) {
        Some(kind) => code_text(classes, Axis::Margin, kind.0),
        None => b"plain",
    }
}

fn group_text(classes: &Classes, product: ProductId) -> &[u8]
    ensures { result.now ≡ group_there classes.now (group_at classes.now product) }
{
    match classes.group_of(product) {
        Some(group) => code_text(classes, Axis::ProductGroup, group.0),
        None => b"",
    }
}

fn group_of_industry_text(classes: &Classes, industry: IndustryId) -> &[u8]
    ensures { result.now ≡ industry_group_text classes.now (industry_group_at classes.now industry) }
{
    match classes.group_of_industry(industry) {
        Some(group) => code_text(classes, Axis::IndustryGroup, group.0),
        None => b"",
    }
}

// Appends a line for each code of an axis that has nothing beside its codes.
fn put_codes(out: &mut Vec<u8>, classes: &Classes, axis: Axis) -> Result<(), NoMemory>
    ensures { OnOk result (out.new.items ≡ out.old.items ++ flat_map line_text (map (plain_line axis) (codes_of classes.now axis))) }
{
    classes.kept();
    for place in 0..classes.count(axis) {
        put_line(
            out,
            &[
                Field::Text(axis_word(axis)),
                Field::Text(code_text(classes, axis, place as u16)),
                Field::Empty,
                Field::Empty,
            ],
        )?;
    }
    Ok(())
}

// Appends the line of each product.
fn put_products(out: &mut Vec<u8>, classes: &Classes) -> Result<(), NoMemory>
    ensures { OnOk result (out.new.items ≡ out.old.items ++ flat_map line_text (map (product_fields classes.now) classes.now.products)) }
{
    classes.kept();
    for place in 0..classes.count(Axis::Product) {
        let place = place as u16;
        put_line(
            out,
            &[
                Field::Text(axis_word(Axis::Product)),
                Field::Text(code_text(classes, Axis::Product, place)),
                Field::Text(kind_text(classes, ProductId(place))),
                Field::Text(group_text(classes, ProductId(place))),
            ],
        )?;
    }
    Ok(())
}

// Appends the line of each industry.
fn put_industries(out: &mut Vec<u8>, classes: &Classes) -> Result<(), NoMemory>
    ensures { OnOk result (out.new.items ≡ out.old.items ++ flat_map line_text (map (industry_fields classes.now) classes.now.industries)) }
{
    classes.kept();
    for place in 0..classes.count(Axis::Industry) {
        let place = place as u16;
        put_line(
            out,
            &[
                Field::Text(axis_word(Axis::Industry)),
                Field::Text(code_text(classes, Axis::Industry, place)),
                Field::Empty,
                Field::Text(group_of_industry_text(classes, IndustryId(place))),
            ],
        )?;
    }
    Ok(())
}

/// The text of classes in format 2: under the header `axis,code,kind,group` all margins, product
/// groups, products, industry groups, industries, final uses, items and taxes, each axis in its
/// order. It reads back as the same lists, with format 2.
pub fn print_classes(alloc: Global, c: &Classes) -> Result<Vec<u8>, NoMemory>
    ensures text { IfOk result (λ t. t.items ≡ classes_text c.now) }
    ensures reads_back { IfOk result (λ t. classes_of t.items ≡ Ok (record c.now { format = 2 })) }
{
    c.kept();
    let mut out = Vec::new(alloc);
    put_line(
        &mut out,
        &[
            Field::Text(b"axis"),
            Field::Text(b"code"),
            Field::Text(b"kind"),
            Field::Text(b"group"),
        ],
    )?;
    put_codes(&mut out, c, Axis::Margin)?;
    put_codes(&mut out, c, Axis::ProductGroup)?;
    put_products(&mut out, c)?;
    put_codes(&mut out, c, Axis::IndustryGroup)?;
    put_industries(&mut out, c)?;
    put_codes(&mut out, c, Axis::Final)?;
    put_codes(&mut out, c, Axis::Item)?;
    put_codes(&mut out, c, Axis::Tax)?;
    Ok(out)
}

//! The made classes.

ghost use Rattle.std.specs.Prelude.{◌≡◌, ◌==◌, ◌≤◌, ◌++◌, IfOk, OnOk, codes, if◌then◌else◌};
ghost use Rattle.sut_text.specs.Text.{line_text};
ghost use Rattle.sut_generate.specs.Generator.{class_header, final_line, industry_line, item_line, made_classes, margin_line, product_line, tax_line};
ghost use Rattle.sut_generate.specs.DrawnRows.{numbered_text};

use no_memory::NoMemory;
use std::alloc::Global;
use sut_text::fields::{Field, put_line};

// The header, and the one margin kind.
fn put_head(out: &mut Vec<u8>) -> Result<(), NoMemory>
    ensures { OnOk result (out.new.items ≡ out.old.items ++ line_text class_header ++ line_text margin_line) }
{
    put_line(
        out,
        &[
            Field::Text(b"axis"),
            Field::Text(b"code"),
            Field::Text(b"kind"),
        ],
    )?;
    put_line(
        out,
        &[Field::Text(b"margin"), Field::Text(b"T"), Field::Empty],
    )?;
    Ok(())
}

// The kind of a product: the first is the trade service.
fn kind_of(product: u32) -> &'static [u8]
    ensures { result.now ≡ (if product == 1 then codes "T" else codes "plain") }
{
    if product == 1 { b"T" } else { b"plain" }
}

fn put_products(out: &mut Vec<u8>, products: u32) -> Result<(), NoMemory>
    requires { products ≤ 512 }
    ensures { OnOk result (out.new.items ≡ out.old.items ++ numbered_text product_line products) }
{
    for i in 0..products {
        put_line(
            out,
            &[
                Field::Text(b"product"),
                Field::Numbered(b'P', i + 1),
                Field::Text(kind_of(i + 1)),
            ],
        )?;
    }
    Ok(())
}

fn put_industries(out: &mut Vec<u8>, industries: u32) -> Result<(), NoMemory>
    requires { industries ≤ 256 }
    ensures { OnOk result (out.new.items ≡ out.old.items ++ numbered_text industry_line industries) }
{
    for j in 0..industries {
        put_line(
            out,
            &[
                Field::Text(b"industry"),
                Field::Numbered(b'I', j + 1),
                Field::Empty,
            ],
        )?;
    }
    Ok(())
}

fn put_finals(out: &mut Vec<u8>) -> Result<(), NoMemory>
    ensures { OnOk result (out.new.items ≡ out.old.items ++ numbered_text final_line 3) }
{
    for k in 0..3 {
        put_line(
            out,
            &[
                Field::Text(b"final"),
                Field::Numbered(b'F', k + 1),
                Field::Empty,
            ],
        )?;
    }
    Ok(())
}

// The one item, and the one tax.
fn put_end(out: &mut Vec<u8>) -> Result<(), NoMemory>
    ensures { OnOk result (out.new.items ≡ out.old.items ++ line_text item_line ++ line_text tax_line) }
{
    put_line(
        out,
        &[Field::Text(b"item"), Field::Text(b"V1"), Field::Empty],
    )?;
    put_line(out, &[Field::Text(b"tax"), Field::Text(b"X"), Field::Empty])?;
    Ok(())
}

/// The text of the made classes.
pub fn classes_text(alloc: Global, products: u32, industries: u32) -> Result<Vec<u8>, NoMemory>
    requires products { products ≤ 512 }
    requires industries { industries ≤ 256 }
    ensures { IfOk result (λ t. t.items ≡ made_classes products industries) }
{
    let mut out = Vec::new(alloc);
    put_head(&mut out)?;
    put_products(&mut out, products)?;
    put_industries(&mut out, industries)?;
    put_finals(&mut out)?;
    put_end(&mut out)?;
    Ok(out)
}

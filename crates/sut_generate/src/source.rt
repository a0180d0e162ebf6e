//! The made source.

ghost use Rattle.std.specs.Prelude.{◌≡◌, ◌<◌, ◌≤◌, ◌++◌, IfOk, OnOk};
ghost use Rattle.sut_text.specs.Text.{line_text};
ghost use Rattle.sut_generate.specs.Generator.{added_line, made_source, service_line, source_header};
ghost use Rattle.sut_generate.specs.DrawnRows.{numbered_text};

use crate::rows::put_products;
use no_memory::NoMemory;
use std::alloc::Global;
use sut_text::fields::{Field, put_line};

fn put_header(out: &mut Vec<u8>) -> Result<(), NoMemory>
    ensures { OnOk result (out.new.items ≡ out.old.items ++ line_text source_header) }
{
    put_line(
        out,
        &[
            Field::Text(b"kind"),
            Field::Text(b"a"),
            Field::Text(b"b"),
            Field::Text(b"c"),
            Field::Text(b"target"),
            Field::Text(b"grade"),
            Field::Text(b"lower"),
            Field::Text(b"upper"),
        ],
    )
}

// The service of the trade product.
fn put_service(out: &mut Vec<u8>) -> Result<(), NoMemory>
    ensures { OnOk result (out.new.items ≡ out.old.items ++ line_text service_line) }
{
    put_line(
        out,
        &[
            Field::Text(b"service"),
            Field::Text(b"P1"),
            Field::Text(b"T"),
            Field::Empty,
            Field::Empty,
            Field::Empty,
            Field::Text(b"0"),
            Field::Text(b"1000000000000"),
        ],
    )
}

// The value added of each industry.
fn put_added(out: &mut Vec<u8>, industries: u32) -> Result<(), NoMemory>
    requires { industries ≤ 256 }
    ensures { OnOk result (out.new.items ≡ out.old.items ++ numbered_text added_line industries) }
{
    for j in 0..industries {
        put_line(
            out,
            &[
                Field::Text(b"added"),
                Field::Text(b"V1"),
                Field::Numbered(b'I', j + 1),
                Field::Empty,
                Field::Empty,
                Field::Empty,
                Field::Text(b"-1000000000000"),
                Field::Text(b"1000000000000"),
            ],
        )?;
    }
    Ok(())
}

/// The text of a made source.
pub fn source_text(
    alloc: Global,
    seed: u32,
    products: u32,
    industries: u32,
) -> Result<Vec<u8>, NoMemory>
    requires products { products ≤ 512 }
    requires industries { (0 < industries) × (industries ≤ 256) }
    ensures { IfOk result (λ t. t.items ≡ made_source seed products industries) }
{
    let mut out = Vec::new(alloc);
    put_header(&mut out)?;
    put_products(&mut out, seed, products, industries)?;
    put_service(&mut out)?;
    put_added(&mut out, industries)?;
    Ok(out)
}

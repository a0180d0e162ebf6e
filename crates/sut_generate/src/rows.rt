//! Rows with a drawn target, printed.

ghost use Rattle.std.specs.Prelude.{◌≡◌, ◌+◌, ◌^◌, ◌<◌, ◌≤◌, ◌++◌, ◌∷◌, [], IfOk, OnOk, map, decimal};
ghost use Rattle.sut_text.specs.Text.{line_text};
ghost use Rattle.sut_text.specs.Fields.{field_bytes};
ghost use Rattle.sut_generate.specs.Generator.{drawn_rows, final_row, industry_row, margin_rows, next_state, one_to, rows_of_product};
ghost use Rattle.sut_generate.specs.DrawnRows.{drawn_of, Draws};

use no_memory::NoMemory;
use sut_text::fields::{Field, put_line};

/// A row whose target is `base` plus a number below `span`.
#[derive(Clone, Copy)]
pub struct Row<'a> {
    pub kind: &'a [u8],
    pub a: Field<'a>,
    pub b: Field<'a>,
    pub c: Field<'a>,
    pub base: u32,
    pub span: u32,
}

fn next_state(state: u32) -> u32
    ensures same { result ≡ next_state state }
    ensures range { result < 2 ^ 31 }
{
    ((u64::from(state) * 1103515245 + 12345) % 2147483648) as u32
}

fn put_row(out: &mut Vec<u8>, row: &Row, target: u32) -> Result<(), NoMemory>
    ensures { OnOk result (out.new.items ≡ out.old.items ++ line_text (row.now.kind.now ∷ field_bytes row.now.a ∷ field_bytes row.now.b ∷ field_bytes row.now.c ∷ decimal target ∷ [] ∷ [] ∷ [] ∷ [])) }
{
    let fields = [
        Field::Text(row.kind),
        row.a,
        row.b,
        row.c,
        Field::Whole(i128::from(target)),
        Field::Empty,
        Field::Empty,
        Field::Empty,
    ];
    put_line(out, &fields)
}

// Draws the target of one row, and appends its line; gives the next state.
fn put_drawn(out: &mut Vec<u8>, state: u32, row: &Row) -> Result<u32, NoMemory>
    requires { (0 < row.now.span) × (row.now.span + row.now.base < 2 ^ 31) }
    ensures { IfOk result (λ s. Draws out.old.items state (drawn_of row.now ∷ []) out.new.items s) }
{
    let next = next_state(state);
    put_row(out, row, row.base + (next / 65536) % row.span)?;
    Ok(next)
}

// The uses of a product by each of the industries.
fn put_uses(out: &mut Vec<u8>, state: u32, product: u32, industries: u32) -> Result<u32, NoMemory>
    requires { industries ≤ 256 }
    ensures { IfOk result (λ s. Draws out.old.items state (map (industry_row product) (one_to industries)) out.new.items s) }
{
    let mut state = state;
    for j in 0..industries {
        let row = Row {
            kind: b"basic",
            a: Field::Numbered(b'P', product),
            b: Field::Numbered(b'I', j + 1),
            c: Field::Empty,
            base: 0,
            span: 200,
        };
        state = put_drawn(out, state, &row)?;
    }
    Ok(state)
}

// The uses of a product by each of the three final uses.
fn put_finals(out: &mut Vec<u8>, state: u32, product: u32) -> Result<u32, NoMemory>
    ensures { IfOk result (λ s. Draws out.old.items state (map (final_row product) (one_to 3)) out.new.items s) }
{
    let mut state = state;
    for k in 0..3 {
        let row = Row {
            kind: b"basic",
            a: Field::Numbered(b'P', product),
            b: Field::Numbered(b'F', k + 1),
            c: Field::Empty,
            base: 0,
            span: 2000,
        };
        state = put_drawn(out, state, &row)?;
    }
    Ok(state)
}

// The margin of a product but the first.
fn put_margin(out: &mut Vec<u8>, state: u32, product: u32) -> Result<u32, NoMemory>
    ensures { IfOk result (λ s. Draws out.old.items state (margin_rows product) out.new.items s) }
{
    if product == 1 {
        return Ok(state);
    }
    let row = Row {
        kind: b"margin",
        a: Field::Text(b"T"),
        b: Field::Numbered(b'P', product),
        c: Field::Text(b"F1"),
        base: 0,
        span: 100,
    };
    put_drawn(out, state, &row)
}

// The rows of a product.
fn put_product(
    out: &mut Vec<u8>,
    state: u32,
    product: u32,
    industries: u32,
) -> Result<u32, NoMemory>
    requires some { 0 < product }
    requires industries { (0 < industries) × (industries ≤ 256) }
    ensures { IfOk result (λ s. Draws out.old.items state (rows_of_product industries product) out.new.items s) }
{
    let make = Row {
        kind: b"make",
        a: Field::Numbered(b'P', product),
        b: Field::Numbered(b'I', (product - 1) % industries + 1),
        c: Field::Empty,
        base: 1000,
        span: 9000,
    };
    let import = Row {
        kind: b"import",
        a: Field::Numbered(b'P', product),
        b: Field::Empty,
        c: Field::Empty,
        base: 0,
        span: 1000,
    };
    let tax = Row {
        kind: b"tax",
        a: Field::Text(b"X"),
        b: Field::Numbered(b'P', product),
        c: Field::Text(b"F1"),
        base: 0,
        span: 100,
    };
    let made = put_drawn(out, state, &make)?;
    let imported = put_drawn(out, made, &import)?;
    let used = put_uses(out, imported, product, industries)?;
    let spent = put_finals(out, used, product)?;
    let margined = put_margin(out, spent, product)?;
    put_drawn(out, margined, &tax)
}

/// Appends the rows of all products, one draw each, from this state on; gives the state after them.
pub fn put_products(
    out: &mut Vec<u8>,
    state: u32,
    products: u32,
    industries: u32,
) -> Result<u32, NoMemory>
    requires products { products ≤ 512 }
    requires industries { (0 < industries) × (industries ≤ 256) }
    ensures { IfOk result (λ s. Draws out.old.items state (drawn_rows products industries) out.new.items s) }
{
    let mut state = state;
    for i in 0..products {
        state = put_product(out, state, i + 1, industries)?;
    }
    Ok(state)
}

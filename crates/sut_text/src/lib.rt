//! Whole numbers, fields and labels as texts. A call that appends answers `NoMemory` where memory runs out, and then
//! leaves `out` as it was; `put_words` may leave some of its words there too.
#![tactic(auto)]

ghost use Rattle.std.specs.Prelude.{◌≡◌, ◌++◌, ◌∷◌, [], if◌then◌else◌, is_ok, take, length, OnOk};
ghost use Rattle.std.specs.List.{flat_map};
ghost use Rattle.sut_text.specs.Text.{whole_text, optional_text, field_text, doubled, needs_quotes, quoted_text, Appends, Keeps};

pub mod fields;
pub mod labels;
pub mod numbers;

use itoa::Buffer;
pub use labels::Label;
use no_memory::NoMemory;
pub use numbers::{NumberFault, read_whole};

/// Appends bytes.
pub fn put_bytes(out: &mut Vec<u8>, bytes: &[u8]) -> Result<(), NoMemory>
    ensures { Appends out.old.items out.new.items (is_ok result) bytes.now }
{
    match out.extend_from_slice(bytes) {
        Ok(()) => Ok(()),
        Err(_) => Err(NoMemory),
    }
}

/// Appends one byte.
pub fn put_byte(out: &mut Vec<u8>, byte: u8) -> Result<(), NoMemory>
    ensures { Appends out.old.items out.new.items (is_ok result) (byte ∷ []) }
{
    match out.push(byte) {
        Ok(()) => Ok(()),
        Err(_) => Err(NoMemory),
    }
}

/// Appends the one spelling of a whole number: `-` where it is below 0, and its digits, with no zero before another digit.
pub fn put_whole(out: &mut Vec<u8>, n: i128) -> Result<(), NoMemory>
    ensures { Appends out.old.items out.new.items (is_ok result) (whole_text n) }
{
    let mut buffer = Buffer::new();
    put_bytes(out, buffer.format(n).as_bytes())
}

fn needs_quotes(field: &[u8]) -> bool
    ensures { result ≡ needs_quotes field.now }
{
    field.iter().any(|b| *b == b',' || (*b == b'"' || (*b == b'\r' || *b == b'\n')))
}

fn put_doubled(out: &mut Vec<u8>, byte: u8) -> Result<(), NoMemory>
    ensures { Appends out.old.items out.new.items (is_ok result) (doubled byte) }
{
    if byte == b'"' {
        put_bytes(out, b"\"\"")
    } else {
        put_byte(out, byte)
    }
}

fn put_all_doubled(out: &mut Vec<u8>, field: &[u8]) -> Result<(), NoMemory>
    ensures done { OnOk result (out.new.items ≡ out.old.items ++ flat_map doubled field.now) }
    ensures kept { Keeps out.old.items out.new.items }
{
    for byte in field {
        put_doubled(out, *byte)?;
    }
    Ok(())
}

fn put_in_quotes(out: &mut Vec<u8>, field: &[u8]) -> Result<(), NoMemory>
    ensures done { OnOk result (out.new.items ≡ out.old.items ++ quoted_text field.now) }
    ensures kept { Keeps out.old.items out.new.items }
{
    put_byte(out, b'"')?;
    put_all_doubled(out, field)?;
    put_byte(out, b'"')
}

/// Appends a field of a csv line, in quotes exactly where a byte of it is a comma, a quote, CR or LF. A quote within is
/// doubled.
pub fn put_field(out: &mut Vec<u8>, field: &[u8]) -> Result<(), NoMemory>
    ensures { Appends out.old.items out.new.items (is_ok result) (field_text field.now) }
{
    if !needs_quotes(field) {
        return put_bytes(out, field);
    }
    let start = out.len();
    match put_in_quotes(out, field) {
        Ok(()) => Ok(()),
        Err(NoMemory) => {
            out.truncate(start);
            Err(NoMemory)
        }
    }
}

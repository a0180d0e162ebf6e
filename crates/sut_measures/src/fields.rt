//! The fields of names: codes, columns and fields that must be empty.

ghost use Rattle.std.specs.Prelude.{◌≡◌, Ok};
ghost use Rattle.sut_measures.specs.ReadNames as names;

use crate::{Field, NameFault};
use sut_classes::{Axis, Classes, Column};

/// The place of a field's code.
pub fn place_in(classes: &Classes, axis: Axis, at: Field, text: &[u8]) -> Result<u16, NameFault>
    ensures { result ≡ names.code_in classes.now axis at text.now (λ n. Ok n) }
{
    match classes.find(axis, text) {
        Some(place) => Ok(place),
        None => Err(NameFault::UnknownCode(at)),
    }
}

/// A field that the kind doesn't use must be empty.
pub fn nothing_in(at: Field, text: &[u8]) -> Result<(), NameFault>
    ensures { result ≡ names.nothing_in at text.now (Ok tt) }
{
    if text.is_empty() {
        Ok(())
    } else {
        Err(NameFault::NotEmpty(at))
    }
}

/// The column of a field's code.
pub fn column_in(classes: &Classes, at: Field, text: &[u8]) -> Result<Column, NameFault>
    ensures { result ≡ names.column_in classes.now at text.now (λ q. Ok q) }
{
    match classes.column(text) {
        Some(column) => Ok(column),
        None => Err(NameFault::UnknownCode(at)),
    }
}

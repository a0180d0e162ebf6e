//! Codes of the classes in the texts.

ghost use Rattle.std.specs.Prelude.{◌≡◌};
ghost use Rattle.sut_measures.specs.Names.{code};

use sut_classes::{Axis, Classes};

// The code at a place; empty where the place isn't there.
pub(crate) fn code_of(classes: &Classes, axis: Axis, place: u16) -> &[u8]
    ensures { result.now ≡ code classes.now axis place }
{
    match classes.code(axis, place) {
        Some(code) => code,
        None => b"",
    }
}

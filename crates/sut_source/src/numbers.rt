//! The numbers of a row: its target and its bounds.

ghost use Rattle.std.specs.Prelude.{◌≡◌, IfOk, IfSome, Ok, option_map};
ghost use Rattle.sut_tables.specs.Rows.{InRange};
ghost use Rattle.sut_source.specs.RowFile.{bound_in, number_in, source_number, target_in, usual_lower, usual_upper};

use crate::faults::RowFault;
use sut_measures::Field;
use sut_text::{NumberFault, read_whole};

/// The largest number of a source, in whole currency units.
pub(crate) const LIMIT: i64 = 1_000_000_000_000;

fn in_range(at: Field, n: i128) -> Result<i64, RowFault>
    ensures value { result ≡ source_number at (Ok n) }
    ensures range { IfOk result InRange }
{
    if n < -1_000_000_000_000 || 1_000_000_000_000 < n {
        Err(RowFault::OutOfRange(at))
    } else {
        Ok(n as i64)
    }
}

// A number of a source, or why the field is none.
fn number_in(at: Field, text: &[u8]) -> Result<i64, RowFault>
    ensures value { result ≡ number_in at text.now }
    ensures range { IfOk result InRange }
{
    match read_whole(text) {
        Ok(n) => in_range(at, n),
        Err(NumberFault::TooWide) => Err(RowFault::OutOfRange(at)),
        Err(NumberFault::Empty) => Err(RowFault::NotNumber(at)),
        Err(NumberFault::BadByte(_)) => Err(RowFault::NotNumber(at)),
        Err(NumberFault::NotShortest) => Err(RowFault::NotNumber(at)),
    }
}

/// The target: none where the field is empty.
pub(crate) fn target_in(text: &[u8]) -> Result<Option<i64>, RowFault>
    ensures value { result ≡ target_in text.now }
    ensures range { IfOk result (λ target. IfSome target InRange) }
{
    if text.is_empty() {
        return Ok(None);
    }
    match number_in(Field::Target, text) {
        Ok(n) => Ok(Some(n)),
        Err(fault) => Err(fault),
    }
}

/// The lower bound of an empty field: 0 for a target of 0 or more, else -10^12; none without a target.
pub(crate) fn usual_lower(target: Option<i64>) -> Option<i64>
    ensures value { result ≡ option_map usual_lower target }
    ensures range { IfSome result InRange }
{
    match target {
        None => None,
        Some(n) => Some(if n < 0 { -LIMIT } else { 0 }),
    }
}

/// The upper bound of an empty field: 10^12 for a target of 0 or more, else 0; none without a target.
pub(crate) fn usual_upper(target: Option<i64>) -> Option<i64>
    ensures value { result ≡ option_map usual_upper target }
    ensures range { IfSome result InRange }
{
    match target {
        None => None,
        Some(n) => Some(if n < 0 { 0 } else { LIMIT }),
    }
}

/// A bound; an empty field is the usual one, and there is none without a target.
pub(crate) fn bound_in(at: Field, usual: Option<i64>, text: &[u8]) -> Result<i64, RowFault>
    requires { IfSome usual InRange }
    ensures value { result ≡ bound_in at usual text.now }
    ensures range { IfOk result InRange }
{
    if !text.is_empty() {
        return number_in(at, text);
    }
    match usual {
        Some(bound) => Ok(bound),
        None => Err(RowFault::NoTarget),
    }
}

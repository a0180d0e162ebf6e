//! The fields of a line of `balanced.csv`.

ghost use Rattle.std.specs.Prelude.{◌≡◌, ◌==◌, ◌<◌, ◌^◌, None, Some, IfOk, if◌then◌else◌, length};
ghost use Rattle.std.specs.Str.{bytes_eq};
ghost use Rattle.csv.specs.Records.{fields_of};
ghost use Rattle.sut_records.specs.RecordList.{field as field_of};
ghost use Rattle.sut_text.specs.Text.{optional_text, whole_text};
ghost use Rattle.sut_text.specs.Number.{whole_of};
ghost use Rattle.sut_tables.specs.Problems.{row_at};
ghost use Rattle.sut_readback.specs.BalancedText.{target_in, target_text};
ghost use Rattle.sut_readback.specs.BalancedFile.{is_cell_number, name_in, next_named as next_of, number_in, same_measure, value_in};

use crate::faults::BalancedCause;
use csv::ByteRecord;
use sut_measures::orders::measure_order;
use sut_measures::{Measure, NameFault, read_name};
use sut_records::field;
use sut_tables::Problem;
use sut_text::{NumberFault, read_whole};

// The largest number of a cell, in whole currency units.
const LIMIT: i128 = 1_000_000_000_000;

fn has_six_fields(row: &ByteRecord) -> bool
    ensures { result ≡ (length (fields_of row.now) == 6) }
{
    row.len() == 6
}

fn is_same(named: Measure, next: Measure) -> bool
    ensures { result ≡ same_measure named next }
{
    measure_order(named, next).is_eq()
}

fn read_measure(p: &Problem, row: &ByteRecord) -> Result<Measure, NameFault>
    ensures { result ≡ name_in p.now.classes (fields_of row.now) }
{
    read_name(
        p.classes(),
        field(row, 0),
        field(row, 1),
        field(row, 2),
        field(row, 3),
    )
}

// The next live measure, where the line names it.
fn next_named(p: &Problem, next: Option<Measure>, row: &ByteRecord) -> Option<Measure>
    ensures { result ≡ next_of next (name_in p.now.classes (fields_of row.now)) }
{
    match next {
        None => None,
        Some(next) => match read_measure(p, row) {
            Err(_) => None,
            Ok(named) => if is_same(named, next) {
                Some(next)
            } else {
                None
            },
        },
    }
}

/// The target of a measure's row, if it has a row and the row has one.
pub fn target_of(p: &Problem, m: Measure) -> Option<i64>
    ensures { result ≡ target_in (row_at p.now m) }
{
    match p.find(m) {
        Some(row) => row.target(),
        None => None,
    }
}

fn spells_number(text: &[u8], n: i64) -> bool
    ensures { result ≡ bytes_eq text.now (whole_text n) }
{
    match read_whole(text) {
        Ok(number) => number == i128::from(n),
        Err(_) => false,
    }
}

fn spells(text: &[u8], target: Option<i64>) -> bool
    ensures { result ≡ bytes_eq text.now (optional_text target) }
{
    match target {
        None => text.is_empty(),
        Some(n) => spells_number(text, n),
    }
}

fn has_target(p: &Problem, m: Measure, row: &ByteRecord) -> bool
    ensures { result ≡ bytes_eq (field_of (fields_of row.now) 4) (target_text p.now m) }
{
    spells(field(row, 4), target_of(p, m))
}

fn line_number(row: &ByteRecord) -> Result<i128, BalancedCause>
    ensures { result ≡ number_in (whole_of (field_of (fields_of row.now) 5)) }
{
    match read_whole(field(row, 5)) {
        Ok(number) => Ok(number),
        Err(NumberFault::TooWide) => Err(BalancedCause::OutOfRange),
        Err(_) => Err(BalancedCause::NotNumber),
    }
}

// A number of a cell, where it lies in -10^12 to 10^12.
pub(crate) fn cell_number(x: i128) -> Option<i64>
    ensures { result ≡ (if is_cell_number x then Some x else None) }
{
    if -LIMIT <= x && x <= LIMIT {
        Some(x as i64)
    } else {
        None
    }
}

// The measure and the value of a line, where this is the next live measure, or its first fault.
pub(crate) fn line_value(
    p: &Problem,
    next: Option<Measure>,
    row: &ByteRecord,
) -> Result<(Measure, i128), BalancedCause>
    ensures value { result ≡ value_in p.now next (fields_of row.now) }
    ensures next { IfOk result (λ v. next ≡ Some v.0) }
{
    if !has_six_fields(row) {
        return Err(BalancedCause::Csv);
    }
    let Some(measure) = next_named(p, next, row) else {
        return Err(BalancedCause::WrongMeasure);
    };
    if !has_target(p, measure, row) {
        return Err(BalancedCause::WrongTarget);
    }
    match line_number(row) {
        Ok(number) => Ok((measure, number)),
        Err(cause) => Err(cause),
    }
}

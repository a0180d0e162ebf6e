//! A row of a source, read from its eight fields.

ghost use Rattle.std.specs.Prelude.{◌≡◌, ◌<◌, IfOk, IsTrue, length, map};
ghost use Rattle.csv.specs.Records.{fields_of};
ghost use Rattle.sut_records.specs.RecordList.{field as field_of};
ghost use Rattle.sut_measures.specs.Fits.{fits};
ghost use Rattle.sut_source.specs.RowFile.{name_fault, row_fields, row_in};
ghost use Rattle.sut_source.specs.RowRules.{spelled_fields};
ghost use Rattle.sut_source.specs.SourceText.{HasGrade};

use crate::faults::RowFault;
use crate::grades::{grade_in, weight_in};
use crate::numbers::{bound_in, target_in, usual_lower, usual_upper};
use csv::ByteRecord;
use sut_classes::Classes;
use sut_measures::{Field, NameFault, read_name};
use sut_records::field;
use sut_settings::Settings;
use sut_tables::Row;

/// The fields of a row, as they stand in the file: the measure's kind and up to three codes, the target, the grade with
/// its penalty, and both bounds.
#[derive(Clone, Copy)]
pub struct RowText<'a> {
    pub kind: &'a [u8],
    pub a: &'a [u8],
    pub b: &'a [u8],
    pub c: &'a [u8],
    pub target: &'a [u8],
    pub grade: &'a [u8],
    pub lower: &'a [u8],
    pub upper: &'a [u8],
}

fn name_fault(fault: NameFault) -> RowFault
    ensures { result ≡ name_fault fault }
{
    match fault {
        NameFault::UnknownKind => RowFault::UnknownKind,
        NameFault::UnknownCode(at) => RowFault::UnknownCode(at),
        NameFault::NotEmpty(at) => RowFault::NotEmpty(at),
        NameFault::WrongService => RowFault::WrongService,
    }
}

/// The row that eight fields spell, or its first fault: the name, then the target, the grade with its penalty, the lower
/// bound, the upper bound, and then whether the bounds cross. An empty lower bound is 0 for a target of 0 or more and
/// else -10^12; an empty upper bound is 10^12 for a target of 0 or more and else 0.
pub fn row_from(s: &Settings, classes: &Classes, text: &RowText<'_>) -> Result<Row, RowFault>
    ensures value { result ≡ row_in s.now classes.now (spelled_fields text.now) }
    ensures fitting { IfOk result (λ r. IsTrue (fits classes.now r.measure)) }
    ensures graded { IfOk result (HasGrade s.now) }
{
    let measure = match read_name(classes, text.kind, text.a, text.b, text.c) {
        Ok(measure) => measure,
        Err(fault) => return Err(name_fault(fault)),
    };
    let target = match target_in(text.target) {
        Ok(target) => target,
        Err(fault) => return Err(fault),
    };
    let grade = match grade_in(s, target, text.grade) {
        Ok(grade) => grade,
        Err(fault) => return Err(fault),
    };
    let lower = match bound_in(Field::Lower, usual_lower(target), text.lower) {
        Ok(lower) => lower,
        Err(fault) => return Err(fault),
    };
    let upper = match bound_in(Field::Upper, usual_upper(target), text.upper) {
        Ok(upper) => upper,
        Err(fault) => return Err(fault),
    };
    let weight = weight_in(s, target, grade);
    match Row::new(
        measure,
        target,
        grade.penalty,
        grade.place,
        weight,
        lower,
        upper,
    ) {
        Some(row) => Ok(row),
        None => Err(RowFault::Crossed),
    }
}

/// The fields of a row that a record spells from its first field on.
pub(crate) fn row_text(row: &ByteRecord) -> RowText<'_>
    ensures { spelled_fields result ≡ row_fields 0 (fields_of row.now) }
{
    RowText {
        kind: field(row, 0),
        a: field(row, 1),
        b: field(row, 2),
        c: field(row, 3),
        target: field(row, 4),
        grade: field(row, 5),
        lower: field(row, 6),
        upper: field(row, 7),
    }
}

fn text_at(fields: &[Vec<u8>], place: usize) -> &[u8]
    requires { place < length fields.now }
    ensures { result.now ≡ field_of (map (λ v. v.items) fields.now) place }
{
    &fields[place]
}

/// The row that eight fields spell, or its first fault, from `UnknownKind` to `Crossed`.
pub fn read_row(s: &Settings, classes: &Classes, fields: &[Vec<u8>]) -> Result<Row, RowFault>
    requires { length fields.now ≡ 8 }
    ensures value { result ≡ row_in s.now classes.now (row_fields 0 (map (λ v. v.items) fields.now)) }
    ensures fitting { IfOk result (λ r. IsTrue (fits classes.now r.measure)) }
    ensures graded { IfOk result (HasGrade s.now) }
{
    let text = RowText {
        kind: text_at(fields, 0),
        a: text_at(fields, 1),
        b: text_at(fields, 2),
        c: text_at(fields, 3),
        target: text_at(fields, 4),
        grade: text_at(fields, 5),
        lower: text_at(fields, 6),
        upper: text_at(fields, 7),
    };
    row_from(s, classes, &text)
}

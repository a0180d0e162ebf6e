//! The grade field of a row: a grade of the settings, and a penalty behind a colon.

ghost use Rattle.std.specs.Prelude.{◌≡◌, ◌≤◌, IfOk, IfSome, Ok, length, position};
ghost use Rattle.std.specs.List.{position_or_len};
ghost use Rattle.sut_text.specs.Number.{whole_of};
ghost use Rattle.sut_tables.specs.Rows.{InRange, IsAim, IsPenalty};
ghost use Rattle.sut_source.specs.RowFile.{band_of, grade_in, is_colon, penalty_in, penalty_of, weight_for};
ghost use Rattle.sut_source.specs.RowRules.{IsGradeFor};

use crate::faults::RowFault;
use sut_measures::Field;
use sut_settings::{Settings, grade_place, weight_at};
use sut_tables::Penalty;
use sut_text::read_whole;

/// What a grade field gives: the place of a grade, 0 of the empty one, and a penalty.
#[derive(Debug, Clone, Copy)]
pub(crate) struct GradeField {
    pub place: u8,
    pub penalty: Penalty,
}

fn band_of(width: i128) -> Option<Penalty>
    ensures value { result ≡ band_of (Ok width) }
    ensures range { IfSome result IsPenalty }
{
    if width < 0 || 1_000_000_000_000 < width {
        None
    } else {
        Some(Penalty::Band(width as i64))
    }
}

fn band_in(text: &[u8]) -> Option<Penalty>
    ensures value { result ≡ band_of (whole_of text.now) }
    ensures range { IfSome result IsPenalty }
{
    match read_whole(text) {
        Ok(width) => band_of(width),
        Err(_) => None,
    }
}

fn penalty_named(text: &[u8]) -> Option<Penalty>
    ensures value { result ≡ penalty_of text.now }
    ensures range { IfSome result IsPenalty }
{
    if text == b"abs".as_slice() {
        Some(Penalty::Absolute)
    } else if text.starts_with(b"band:") {
        band_in(&text[5..])
    } else {
        None
    }
}

// The penalty that stands from the colon on, where there is one.
fn penalty_in(rest: &[u8]) -> Result<Penalty, RowFault>
    ensures value { result ≡ penalty_in rest.now }
    ensures range { IfOk result IsPenalty }
{
    if rest.is_empty() {
        return Ok(Penalty::Square);
    }
    match penalty_named(&rest[1..]) {
        Some(penalty) => Ok(penalty),
        None => Err(RowFault::BadPenalty),
    }
}

fn find_colon(text: &[u8]) -> Option<usize>
    ensures { result ≡ position is_colon text.now }
{
    text.iter().position(|b| *b == b':')
}

// The place of the first colon, or the text's length.
fn colon_in(text: &[u8]) -> usize
    ensures place { result ≡ position_or_len is_colon text.now }
    ensures within { result ≤ length text.now }
{
    match find_colon(text) {
        Some(place) => place,
        None => text.len(),
    }
}

// The grade and the penalty of a row with a target.
fn graded(s: &Settings, target: i64, text: &[u8]) -> Result<GradeField, RowFault>
    requires { InRange target }
    ensures value { result ≡ grade_in s.now (Some target) text.now }
    ensures good { IfOk result (IsGradeFor s.now (Some target)) }
{
    let colon = colon_in(text);
    let Some(place) = grade_place(s, &text[..colon]) else {
        return Err(RowFault::UnknownGrade);
    };
    match penalty_in(&text[colon..]) {
        Ok(penalty) => Ok(GradeField { place, penalty }),
        Err(fault) => Err(fault),
    }
}

/// The grade and the penalty of a row; without a target the field is empty.
pub(crate) fn grade_in(
    s: &Settings,
    target: Option<i64>,
    text: &[u8],
) -> Result<GradeField, RowFault>
    requires { IfSome target InRange }
    ensures value { result ≡ grade_in s.now target text.now }
    ensures good { IfOk result (IsGradeFor s.now target) }
{
    match target {
        Some(target) => graded(s, target, text),
        None => if text.is_empty() {
            Ok(GradeField {
                place: 0,
                penalty: Penalty::Square,
            })
        } else {
            Err(RowFault::NotEmpty(Field::Grade))
        },
    }
}

/// The weight of a row: 0 without a target.
pub(crate) fn weight_in(s: &Settings, target: Option<i64>, grade: GradeField) -> u32
    requires { IsGradeFor s.now target grade }
    ensures value { result ≡ weight_for s.now target grade.place }
    ensures aim { IsAim target grade.penalty grade.place result }
{
    match target {
        None => 0,
        Some(target) => match weight_at(s, grade.place, target) {
            Some(weight) => weight,
            None => unreachable!(),
        },
    }
}

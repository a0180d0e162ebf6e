//! Reading `classes.csv`.

ghost use Rattle.std.specs.Prelude.{◌≡◌, ◌≢◌, ◌<◌, ◌+◌, ◌==◌, ◌||◌, ◌^◌, Ok, Err, IfErr, IfOk, IfSome, IsTrue, length, nat_lt, [], ◌∷◌};
ghost use Rattle.std.specs.List.{list_all};
ghost use Rattle.std.specs.Bool.{MatchBool};
ghost use Rattle.csv.specs.Records.{fields_of};
ghost use Rattle.sut_records.specs.RecordList.{field as field_of};
ghost use Rattle.sut_records.specs.FirstFault.{and_then, read_lines};
ghost use Rattle.sut_classes.specs.ClassFile.{axis_named as axis_of, class_line, classes_of, format_of, group_read, is_code as is_code_text, is_code_byte, is_code_of, is_taken as is_taken_code, kind_read, limit_of, no_classes, with_code};
ghost use Rattle.sut_classes.specs.Kept.{MayAdd};
ghost use Rattle.sut_classes.specs.Places.{count_of};

use crate::classes::Classes;
use crate::faults::ClassFault;
use crate::ids::Axis;
use csv::ByteRecord;
use std::alloc::Global;
use sut_records::{Records, field, has_fields};

fn is_byte_of_code(b: u8) -> bool
    ensures { result ≡ is_code_byte b }
{
    b.is_ascii_alphanumeric() || b == b'_' || b == b'.' || b == b'-'
}

fn has_code_bytes(text: &[u8]) -> bool
    ensures { result ≡ list_all is_code_byte text.now }
{
    text.iter().all(|b| is_byte_of_code(*b))
}

/// Whether a text is a code: 1 to 32 letters, digits, `_`, `.` and `-`.
pub fn is_code(text: &[u8]) -> bool
    ensures { result ≡ is_code_text text.now }
{
    1 <= text.len() && text.len() <= 32 && has_code_bytes(text)
}

fn is_code_on(axis: Axis, text: &[u8]) -> bool
    ensures { result ≡ is_code_of axis text.now }
{
    is_code(text) && !(axis == Axis::Margin && text == b"plain".as_slice())
}

fn axis_named(format: u8, word: &[u8]) -> Option<Axis>
    ensures { result ≡ axis_of format word.now }
{
    if word == b"product".as_slice() {
        Some(Axis::Product)
    } else if word == b"industry".as_slice() {
        Some(Axis::Industry)
    } else if word == b"final".as_slice() {
        Some(Axis::Final)
    } else if word == b"item".as_slice() {
        Some(Axis::Item)
    } else if word == b"margin".as_slice() {
        Some(Axis::Margin)
    } else if word == b"tax".as_slice() {
        Some(Axis::Tax)
    } else if format == 2 && word == b"product_group".as_slice() {
        Some(Axis::ProductGroup)
    } else if format == 2 && word == b"industry_group".as_slice() {
        Some(Axis::IndustryGroup)
    } else {
        None
    }
}

fn limit(axis: Axis) -> usize
    ensures { result ≡ limit_of axis }
{
    match axis {
        Axis::Product => 512,
        Axis::Industry => 256,
        Axis::Final => 32,
        Axis::Item => 16,
        Axis::Margin => 4,
        Axis::Tax => 8,
        Axis::ProductGroup => 64,
        Axis::IndustryGroup => 32,
    }
}

fn is_taken(classes: &Classes, axis: Axis, code: &[u8]) -> bool
    ensures { result ≡ is_taken_code classes.now axis code.now }
{
    match axis {
        Axis::Industry | Axis::Final => classes.find(Axis::Industry, code).is_some()
            || classes.find(Axis::Final, code).is_some(),
        other => classes.find(other, code).is_some(),
    }
}

fn read_kind(classes: &Classes, axis: Axis, word: &[u8]) -> Option<Option<u16>>
    ensures { result ≡ kind_read classes.now axis word.now }
{
    match axis {
        Axis::Product => {
            if word == b"plain".as_slice() {
                return Some(None);
            }
            match classes.find(Axis::Margin, word) {
                Some(place) => Some(Some(place)),
                None => None,
            }
        }
        _ => if word.is_empty() { Some(None) } else { None },
    }
}

fn read_group(classes: &Classes, axis: Axis, word: &[u8]) -> Option<Option<u16>>
    ensures { result ≡ group_read classes.now axis word.now }
{
    if word.is_empty() {
        return Some(None);
    }
    let groups = match axis {
        Axis::Product => Axis::ProductGroup,
        Axis::Industry => Axis::IndustryGroup,
        _ => return None,
    };
    match classes.find(groups, word) {
        Some(place) => Some(Some(place)),
        None => None,
    }
}

// What a line adds.
#[derive(Clone, Copy)]
struct NewCode {
    axis: Axis,
    kind: Option<u16>,
    group: Option<u16>,
}

// The steps of a line, each over the fields of its record.

fn has_width(classes: &Classes, row: &ByteRecord) -> bool
    ensures { result ≡ (length (fields_of row.now) == classes.now.format + 2) }
{
    row.len() == classes.format() as usize + 2
}

fn line_axis(classes: &Classes, row: &ByteRecord) -> Option<Axis>
    ensures { result ≡ axis_of classes.now.format (field_of (fields_of row.now) 0) }
{
    axis_named(classes.format(), field(row, 0))
}

fn has_code(axis: Axis, row: &ByteRecord) -> bool
    ensures { result ≡ is_code_of axis (field_of (fields_of row.now) 1) }
{
    is_code_on(axis, field(row, 1))
}

fn line_kind(classes: &Classes, axis: Axis, row: &ByteRecord) -> Option<Option<u16>>
    ensures { result ≡ kind_read classes.now axis (field_of (fields_of row.now) 2) }
{
    read_kind(classes, axis, field(row, 2))
}

fn line_group(classes: &Classes, axis: Axis, row: &ByteRecord) -> Option<Option<u16>>
    ensures { result ≡ group_read classes.now axis (field_of (fields_of row.now) 3) }
{
    read_group(classes, axis, field(row, 3))
}

fn has_taken(classes: &Classes, axis: Axis, row: &ByteRecord) -> bool
    ensures { result ≡ is_taken_code classes.now axis (field_of (fields_of row.now) 1) }
{
    is_taken(classes, axis, field(row, 1))
}

fn has_room(classes: &Classes, axis: Axis) -> bool
    ensures { result ≡ nat_lt (count_of classes.now axis) (limit_of axis) }
{
    classes.count(axis) < limit(axis)
}

// What a line adds to the classes of the lines before it, or its first fault.
fn judge_line(classes: &Classes, line: u64, row: &ByteRecord) -> Result<NewCode, ClassFault>
    ensures judged { class_line line classes.now (fields_of row.now) ≡ and_then result (λ e. Ok (with_code classes.now e.axis (field_of (fields_of row.now) 1) e.kind e.group)) }
    ensures allowed { IfOk result (λ e. MayAdd classes.now e.axis (field_of (fields_of row.now) 1) e.kind e.group) }
{
    if !has_width(classes, row) {
        return Err(ClassFault::Csv(line));
    }
    let Some(axis) = line_axis(classes, row) else {
        return Err(ClassFault::UnknownAxis(line));
    };
    if !has_code(axis, row) {
        return Err(ClassFault::BadCode(line));
    }
    let Some(kind) = line_kind(classes, axis, row) else {
        return Err(ClassFault::UnknownKind(line));
    };
    let Some(group) = line_group(classes, axis, row) else {
        return Err(ClassFault::UnknownGroup(line));
    };
    if has_taken(classes, axis, row) {
        return Err(ClassFault::Duplicate(line));
    }
    if !has_room(classes, axis) {
        return Err(ClassFault::TooMany(axis));
    }
    Ok(NewCode { axis, kind, group })
}

// Adds what a line adds, or answers its first fault.
fn add_line(
    alloc: Global,
    classes: &mut Classes,
    line: u64,
    row: &ByteRecord,
) -> Result<(), ClassFault>
    ensures { result ≢ Err ClassFault.NoMemory → class_line line classes.old (fields_of row.now) ≡ and_then result (λ _. Ok classes.new) }
{
    let new = match judge_line(classes, line, row) {
        Ok(new) => new,
        Err(fault) => return Err(fault),
    };
    let code = match Vec::from_slice(alloc, field(row, 1)) {
        Ok(code) => code,
        Err(_) => return Err(ClassFault::NoMemory),
    };
    match classes.add(new.axis, code, new.kind, new.group) {
        Ok(()) => Ok(()),
        Err(_) => Err(ClassFault::NoMemory),
    }
}

// The format that a header chooses.
fn format_named(header: &ByteRecord) -> Option<u8>
    ensures value { result ≡ format_of (fields_of header.now) }
    ensures known { IfSome result (λ f. IsTrue ((f == 1) || (f == 2))) }
{
    if has_fields(
        header,
        &[b"axis".as_slice(), b"code".as_slice(), b"kind".as_slice()],
    ) {
        Some(1)
    } else if has_fields(
        header,
        &[
            b"axis".as_slice(),
            b"code".as_slice(),
            b"kind".as_slice(),
            b"group".as_slice(),
        ],
    ) {
        Some(2)
    } else {
        None
    }
}

// Takes the next record.
fn next_line(records: &mut Records<'_>, row: &mut ByteRecord) -> Result<bool, ClassFault>
    ensures next { IfOk result (λ found. MatchBool found (records.old ≡ fields_of row.new ∷ records.new) (records.old ≡ [])) }
    ensures memory { IfErr result (λ e. e ≡ ClassFault.NoMemory) }
{
    match records.next(row) {
        Ok(found) => Ok(found),
        Err(_) => Err(ClassFault::NoMemory),
    }
}

// Reads the lines that are left, the first of them line 2.
fn read_all(
    alloc: Global,
    records: &mut Records<'_>,
    row: &mut ByteRecord,
    classes: &mut Classes,
) -> Result<(), ClassFault>
    requires { length records.old < 2 ^ 63 }
    ensures { result ≢ Err ClassFault.NoMemory → read_lines class_line 2 classes.old records.old ≡ and_then result (λ _. Ok classes.new) }
{
    let mut line: u64 = 1;
    'lines: while next_line(records, row)? {
        line += 1;
        if let Err(fault) = add_line(alloc, classes, line, row) {
            return Err(fault);
        }
    }
    Ok(())
}

// Reads the lines under a header of this format.
fn read_under(
    alloc: Global,
    records: &mut Records<'_>,
    row: &mut ByteRecord,
    format: u8,
) -> Result<Classes, ClassFault>
    requires few { length records.old < 2 ^ 63 }
    requires known { IsTrue ((format == 1) || (format == 2)) }
    ensures { result ≢ Err ClassFault.NoMemory → result ≡ read_lines class_line 2 (no_classes format) records.old }
{
    let mut classes = Classes::empty(alloc, format);
    match read_all(alloc, records, row, &mut classes) {
        Ok(()) => Ok(classes),
        Err(fault) => Err(fault),
    }
}

/// Reads classes: under the header `axis,code,kind` (format 1) or `axis,code,kind,group` (format 2) a code on each line,
/// with its kind and its group. The answer is the lists, each in the order of the file, or the first fault.
pub fn read_classes(alloc: Global, bytes: &[u8]) -> Result<Classes, ClassFault>
    ensures { result ≢ Err ClassFault.NoMemory → result ≡ classes_of bytes.now }
{
    let mut records = Records::new(alloc, bytes);
    let mut row = ByteRecord::new(alloc);
    if !next_line(&mut records, &mut row)? {
        return Err(ClassFault::Header);
    }
    match format_named(&row) {
        Some(format) => read_under(alloc, &mut records, &mut row, format),
        None => Err(ClassFault::Header),
    }
}

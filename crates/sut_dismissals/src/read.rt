//! Reading `dismiss.csv`.

ghost use Rattle.std.specs.Prelude.{◌≡◌, ◌≢◌, ◌≤◌, ◌<◌, ◌==◌, ◌^◌, ◌++◌, ◌∷◌, [], All, Ok, Err, IfErr, IfOk, IfSome, OnOk, length};
ghost use Rattle.std.specs.Bool.{MatchBool};
ghost use Rattle.csv.specs.Records.{fields_of};
ghost use Rattle.sut_records.specs.RecordList.{field as field_of, same_fields};
ghost use Rattle.sut_records.specs.FirstFault.{and_then, read_lines};
ghost use Rattle.sut_dismissals.specs.DismissFile.{dismiss_header, dismiss_line, dismissals_of, last_year, line_added, under_header, year_among, year_in};
ghost use Rattle.sut_dismissals.specs.DismissRules.{AreDismissals};

use crate::dismissals::DismissLine;
use crate::faults::{DismissCause, DismissFault};
use csv::ByteRecord;
use std::alloc::Global;
use sut_records::{Records, field, has_fields};
use sut_text::{Label, read_whole};

const NO_HEADER: DismissFault = DismissFault {
    line: 1,
    cause: DismissCause::Header,
};

fn is_header(row: &ByteRecord) -> bool
    ensures { result ≡ same_fields (fields_of row.now) dismiss_header }
{
    has_fields(row, &[b"year".as_slice(), b"label".as_slice()])
}

// Takes the next record, after the one at a line.
fn next_line(
    records: &mut Records<'_>,
    row: &mut ByteRecord,
    line: u64,
) -> Result<bool, DismissFault>
    ensures next { IfOk result (λ found. MatchBool found (records.old ≡ fields_of row.new ∷ records.new) (records.old ≡ [])) }
    ensures memory { IfErr result (λ e. e.cause ≡ DismissCause.NoMemory) }
{
    match records.next(row) {
        Ok(found) => Ok(found),
        Err(_) => Err(DismissFault {
            line,
            cause: DismissCause::NoMemory,
        }),
    }
}

// Takes the first record, which has to be the header.
fn read_header(records: &mut Records<'_>, row: &mut ByteRecord) -> Result<(), DismissFault>
    ensures few { OnOk result (length records.new ≤ length records.old) }
    ensures value { (IfErr result (λ e. e.cause ≢ DismissCause.NoMemory)) → under_header records.old ≡ and_then result (λ _. Ok records.new) }
    ensures read { IfErr result (λ e. e.cause ≢ DismissCause.NoReviewer) }
{
    let found = match next_line(records, row, 1) {
        Ok(found) => found,
        Err(fault) => return Err(fault),
    };
    if !found {
        return Err(NO_HEADER);
    }
    if !is_header(row) {
        return Err(NO_HEADER);
    }
    Ok(())
}

// The year of the last line, and 1 where there is none.
fn last_year(lines: &[DismissLine]) -> u8
    ensures { result ≡ last_year lines.now }
{
    match lines.last() {
        Some(line) => line.year,
        None => 1,
    }
}

// A number from the first of these years to the last.
fn year_among(first: u8, last: u8, number: i128) -> Option<u8>
    ensures value { result ≡ year_among first last (Ok number) }
    ensures within { IfSome result (λ year. (first ≤ year) × (year ≤ last)) }
{
    if number < i128::from(first) || number > i128::from(last) {
        return None;
    }
    Some(number as u8)
}

// The year that a text spells, after the lines before it.
fn year_in(years: u8, before: &[DismissLine], text: &[u8]) -> Option<u8>
    ensures value { result ≡ year_in years before.now text.now }
    ensures within { IfSome result (λ year. (last_year before.now ≤ year) × (year ≤ years)) }
{
    match read_whole(text) {
        Ok(number) => year_among(last_year(before), years, number),
        Err(_) => None,
    }
}

fn label_in(alloc: Global, row: &ByteRecord) -> Result<Label, DismissCause>
    ensures value { IfOk result (λ l. l ≡ field_of (fields_of row.now) 1) }
    ensures memory { IfErr result (λ c. c ≡ DismissCause.NoMemory) }
{
    match Vec::from_slice(alloc, field(row, 1)) {
        Ok(bytes) => Ok(Label::new(bytes)),
        Err(_) => Err(DismissCause::NoMemory),
    }
}

// Adds the dismissal of a line, unless there are too many.
fn add_dismissal(
    alloc: Global,
    lines: &mut Vec<DismissLine>,
    line: u64,
    year: u8,
    row: &ByteRecord,
) -> Result<(), DismissCause>
    ensures added { OnOk result (lines.new.items ≡ lines.old.items ++ record { line = line; year = year; label = field_of (fields_of row.now) 1 } ∷ []) }
    ensures few { OnOk result (length lines.new.items ≤ 64) }
    ensures value { result ≢ Err DismissCause.NoMemory → line_added line lines.old.items year (field_of (fields_of row.now) 1) ≡ and_then result (λ _. Ok lines.new.items) }
    ensures read { result ≢ Err DismissCause.NoReviewer }
{
    if lines.len() >= 64 {
        return Err(DismissCause::TooMany);
    }
    let label = match label_in(alloc, row) {
        Ok(label) => label,
        Err(cause) => return Err(cause),
    };
    match lines.push(DismissLine { line, year, label }) {
        Ok(()) => Ok(()),
        Err(_) => Err(DismissCause::NoMemory),
    }
}

fn has_two_fields(row: &ByteRecord) -> bool
    ensures { result ≡ (length (fields_of row.now) == 2) }
{
    row.len() == 2
}

// Adds the dismissal of a line, or answers its first fault.
fn add_line(
    alloc: Global,
    years: u8,
    lines: &mut Vec<DismissLine>,
    line: u64,
    row: &ByteRecord,
) -> Result<(), DismissFault>
    requires good { AreDismissals years lines.old.items }
    ensures good { OnOk result (AreDismissals years lines.new.items) }
    ensures value { (IfErr result (λ e. e.cause ≢ DismissCause.NoMemory)) → dismiss_line years line lines.old.items (fields_of row.now) ≡ and_then result (λ _. Ok lines.new.items) }
    ensures read { IfErr result (λ e. e.cause ≢ DismissCause.NoReviewer) }
{
    if !has_two_fields(row) {
        return Err(DismissFault {
            line,
            cause: DismissCause::Csv,
        });
    }
    let year = match year_in(years, lines, field(row, 0)) {
        Some(year) => year,
        None => {
            return Err(DismissFault {
                line,
                cause: DismissCause::WrongYear,
            });
        }
    };
    match add_dismissal(alloc, lines, line, year, row) {
        Ok(()) => Ok(()),
        Err(cause) => Err(DismissFault { line, cause }),
    }
}

// Reads the lines that are left, the first of them line 2.
fn read_all(
    alloc: Global,
    years: u8,
    records: &mut Records<'_>,
    row: &mut ByteRecord,
    lines: &mut Vec<DismissLine>,
) -> Result<(), DismissFault>
    requires few { length records.old < 2 ^ 63 }
    requires good { AreDismissals years lines.old.items }
    ensures good { OnOk result (AreDismissals years lines.new.items) }
    ensures value { (IfErr result (λ e. e.cause ≢ DismissCause.NoMemory)) → read_lines (dismiss_line years) 2 lines.old.items records.old ≡ and_then result (λ _. Ok lines.new.items) }
    ensures read { IfErr result (λ e. e.cause ≢ DismissCause.NoReviewer) }
{
    let mut line: u64 = 1;
    'lines: while next_line(records, row, line)? {
        line += 1;
        if let Err(fault) = add_line(alloc, years, lines, line, row) {
            return Err(fault);
        }
    }
    Ok(())
}

/// Reads the dismissals of a series of so many years: the header `year,label`, and on each later line a year from 1 to the
/// last, in shortest decimal and not below that of the line before, and a label, which may be empty. At most 64 lines. The
/// answer is the dismissals with their lines, or the first fault with its line, where `NoMemory` may stand at any line. It
/// never answers `NoReviewer`.
pub fn read_dismiss(
    alloc: Global,
    years: u8,
    bytes: &[u8],
) -> Result<Vec<DismissLine>, DismissFault>
    ensures value { (IfErr result (λ e. e.cause ≢ DismissCause.NoMemory)) → dismissals_of years bytes.now ≡ and_then result (λ v. Ok v.items) }
    ensures few { IfOk result (λ v. length v.items ≤ 64) }
    ensures years { IfOk result (λ v. All (λ l. (1 ≤ l.year) × (l.year ≤ years)) v.items) }
    ensures read { IfErr result (λ e. e.cause ≢ DismissCause.NoReviewer) }
{
    let mut records = Records::new(alloc, bytes);
    let mut row = ByteRecord::new(alloc);
    if let Err(fault) = read_header(&mut records, &mut row) {
        return Err(fault);
    }
    let mut lines = Vec::new(alloc);
    match read_all(alloc, years, &mut records, &mut row, &mut lines) {
        Ok(()) => Ok(lines),
        Err(fault) => Err(fault),
    }
}

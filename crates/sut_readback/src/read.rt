//! Reading `balanced.csv`.

ghost use Rattle.std.specs.Prelude.{◌≡◌, ◌≢◌, ◌∷◌, ◌+◌, ◌<◌, ◌^◌, ◌==◌, [], Ok, Some, IfErr, IfOk, length};
ghost use Rattle.std.specs.Bool.{MatchBool};
ghost use Rattle.csv.specs.Records.{fields_of};
ghost use Rattle.sut_records.specs.RecordList.{same_fields};
ghost use Rattle.sut_records.specs.FirstFault.{and_then, read_lines};
ghost use Rattle.sut_tables.specs.Breaks.{first_of};
ghost use Rattle.sut_tables.specs.Problems.{IsTableOf};
ghost use Rattle.sut_readback.specs.BalancedText.{balanced_header};
ghost use Rattle.sut_readback.specs.BalancedFile.{balanced_of, line_given, table_in, table_line, with_value, wrong_header};

use crate::faults::{BalancedCause, BalancedFault};
use crate::lines::{cell_number, line_value};
use crate::reading::Reading;
use csv::ByteRecord;
use std::alloc::Global;
use sut_measures::{Cell, Measure, Total};
use sut_records::{Records, has_fields};
use sut_tables::{Problem, Table};

// A cell's value lies in -10^12 to 10^12.
fn take_cell(reading: &mut Reading, cell: Cell, x: i128) -> Result<(), BalancedCause>
    requires { first_of reading.old.coming ≡ Some (Measure.Cell cell) }
    ensures { with_value reading.old (Measure.Cell cell) x ≡ and_then result (λ _. Ok reading.new) }
{
    match cell_number(x) {
        Some(number) => {
            reading.put(cell, number);
            Ok(())
        }
        None => Err(BalancedCause::OutOfRange),
    }
}

// A total's value is its sum over the cells that were read.
fn take_total(reading: &mut Reading, total: Total, x: i128) -> Result<(), BalancedCause>
    requires { first_of reading.old.coming ≡ Some (Measure.Total total) }
    ensures { with_value reading.old (Measure.Total total) x ≡ and_then result (λ _. Ok reading.new) }
{
    let sum = reading.sum(total);
    if x != sum {
        return Err(BalancedCause::WrongTotal { printed: x, sum });
    }
    reading.pass(total);
    Ok(())
}

// The value of the next measure.
fn take_value(reading: &mut Reading, measure: Measure, x: i128) -> Result<(), BalancedCause>
    requires { first_of reading.old.coming ≡ Some measure }
    ensures { with_value reading.old measure x ≡ and_then result (λ _. Ok reading.new) }
{
    match measure {
        Measure::Cell(cell) => take_cell(reading, cell, x),
        Measure::Total(total) => take_total(reading, total, x),
    }
}

fn take_line(p: &Problem, reading: &mut Reading, row: &ByteRecord) -> Result<(), BalancedCause>
    ensures { line_given p.now reading.old (fields_of row.now) ≡ and_then result (λ _. Ok reading.new) }
{
    match line_value(p, reading.next(), row) {
        Ok(value) => take_value(reading, value.0, value.1),
        Err(cause) => Err(cause),
    }
}

// Takes what a line gives, or answers its first fault.
fn read_line(
    p: &Problem,
    reading: &mut Reading,
    line: u64,
    row: &ByteRecord,
) -> Result<(), BalancedFault>
    ensures { table_line p.now line reading.old (fields_of row.now) ≡ and_then result (λ _. Ok reading.new) }
{
    match take_line(p, reading, row) {
        Ok(()) => Ok(()),
        Err(cause) => Err(BalancedFault { line, cause }),
    }
}

// Takes the next record, on this line.
fn next_line(
    records: &mut Records<'_>,
    row: &mut ByteRecord,
    line: u64,
) -> Result<bool, BalancedFault>
    ensures next { IfOk result (λ found. MatchBool found (records.old ≡ fields_of row.new ∷ records.new) (records.old ≡ [])) }
    ensures memory { IfErr result (λ e. e.cause ≡ BalancedCause.NoMemory) }
{
    match records.next(row) {
        Ok(found) => Ok(found),
        Err(_) => Err(BalancedFault {
            line,
            cause: BalancedCause::NoMemory,
        }),
    }
}

// Reads the lines that are left, the first of them line 2, and answers the line after the last.
fn read_all(
    p: &Problem,
    records: &mut Records<'_>,
    row: &mut ByteRecord,
    reading: &mut Reading,
) -> Result<u64, BalancedFault>
    requires { length records.old < 2 ^ 63 }
    ensures read { (IfErr result (λ e. e.cause ≢ BalancedCause.NoMemory)) → read_lines (table_line p.now) 2 reading.old records.old ≡ and_then result (λ _. Ok reading.new) }
    ensures end { IfOk result (λ line. line ≡ length records.old + 2) }
{
    let mut line: u64 = 2;
    'lines: while next_line(records, row, line)? {
        if let Err(fault) = read_line(p, reading, line, row) {
            return Err(fault);
        }
        line += 1;
    }
    Ok(line)
}

// Reads the lines under the header.
fn read_table(
    alloc: Global,
    p: &Problem,
    records: &mut Records<'_>,
    row: &mut ByteRecord,
) -> Result<Table, BalancedFault>
    requires { length records.old < 2 ^ 63 }
    ensures { (IfErr result (λ e. e.cause ≢ BalancedCause.NoMemory)) → result ≡ table_in p.now records.old }
{
    let mut reading = match Reading::new(alloc, p) {
        Ok(reading) => reading,
        Err(_) => {
            return Err(BalancedFault {
                line: 2,
                cause: BalancedCause::NoMemory,
            });
        }
    };
    let line = match read_all(p, records, row, &mut reading) {
        Ok(line) => line,
        Err(fault) => return Err(fault),
    };
    match reading.next() {
        Some(_) => Err(BalancedFault {
            line,
            cause: BalancedCause::Short,
        }),
        None => Ok(reading.into_table()),
    }
}

fn no_header() -> BalancedFault
    ensures { result ≡ wrong_header }
{
    BalancedFault {
        line: 1,
        cause: BalancedCause::Header,
    }
}

fn is_header(row: &ByteRecord) -> bool
    ensures { result ≡ same_fields (fields_of row.now) balanced_header }
{
    has_fields(
        row,
        &[
            b"kind".as_slice(),
            b"a".as_slice(),
            b"b".as_slice(),
            b"c".as_slice(),
            b"target".as_slice(),
            b"value".as_slice(),
        ],
    )
}

/// Reads the text of a table of a problem: under the header `kind,a,b,c,target,value` each live
/// measure in order, with the target of its row and its value. Want of memory may stand at any
/// line; else the answer is the table, or the first fault with its line.
pub fn read_balanced(alloc: Global, p: &Problem, bytes: &[u8]) -> Result<Table, BalancedFault>
    ensures read { (IfErr result (λ e. e.cause ≢ BalancedCause.NoMemory)) → result ≡ balanced_of p.now bytes.now }
    ensures belongs { IfOk result (λ t. IsTableOf p.now t) }
{
    p.kept();
    let mut records = Records::new(alloc, bytes);
    let mut row = ByteRecord::new(alloc);
    if !next_line(&mut records, &mut row, 1)? {
        return Err(no_header());
    }
    if !is_header(&row) {
        return Err(no_header());
    }
    read_table(alloc, p, &mut records, &mut row)
}

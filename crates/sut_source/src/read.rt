//! Reading `source.csv`.

ghost use Rattle.std.specs.Prelude.{◌≡◌, ◌≢◌, ◌<◌, ◌≤◌, ◌^◌, ◌∷◌, [], Ok, IfErr, IfOk, OnOk, length, All};
ghost use Rattle.std.specs.Bool.{MatchBool};
ghost use Rattle.csv.specs.Records.{fields_of};
ghost use Rattle.sut_records.specs.RecordList.{same_fields};
ghost use Rattle.sut_records.specs.FirstFault.{and_then, read_lines};
ghost use Rattle.sut_source.specs.SourceFile.{problem_from, source_header, source_line, source_of, under_header};
ghost use Rattle.sut_source.specs.SourceText.{HasGrade};
ghost use Rattle.sut_source.specs.LinedRows.{KeepsLines, lined_rows};

use crate::faults::{RowFault, SourceFault};
use crate::lines::add_line;
use csv::ByteRecord;
use std::alloc::Global;
use std::collections::BTreeMap;
use sut_classes::Classes;
use sut_measures::Measure;
use sut_records::{Records, has_fields};
use sut_settings::Settings;
use sut_tables::Problem;

fn is_header(row: &ByteRecord) -> bool
    ensures { result ≡ same_fields (fields_of row.now) source_header }
{
    has_fields(
        row,
        &[
            b"kind".as_slice(),
            b"a".as_slice(),
            b"b".as_slice(),
            b"c".as_slice(),
            b"target".as_slice(),
            b"grade".as_slice(),
            b"lower".as_slice(),
            b"upper".as_slice(),
        ],
    )
}

// Takes the next record, after the one at a line.
fn next_line(
    records: &mut Records<'_>,
    row: &mut ByteRecord,
    line: u64,
) -> Result<bool, SourceFault>
    ensures next { IfOk result (λ found. MatchBool found (records.old ≡ fields_of row.new ∷ records.new) (records.old ≡ [])) }
    ensures memory { IfErr result (λ e. e.cause ≡ RowFault.NoMemory) }
{
    match records.next(row) {
        Ok(found) => Ok(found),
        Err(_) => Err(SourceFault {
            line,
            cause: RowFault::NoMemory,
        }),
    }
}

const NO_HEADER: SourceFault = SourceFault {
    line: 1,
    cause: RowFault::Header,
};

// Takes the first record, which has to be the header.
fn read_header(records: &mut Records<'_>, row: &mut ByteRecord) -> Result<(), SourceFault>
    ensures few { OnOk result (length records.new ≤ length records.old) }
    ensures value { (IfErr result (λ e. e.cause ≢ RowFault.NoMemory)) → under_header records.old ≡ and_then result (λ _. Ok records.new) }
{
    let found = match next_line(records, row, 1) {
        Ok(found) => found,
        Err(fault) => return Err(fault),
    };
    if !found {
        return Err(NO_HEADER);
    }
    if !is_header(row) {
        return Err(NO_HEADER);
    }
    Ok(())
}

// Reads the lines that are left, the first of them line 2.
fn read_all(
    s: &Settings,
    records: &mut Records<'_>,
    row: &mut ByteRecord,
    problem: &mut Problem,
    lines: &mut BTreeMap<Measure, u64>,
) -> Result<(), SourceFault>
    requires few { length records.old < 2 ^ 63 }
    requires keeps { KeepsLines problem.old.rows lines.old.entries }
    ensures keeps { OnOk result (KeepsLines problem.new.rows lines.new.entries) }
    ensures classes { OnOk result (problem.new.classes ≡ problem.old.classes) }
    ensures value { (IfErr result (λ e. e.cause ≢ RowFault.NoMemory)) → read_lines (source_line s.now problem.old.classes) 2 (lined_rows problem.old.rows lines.old.entries) records.old ≡ and_then result (λ _. Ok (lined_rows problem.new.rows lines.new.entries)) }
{
    let mut line: u64 = 1;
    'source: while next_line(records, row, line)? {
        line += 1;
        if let Err(fault) = add_line(s, problem, lines, line, row) {
            return Err(fault);
        }
    }
    Ok(())
}

// Reads the lines under the header.
fn read_under(
    alloc: Global,
    s: &Settings,
    classes: Classes,
    records: &mut Records<'_>,
    row: &mut ByteRecord,
) -> Result<Problem, SourceFault>
    requires { length records.old < 2 ^ 63 }
    ensures { (IfErr result (λ e. e.cause ≢ RowFault.NoMemory)) → result ≡ problem_from classes (read_lines (source_line s.now classes) 2 [] records.old) }
{
    let mut problem = Problem::new(alloc, classes);
    let mut lines = BTreeMap::new(alloc);
    match read_all(s, records, row, &mut problem, &mut lines) {
        Ok(()) => Ok(problem),
        Err(fault) => Err(fault),
    }
}

/// Reads a source: the header `kind,a,b,c,target,grade,lower,upper`, and a row on each later line. The answer is the
/// problem of these rows, in measure order, or the first fault with its line; `NoMemory` may stand at any line. Each row
/// has a grade of the settings, and this grade's weight for its target.
pub fn read_source(
    alloc: Global,
    s: &Settings,
    classes: Classes,
    bytes: &[u8],
) -> Result<Problem, SourceFault>
    ensures value { (IfErr result (λ e. e.cause ≢ RowFault.NoMemory)) → result ≡ source_of s.now classes bytes.now }
    ensures graded { IfOk result (λ p. All (HasGrade s.now) p.rows) }
{
    let mut records = Records::new(alloc, bytes);
    let mut row = ByteRecord::new(alloc);
    match read_header(&mut records, &mut row) {
        Ok(()) => read_under(alloc, s, classes, &mut records, &mut row),
        Err(fault) => Err(fault),
    }
}

//! The rows of the lines that were read, each with its line.

ghost use Rattle.std.specs.Prelude.{◌≡◌, ◌≢◌, ◌==◌, Ok, Err, IfErr, IsTrue, OnOk, length};
ghost use Rattle.std.specs.BTreeMap.{is_at};
ghost use Rattle.std.specs.Map.{lookup};
ghost use Rattle.csv.specs.Records.{fields_of};
ghost use Rattle.sut_records.specs.FirstFault.{and_then};
ghost use Rattle.sut_measures.specs.Fits.{fits};
ghost use Rattle.sut_tables.specs.LiveTallies.{measure_cmp};
ghost use Rattle.sut_source.specs.SourceFile.{row_added, source_line};
ghost use Rattle.sut_source.specs.LinedRows.{KeepsLines, lined_rows};

use crate::faults::{RowFault, SourceFault};
use crate::rows::{row_from, row_text};
use csv::ByteRecord;
use std::collections::BTreeMap;
use sut_measures::Measure;
use sut_settings::Settings;
use sut_tables::{AddFault, Problem, Row};

fn line_of(lines: &BTreeMap<Measure, u64>, m: Measure) -> Option<u64>
    ensures { result ≡ lookup (is_at (measure_cmp m)) lines.now.entries }
{
    lines.get(&m).copied()
}

fn has_eight_fields(row: &ByteRecord) -> bool
    ensures { result ≡ (length (fields_of row.now) == 8) }
{
    row.len() == 8
}

// Adds a row and its line, unless its measure has an earlier line or there are too many.
fn add_row(
    problem: &mut Problem,
    lines: &mut BTreeMap<Measure, u64>,
    line: u64,
    row: Row,
) -> Result<(), RowFault>
    requires fits { IsTrue (fits problem.old.classes row.measure) }
    requires keeps { KeepsLines problem.old.rows lines.old.entries }
    ensures keeps { OnOk result (KeepsLines problem.new.rows lines.new.entries) }
    ensures classes { problem.new.classes ≡ problem.old.classes }
    ensures value { result ≢ Err RowFault.NoMemory → row_added problem.old.classes line (lined_rows problem.old.rows lines.old.entries) row ≡ and_then result (λ _. Ok (lined_rows problem.new.rows lines.new.entries)) }
{
    let measure = row.measure();
    if let Some(first) = line_of(lines, measure) {
        return Err(RowFault::Duplicate(first));
    }
    match problem.add(row) {
        Ok(()) => match lines.insert(measure, line) {
            Ok(_) => Ok(()),
            Err(_) => Err(RowFault::NoMemory),
        },
        Err(AddFault::Full) => Err(RowFault::TooMany),
        Err(AddFault::NoMemory) => Err(RowFault::NoMemory),
        Err(AddFault::There) => unreachable!(),
    }
}

/// Adds what a line adds, or answers its first fault.
pub(crate) fn add_line(
    s: &Settings,
    problem: &mut Problem,
    lines: &mut BTreeMap<Measure, u64>,
    line: u64,
    row: &ByteRecord,
) -> Result<(), SourceFault>
    requires keeps { KeepsLines problem.old.rows lines.old.entries }
    ensures keeps { OnOk result (KeepsLines problem.new.rows lines.new.entries) }
    ensures classes { problem.new.classes ≡ problem.old.classes }
    ensures value { (IfErr result (λ e. e.cause ≢ RowFault.NoMemory)) → source_line s.now problem.old.classes line (lined_rows problem.old.rows lines.old.entries) (fields_of row.now) ≡ and_then result (λ _. Ok (lined_rows problem.new.rows lines.new.entries)) }
{
    if !has_eight_fields(row) {
        return Err(SourceFault {
            line,
            cause: RowFault::Csv,
        });
    }
    let read = match row_from(s, problem.classes(), &row_text(row)) {
        Ok(read) => read,
        Err(cause) => return Err(SourceFault { line, cause }),
    };
    match add_row(problem, lines, line, read) {
        Ok(()) => Ok(()),
        Err(cause) => Err(SourceFault { line, cause }),
    }
}

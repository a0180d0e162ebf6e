//! Reading `edits.csv`.

ghost use Rattle.std.specs.Prelude.{◌≡◌, ◌≢◌, ◌<◌, ◌≤◌, ◌^◌, ◌∷◌, [], Ok, IfErr, IfOk, OnOk, length};
ghost use Rattle.std.specs.Bool.{MatchBool};
ghost use Rattle.csv.specs.Records.{fields_of};
ghost use Rattle.sut_records.specs.RecordList.{same_fields};
ghost use Rattle.sut_records.specs.FirstFault.{and_then, read_lines};
ghost use Rattle.sut_edits.specs.EditsFile.{edit_line, edits_header, edits_of, under_header};
ghost use Rattle.sut_edits.specs.EditRules.{AreEditsOf};

use crate::adding::add_line;
use crate::edits::EditLine;
use crate::faults::{EditsCause, EditsFault};
use csv::ByteRecord;
use std::alloc::Global;
use sut_classes::Classes;
use sut_records::{Records, has_fields};
use sut_settings::Settings;

fn is_header(row: &ByteRecord) -> bool
    ensures { result ≡ same_fields (fields_of row.now) edits_header }
{
    has_fields(
        row,
        &[
            b"edit".as_slice(),
            b"kind".as_slice(),
            b"a".as_slice(),
            b"b".as_slice(),
            b"c".as_slice(),
            b"target".as_slice(),
            b"grade".as_slice(),
            b"lower".as_slice(),
            b"upper".as_slice(),
        ],
    )
}

// Takes the next record, after the one at a line.
fn next_line(records: &mut Records<'_>, row: &mut ByteRecord, line: u64) -> Result<bool, EditsFault>
    ensures next { IfOk result (λ found. MatchBool found (records.old ≡ fields_of row.new ∷ records.new) (records.old ≡ [])) }
    ensures memory { IfErr result (λ e. e.cause ≡ EditsCause.NoMemory) }
{
    match records.next(row) {
        Ok(found) => Ok(found),
        Err(_) => Err(EditsFault {
            line,
            cause: EditsCause::NoMemory,
        }),
    }
}

const NO_HEADER: EditsFault = EditsFault {
    line: 1,
    cause: EditsCause::Header,
};

// Takes the first record, which has to be the header.
fn read_header(records: &mut Records<'_>, row: &mut ByteRecord) -> Result<(), EditsFault>
    ensures few { OnOk result (length records.new ≤ length records.old) }
    ensures value { (IfErr result (λ e. e.cause ≢ EditsCause.NoMemory)) → under_header records.old ≡ and_then result (λ _. Ok records.new) }
{
    let found = match next_line(records, row, 1) {
        Ok(found) => found,
        Err(fault) => return Err(fault),
    };
    if !found {
        return Err(NO_HEADER);
    }
    if !is_header(row) {
        return Err(NO_HEADER);
    }
    Ok(())
}

// Reads the lines that are left, the first of them line 2.
fn read_all(
    alloc: Global,
    s: &Settings,
    classes: &Classes,
    records: &mut Records<'_>,
    row: &mut ByteRecord,
    edits: &mut Vec<EditLine>,
) -> Result<(), EditsFault>
    requires few { length records.old < 2 ^ 63 }
    requires good { AreEditsOf s.now classes.now edits.old.items }
    ensures good { OnOk result (AreEditsOf s.now classes.now edits.new.items) }
    ensures value { (IfErr result (λ e. e.cause ≢ EditsCause.NoMemory)) → read_lines (edit_line s.now classes.now) 2 edits.old.items records.old ≡ and_then result (λ _. Ok edits.new.items) }
{
    let mut line: u64 = 1;
    'lines: while next_line(records, row, line)? {
        line += 1;
        if let Err(fault) = add_line(alloc, s, classes, edits, line, row) {
            return Err(fault);
        }
    }
    Ok(())
}

/// Reads edits: the header `edit,kind,a,b,c,target,grade,lower,upper`, and an edit on each later line. The answer is the
/// edits with their lines, at most 4,096 of them and 15 rebalances among them; or the first fault with its line, where
/// `NoMemory` may stand at any line. The row of a `set` or an `add` is read as a row of a source is; a `drop` names a
/// measure; a `dismiss` has a label in field a, which may be empty; all other fields are empty.
pub fn read_edits(
    alloc: Global,
    s: &Settings,
    classes: &Classes,
    bytes: &[u8],
) -> Result<Vec<EditLine>, EditsFault>
    ensures value { (IfErr result (λ e. e.cause ≢ EditsCause.NoMemory)) → edits_of s.now classes.now bytes.now ≡ and_then result (λ v. Ok v.items) }
    ensures good { IfOk result (λ v. AreEditsOf s.now classes.now v.items) }
{
    let mut records = Records::new(alloc, bytes);
    let mut row = ByteRecord::new(alloc);
    if let Err(fault) = read_header(&mut records, &mut row) {
        return Err(fault);
    }
    let mut edits = Vec::new(alloc);
    match read_all(alloc, s, classes, &mut records, &mut row, &mut edits) {
        Ok(()) => Ok(edits),
        Err(fault) => Err(fault),
    }
}

//! The edits of the lines that were read.

ghost use Rattle.std.specs.Prelude.{◌≡◌, ◌≢◌, ◌≤◌, ◌==◌, ◌++◌, ◌∷◌, [], Ok, Err, IfErr, OnOk, length};
ghost use Rattle.csv.specs.Records.{fields_of};
ghost use Rattle.sut_records.specs.FirstFault.{and_then};
ghost use Rattle.sut_edits.specs.EditsFile.{balances_in, edit_added, edit_line, has_room_for, is_balance};
ghost use Rattle.sut_edits.specs.EditRules.{AreEditsOf};

use crate::edits::{Edit, EditLine};
use crate::faults::{EditsCause, EditsFault};
use crate::lines::edit_in;
use csv::ByteRecord;
use std::alloc::Global;
use sut_classes::Classes;
use sut_settings::Settings;

fn is_balance(edit: &Edit) -> bool
    ensures { result ≡ is_balance edit.now }
{
    match edit {
        Edit::Balance => true,
        Edit::Set(_) | Edit::Add(_) | Edit::Drop(_) | Edit::Dismiss(_) => false,
    }
}

// How many of the edits are rebalances.
fn balances_in(edits: &[EditLine]) -> usize
    ensures { result ≡ balances_in edits.now }
{
    let mut count = 0;
    for line in edits {
        if is_balance(&line.edit) {
            count += 1;
        }
    }
    count
}

// Whether an edit may follow these: at most 4,096 edits, and 15 rebalances among them.
fn has_room_for(edits: &[EditLine], edit: &Edit) -> bool
    ensures { result ≡ has_room_for edits.now edit.now }
{
    if edits.len() >= 4096 {
        return false;
    }
    if is_balance(edit) {
        balances_in(edits) < 15
    } else {
        true
    }
}

// Adds an edit with its line, unless there are too many.
fn add_edit(edits: &mut Vec<EditLine>, line: u64, edit: Edit) -> Result<(), EditsCause>
    ensures added { OnOk result (edits.new.items ≡ edits.old.items ++ record { line = line; edit = edit } ∷ []) }
    ensures few { OnOk result (balances_in edits.old.items ≤ 15 → balances_in edits.new.items ≤ 15) }
    ensures value { result ≢ Err EditsCause.NoMemory → edit_added line edits.old.items edit ≡ and_then result (λ _. Ok edits.new.items) }
{
    if !has_room_for(edits, &edit) {
        return Err(EditsCause::TooMany);
    }
    match edits.push(EditLine { line, edit }) {
        Ok(()) => Ok(()),
        Err(_) => Err(EditsCause::NoMemory),
    }
}

fn has_nine_fields(row: &ByteRecord) -> bool
    ensures { result ≡ (length (fields_of row.now) == 9) }
{
    row.len() == 9
}

/// Adds the edit of a line, or answers its first fault.
pub(crate) fn add_line(
    alloc: Global,
    s: &Settings,
    classes: &Classes,
    edits: &mut Vec<EditLine>,
    line: u64,
    row: &ByteRecord,
) -> Result<(), EditsFault>
    requires good { AreEditsOf s.now classes.now edits.old.items }
    ensures good { OnOk result (AreEditsOf s.now classes.now edits.new.items) }
    ensures value { (IfErr result (λ e. e.cause ≢ EditsCause.NoMemory)) → edit_line s.now classes.now line edits.old.items (fields_of row.now) ≡ and_then result (λ _. Ok edits.new.items) }
{
    if !has_nine_fields(row) {
        return Err(EditsFault {
            line,
            cause: EditsCause::Csv,
        });
    }
    let edit = match edit_in(alloc, s, classes, row) {
        Ok(edit) => edit,
        Err(cause) => return Err(EditsFault { line, cause }),
    };
    match add_edit(edits, line, edit) {
        Ok(()) => Ok(()),
        Err(cause) => Err(EditsFault { line, cause }),
    }
}

//! The problem of a year's files, and the edits of it.

ghost use Rattle.std.specs.Prelude.{◌≡◌, ◌≤◌, ◌∷◌, [], All, IfErr, IfOk, IfSome, IsErrAnd, None, Ok};
ghost use Rattle.sut_outside.specs.Causes.{NoneFailed};
ghost use Rattle.sut_outside.specs.Files.{Told, SameFiles};
ghost use Rattle.sut_source.specs.SourceText.{HasGrade};
ghost use Rattle.sut_edits.specs.EditRules.{AreEditsOf};
ghost use Rattle.sut_input.specs.EditInputs.{FailsIn, IsReadFault, RefusesEdits, edit_input_in, edit_names, edits_fault, edits_in};

use crate::faults::InputFault;
use crate::files::read_file;
use crate::problems::{Input, read_problem};
use std::alloc::Global;
use sut_classes::Classes;
use sut_edits::{EditLine, EditsCause, EditsFault, read_edits};
use sut_outside::{FileName, Shelf};
use sut_settings::Settings;

/// Why the files of a year give no edits of its problem: the first of these in the order of reading.
#[derive(Debug, Clone, Copy, PartialEq, Eq)]
pub enum EditInputFault {
    /// A file is not there, is too long or could not be read; settings, classes or source have a fault; or memory ran out.
    Input(InputFault),
    /// The first fault of `edits.csv`.
    BadEdits(EditsFault),
}

/// The settings and the problem of a year, and the edits of it.
#[derive(Drop)]
pub struct EditInput {
    pub input: Input,
    pub edits: Vec<EditLine>,
}

fn edits_fault(fault: EditsFault) -> EditInputFault
    ensures { result ≡ edits_fault fault }
{
    match fault.cause {
        EditsCause::NoMemory => EditInputFault::Input(InputFault::NoMemory),
        _ => EditInputFault::BadEdits(fault),
    }
}

fn read_edits_file<F: Shelf>(
    alloc: Global,
    shelf: &mut F,
    settings: &Settings,
    classes: &Classes,
) -> Result<Vec<EditLine>, EditInputFault>
    ensures kept { Told (F.files shelf.old) (F.files shelf.new) SameFiles }
    ensures ok { IfOk result (λ edits. IfSome (F.files shelf.old) (λ files. edits_in settings.now classes.now None files ≡ Ok edits.items)) }
    ensures good { IfOk result (λ edits. AreEditsOf settings.now classes.now edits.items) }
    ensures err { IfErr result (λ fault. IfSome (F.files shelf.old) (λ files. RefusesEdits (edits_in settings.now classes.now) files fault)) }
    ensures later { F.faults shelf.old ≤ F.faults shelf.new }
    ensures cause { IfErr result (FailsIn (FileName.EditsCsv ∷ []) (F.faults shelf.old) (F.faults shelf.new) (F.last_failed shelf.new)) }
    ensures stays { ¬ IsErrAnd result IsReadFault → NoneFailed (F.faults shelf.old) (F.faults shelf.new) (F.last_failed shelf.old) (F.last_failed shelf.new) }
{
    let bytes = match read_file(shelf, FileName::EditsCsv) {
        Ok(bytes) => bytes,
        Err(fault) => return Err(EditInputFault::Input(fault)),
    };
    match read_edits(alloc, settings, classes, &bytes) {
        Ok(edits) => Ok(edits),
        Err(fault) => Err(edits_fault(fault)),
    }
}

/// Reads `settings.toml`, `classes.csv`, `source.csv` and `edits.csv`, in this order, each parsed before the next is read. No
/// file changes. A failed read is answered only where the shelf's count of faults rose, and its name is then that of the last
/// failed call; where anything else is answered, no read failed.
pub fn read_edit_input<F: Shelf>(alloc: Global, shelf: &mut F) -> Result<EditInput, EditInputFault>
    ensures kept { Told (F.files shelf.old) (F.files shelf.new) SameFiles }
    ensures ok { IfOk result (λ given. IfSome (F.files shelf.old) (λ files. edit_input_in None files ≡ Ok ((given.input.settings, given.input.problem), given.edits.items))) }
    ensures good { IfOk result (λ given. AreEditsOf given.input.settings given.input.problem.classes given.edits.items) }
    ensures graded { IfOk result (λ given. All (HasGrade given.input.settings) given.input.problem.rows) }
    ensures err { IfErr result (λ fault. IfSome (F.files shelf.old) (λ files. RefusesEdits edit_input_in files fault)) }
    ensures later { F.faults shelf.old ≤ F.faults shelf.new }
    ensures cause { IfErr result (FailsIn edit_names (F.faults shelf.old) (F.faults shelf.new) (F.last_failed shelf.new)) }
    ensures stays { ¬ IsErrAnd result IsReadFault → NoneFailed (F.faults shelf.old) (F.faults shelf.new) (F.last_failed shelf.old) (F.last_failed shelf.new) }
{
    let input = match read_problem(alloc, shelf, FileName::SourceCsv) {
        Ok(input) => input,
        Err(fault) => return Err(EditInputFault::Input(fault)),
    };
    match read_edits_file(alloc, shelf, &input.settings, input.problem.classes()) {
        Ok(edits) => Ok(EditInput { input, edits }),
        Err(fault) => Err(fault),
    }
}

//! The command `edit`.

ghost use Rattle.std.specs.Prelude.{◌≡◌, ◌≤◌, ◌++◌, ◌∷◌, All, Err, IfErr, IfOk, IsErrAnd, OnOk, map};
ghost use Rattle.sut_outside.specs.Files.{SameFiles, Told};
ghost use Rattle.sut_outside.specs.Causes.{NoneFailed};
ghost use Rattle.sut_cert.specs.Right.{IsRight};
ghost use Rattle.sut_write.specs.Screen as screen;
ghost use Rattle.sut_source.specs.SourceText.{HasGrade, source_text};
ghost use Rattle.sut_edits.specs.EditRules.{AreEditsOf};
ghost use Rattle.sut_review.specs.Seats.{new_seat};
ghost use Rattle.sut_editing.specs.Moments.{IfRefused, moments_of, standing_labels};
ghost use Rattle.sut_run.specs.Deliveries as deliveries;
ghost use Rattle.sut_run.specs.Deliveries.{ReadsBack, SpellsSource, answer_files};
ghost use Rattle.sut_run.specs.Inputs.{edit_stopped, edits_refused};
ghost use Rattle.sut_run.specs.Outputs.{review_in, texts_in};
ghost use Rattle.sut_run.specs.Prepared.{PreparesEdit};
ghost use Rattle.sut_run.specs.Ready.{IsReady, IsRefused};
ghost use Rattle.sut_run.specs.Steps.{IsShelfFault};

use crate::balancing::refused;
use crate::commands::Command;
use crate::outputs::{make, push_text, status_of};
use crate::preparing::Prepared;
use crate::writing::Made;
use no_memory::NoMemory;
use std::alloc::Global;
use sut_cert::Answer;
use sut_editing::{Edited, EditingFault, edit_rows};
use sut_edits::EditLine;
use sut_input::{EditInput, EditInputFault, read_edit_input};
use sut_outside::{FileName, Shelf};
use sut_review::Reviewer;
use sut_settings::Settings;
use sut_status::Status;
use sut_tables::Problem;
use sut_write::edited_text;

fn edits_refused(fault: EditInputFault) -> Status
    ensures { result ≡ edits_refused fault }
{
    match fault {
        EditInputFault::Input(fault) => refused(fault),
        EditInputFault::BadEdits(fault) => Status::BadEdits(fault),
    }
}

// The rows after all edits and the balanced tables before what is written of the last answer.
fn behind_edits(
    alloc: Global,
    rows: Vec<u8>,
    trail: Vec<u8>,
    lines: Vec<u8>,
    last: Made,
) -> Result<Made, NoMemory>
    ensures texts { IfOk result (λ made. texts_in made.outputs.items ≡ (FileName.EditedCsv, rows.items) ∷ (FileName.TrailCsv, trail.items) ∷ texts_in last.outputs.items) }
    ensures lines { IfOk result (λ made. made.lines.items ≡ lines.items ++ last.lines.items) }
{
    let mut outputs = Vec::new(alloc);
    push_text(&mut outputs, FileName::EditedCsv, rows)?;
    push_text(&mut outputs, FileName::TrailCsv, trail)?;
    let mut rest = last.outputs;
    outputs.append(&mut rest)?;
    let mut printed = lines;
    printed.extend_from_slice(&last.lines)?;
    Ok(Made {
        outputs,
        lines: printed,
    })
}

// All that is written of a run of edits, and then printed.
fn make_edited(
    alloc: Global,
    s: &Settings,
    p: &Problem,
    answer: Answer,
    trail: Vec<u8>,
    lines: Vec<u8>,
    review: Option<Vec<u8>>,
) -> Result<Made, NoMemory>
    requires graded { All (HasGrade s.now) p.now.rows }
    requires right { IsRight p.now answer }
    ensures texts { IfOk result (λ made. texts_in made.outputs.items ≡ (FileName.EditedCsv, source_text s.now p.now) ∷ (FileName.TrailCsv, trail.items) ∷ (answer_files p.now answer ++ review_in review)) }
    ensures lines { IfOk result (λ made. made.lines.items ≡ lines.items ++ screen.screen_text p.now answer) }
    ensures reads_back { OnOk result (ReadsBack p.now answer) }
    ensures spells { OnOk result (SpellsSource s.now p.now) }
{
    let rows = edited_text(alloc, s, p)?;
    let last = make(alloc, p, answer, review)?;
    behind_edits(alloc, rows, trail, lines, last)
}

// What a run of edits delivers, and the status of the run after it.
fn prepare_edited(alloc: Global, s: &Settings, edited: Edited) -> Result<Prepared, NoMemory>
    requires graded { All (HasGrade s.now) edited.problem.rows }
    requires right { IsRight edited.problem edited.answer }
    ensures done { IfOk result (λ x. x.done ≡ deliveries.status_of edited.answer) }
    ensures texts { IfOk result (λ x. texts_in x.made.outputs.items ≡ (FileName.EditedCsv, source_text s.now edited.problem) ∷ (FileName.TrailCsv, edited.trail.items) ∷ (answer_files edited.problem edited.answer ++ review_in edited.review)) }
    ensures lines { IfOk result (λ x. x.made.lines.items ≡ edited.lines.items ++ screen.screen_text edited.problem edited.answer) }
    ensures reads_back { OnOk result (ReadsBack edited.problem edited.answer) }
    ensures spells { OnOk result (SpellsSource s.now edited.problem) }
{
    let done = status_of(&edited.answer);
    let problem = edited.problem;
    let answer = edited.answer;
    let trail = edited.trail;
    let lines = edited.lines;
    match make_edited(alloc, s, &problem, answer, trail, lines, edited.review) {
        Ok(made) => Ok(Prepared { done, made }),
        Err(_) => Err(NoMemory),
    }
}

// Takes the edits before the reviewers, and makes all texts.
fn prepare_edit(
    alloc: Global,
    s: &Settings,
    p: Problem,
    edits: &[EditLine],
    reviewers: Vec<Box<dyn Reviewer>>,
) -> Result<Prepared, EditingFault>
    requires zero { All (λ b. marked b ≡ 0) reviewers.items }
    requires good { AreEditsOf s.now p.classes edits.now }
    requires graded { All (HasGrade s.now) p.rows }
    ensures prepared { IfOk result (λ x. PreparesEdit (map (λ b. new_seat (name b) (rule b)) reviewers.items) s.now p edits.now x.done (texts_in x.made.outputs.items) x.made.lines.items) }
    ensures refused { IfErr result (λ fault. IfRefused fault (λ f. moments_of (standing_labels (map (λ b. new_seat (name b) (rule b)) reviewers.items)) p edits.now ≡ Err f)) }
{
    match edit_rows(alloc, p, edits, reviewers) {
        Ok(edited) => match prepare_edited(alloc, s, edited) {
            Ok(prepared) => Ok(prepared),
            Err(_) => Err(EditingFault::NoMemory),
        },
        Err(fault) => Err(fault),
    }
}

// The same for what was read.
fn prepare_given(
    alloc: Global,
    given: EditInput,
    reviewers: Vec<Box<dyn Reviewer>>,
) -> Result<Prepared, EditingFault>
    requires zero { All (λ b. marked b ≡ 0) reviewers.items }
    requires good { AreEditsOf given.input.settings given.input.problem.classes given.edits.items }
    requires graded { All (HasGrade given.input.settings) given.input.problem.rows }
    ensures prepared { IfOk result (λ x. PreparesEdit (map (λ b. new_seat (name b) (rule b)) reviewers.items) given.input.settings given.input.problem given.edits.items x.done (texts_in x.made.outputs.items) x.made.lines.items) }
    ensures refused { IfErr result (λ fault. IfRefused fault (λ f. moments_of (standing_labels (map (λ b. new_seat (name b) (rule b)) reviewers.items)) given.input.problem given.edits.items ≡ Err f)) }
{
    let settings = given.input.settings;
    let problem = given.input.problem;
    let edits = given.edits;
    prepare_edit(alloc, &settings, problem, &edits, reviewers)
}

fn edit_stopped(fault: EditingFault) -> Status
    ensures { result ≡ edit_stopped fault }
{
    match fault {
        EditingFault::Refused(fault) => Status::BadEdits(fault),
        EditingFault::NoMemory => Status::NoMemory,
    }
}

/// Reads settings, classes, source and edits, takes the edits, and makes the rows after them, the balanced tables and all that
/// is written of the last answer, and a line for each rebalance before its lines.
pub(crate) fn prepare_edits<F: Shelf>(
    alloc: Global,
    shelf: &mut F,
    reviewers: Vec<Box<dyn Reviewer>>,
) -> Result<Prepared, Status>
    requires { All (λ b. marked b ≡ 0) reviewers.items }
    ensures kept { Told (F.files shelf.old) (F.files shelf.new) SameFiles }
    ensures ready { IfOk result (λ x. IsReady (map (λ b. new_seat (name b) (rule b)) reviewers.items) Command.Edit (F.files shelf.old) x.done (texts_in x.made.outputs.items) x.made.lines.items) }
    ensures refused { IfErr result (λ s. IsRefused (map (λ b. new_seat (name b) (rule b)) reviewers.items) Command.Edit (F.files shelf.old) (F.faults shelf.old) (F.faults shelf.new) (F.last_failed shelf.new) s) }
    ensures later { F.faults shelf.old ≤ F.faults shelf.new }
    ensures stays { ¬ IsErrAnd result IsShelfFault → NoneFailed (F.faults shelf.old) (F.faults shelf.new) (F.last_failed shelf.old) (F.last_failed shelf.new) }
{
    let given = match read_edit_input(alloc, shelf) {
        Ok(given) => given,
        Err(fault) => {
            drop(reviewers);
            return Err(edits_refused(fault));
        }
    };
    match prepare_given(alloc, given, reviewers) {
        Ok(prepared) => Ok(prepared),
        Err(fault) => Err(edit_stopped(fault)),
    }
}

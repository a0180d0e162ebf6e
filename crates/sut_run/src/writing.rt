//! The writing part: all texts are made before the first write.

ghost use Rattle.std.specs.Prelude.{◌≡◌, ◌≤◌, ◌⊎◌, IfErr, IsErrAnd, IsErrOf, MatchResult, Ok, Contains, map};
ghost use Rattle.sut_outside.specs.Files.{Told, SameOtherFiles, Writes};
ghost use Rattle.sut_outside.specs.Causes.{NoneFailed, Rose};
ghost use Rattle.sut_run.specs.Outputs.{texts_in};
ghost use Rattle.sut_run.specs.Steps.{Delivered, FailsWriting, IsShelfFault, PutsLines, StopsDelivery, StopsWriting, WritesEnd};

use sut_outside::{FileName, Shelf, ShelfError, Sink};
use sut_status::Status;

/// A text under its name.
#[derive(Drop)]
pub(crate) struct Output {
    pub name: FileName,
    pub text: Vec<u8>,
}

/// What is written, in order, and then printed.
#[derive(Drop)]
pub(crate) struct Made {
    pub outputs: Vec<Output>,
    pub lines: Vec<u8>,
}

fn write_file<F: Shelf>(shelf: &mut F, output: &Output) -> Result<(), Status>
    ensures written { Told (F.files shelf.old) (F.files shelf.new) (λ old new. MatchResult result (λ _. Writes output.now.name output.now.text.items (Ok result) old new) (λ _. SameOtherFiles output.now.name old new)) }
    ensures stopped { IfErr result (λ stopped. (stopped ≡ Status.NoMemory) ⊎ (stopped ≡ Status.WriteFault output.now.name)) }
    ensures later { F.faults shelf.old ≤ F.faults shelf.new }
    ensures cause { IfErr result (FailsWriting (F.faults shelf.old) (F.faults shelf.new) (F.last_failed shelf.new)) }
    ensures stays { ¬ IsErrAnd result IsShelfFault → NoneFailed (F.faults shelf.old) (F.faults shelf.new) (F.last_failed shelf.old) (F.last_failed shelf.new) }
{
    match shelf.write(output.name, &output.text) {
        Ok(()) => Ok(()),
        Err(ShelfError::Failed) => Err(Status::WriteFault(output.name)),
        Err(ShelfError::NoMemory) => Err(Status::NoMemory),
        Err(ShelfError::Missing) => unreachable!(),
        Err(ShelfError::TooLong) => unreachable!(),
    }
}

// Writes the list in order, up to the first failure.
fn write_all<F: Shelf>(shelf: &mut F, outputs: &[Output]) -> Result<(), Status>
    ensures writes { IfErr result (StopsWriting (map (λ output. output.name) outputs.now)) }
    ensures ends { Told (F.files shelf.old) (F.files shelf.new) (WritesEnd (texts_in outputs.now) result) }
    ensures later { F.faults shelf.old ≤ F.faults shelf.new }
    ensures cause { IfErr result (FailsWriting (F.faults shelf.old) (F.faults shelf.new) (F.last_failed shelf.new)) }
    ensures stays { ¬ IsErrAnd result IsShelfFault → NoneFailed (F.faults shelf.old) (F.faults shelf.new) (F.last_failed shelf.old) (F.last_failed shelf.new) }
{
    for output in outputs {
        match write_file(shelf, output) {
            Ok(()) => {}
            Err(stopped) => return Err(stopped),
        }
    }
    Ok(())
}

// Writes the texts in order, and then prints the lines in one put, up to the first failure.
fn send<F: Shelf, K: Sink>(
    shelf: &mut F,
    out: &mut K,
    outputs: &[Output],
    lines: &[u8],
) -> Result<(), Status>
    ensures stands { Told (F.files shelf.old) (F.files shelf.new) (λ old new. Delivered (texts_in outputs.now) lines.now result old new (K.sent out.old) (K.sent out.new)) }
    ensures stops { IfErr result (StopsDelivery (map (λ output. output.name) outputs.now)) }
    ensures later { F.faults shelf.old ≤ F.faults shelf.new }
    ensures cause { IfErr result (FailsWriting (F.faults shelf.old) (F.faults shelf.new) (F.last_failed shelf.new)) }
    ensures stays { ¬ IsErrAnd result IsShelfFault → NoneFailed (F.faults shelf.old) (F.faults shelf.new) (F.last_failed shelf.old) (F.last_failed shelf.new) }
    ensures sink_fault { IfErr result (λ stopped. stopped ≡ Status.SinkFault → Rose (K.faults out.old) (K.faults out.new)) }
    ensures sink_stays { ¬ IsErrOf result Status.SinkFault → K.faults out.new ≡ K.faults out.old }
    ensures sent { Told (K.sent out.old) (K.sent out.new) (PutsLines lines.now result) }
{
    match write_all(shelf, outputs) {
        Err(stopped) => Err(stopped),
        Ok(()) => match out.put(lines) {
            Ok(()) => Ok(()),
            Err(_) => Err(Status::SinkFault),
        },
    }
}

/// Writes the texts in order, and then prints the lines in one put, up to the first failure.
pub(crate) fn deliver<F: Shelf, K: Sink>(
    shelf: &mut F,
    out: &mut K,
    made: &Made,
) -> Result<(), Status>
    ensures stands { Told (F.files shelf.old) (F.files shelf.new) (λ old new. Delivered (texts_in made.now.outputs.items) made.now.lines.items result old new (K.sent out.old) (K.sent out.new)) }
    ensures stops { IfErr result (StopsDelivery (map (λ output. output.name) made.now.outputs.items)) }
    ensures later { F.faults shelf.old ≤ F.faults shelf.new }
    ensures cause { IfErr result (FailsWriting (F.faults shelf.old) (F.faults shelf.new) (F.last_failed shelf.new)) }
    ensures stays { ¬ IsErrAnd result IsShelfFault → NoneFailed (F.faults shelf.old) (F.faults shelf.new) (F.last_failed shelf.old) (F.last_failed shelf.new) }
    ensures sink_fault { IfErr result (λ stopped. stopped ≡ Status.SinkFault → Rose (K.faults out.old) (K.faults out.new)) }
    ensures sink_stays { ¬ IsErrOf result Status.SinkFault → K.faults out.new ≡ K.faults out.old }
    ensures sent { Told (K.sent out.old) (K.sent out.new) (PutsLines made.now.lines.items result) }
{
    send(shelf, out, &made.outputs, &made.lines)
}

//! The command `migrate`.

ghost use Rattle.std.specs.Prelude.{◌≡◌, ◌≤◌, IfErr, IfOk, IsErrAnd, OnOk, List};
ghost use Rattle.sut_outside.specs.Files.{SameFiles, Told};
ghost use Rattle.sut_outside.specs.Causes.{NoneFailed};
ghost use Rattle.sut_review.specs.Seats.{SeatFacts};
ghost use Rattle.sut_run.specs.Outputs.{texts_in};
ghost use Rattle.sut_run.specs.Deliveries.{SpellsClasses, code_count, migrated_text, migration};
ghost use Rattle.sut_run.specs.Ready.{IsReady, IsRefused};
ghost use Rattle.sut_run.specs.Steps.{IsShelfFault};

use crate::balancing::refused;
use crate::commands::Command;
use crate::outputs::push_text;
use crate::preparing::Prepared;
use crate::writing::Made;
use no_memory::NoMemory;
use std::alloc::Global;
use sut_classes::{Axis, Classes, print_classes};
use sut_input::read_classes_file;
use sut_outside::{FileName, Shelf};
use sut_status::Status;
use sut_text::fields::{Field, put_words};
use sut_text::{put_byte, put_bytes};

// How many codes there are on all axes, at most 1,000.
fn code_count(classes: &Classes) -> u64
    ensures { result ≡ code_count classes.now }
{
    classes.kept();
    let many = classes.count(Axis::Product) + classes.count(Axis::Industry);
    let more = classes.count(Axis::Final) + classes.count(Axis::Item);
    let kinds = classes.count(Axis::Margin) + classes.count(Axis::Tax);
    let groups = classes.count(Axis::ProductGroup) + classes.count(Axis::IndustryGroup);
    (many + more + kinds + groups) as u64
}

fn migrated_lines(alloc: Global, classes: &Classes) -> Result<Vec<u8>, NoMemory>
    ensures { IfOk result (λ v. v.items ≡ migrated_text classes.now) }
{
    let mut out = Vec::new(alloc);
    put_bytes(&mut out, b"migrated")?;
    put_words(&mut out, &[Field::Count(code_count(classes))])?;
    put_byte(&mut out, b'\n')?;
    Ok(out)
}

// The classes in format 2, to be written, and the line to be printed then.
fn prepare_classes(alloc: Global, classes: &Classes) -> Result<Made, NoMemory>
    ensures written { IfOk result (λ made. texts_in made.outputs.items ≡ (migration classes.now).texts) }
    ensures printed { IfOk result (λ made. made.lines.items ≡ (migration classes.now).lines) }
    ensures reads_back { OnOk result (SpellsClasses classes.now) }
{
    classes.kept();
    let text = print_classes(alloc, classes)?;
    let lines = migrated_lines(alloc, classes)?;
    let mut outputs = Vec::new(alloc);
    push_text(&mut outputs, FileName::Classes2Csv, text)?;
    Ok(Made { outputs, lines })
}

/// Reads the classes, and makes them in format 2 and a line that says how many codes there are.
pub(crate) fn prepare_migration<F: Shelf>(alloc: Global, shelf: &mut F) -> Result<Prepared, Status>
    ensures kept { Told (F.files shelf.old) (F.files shelf.new) SameFiles }
    ensures ready { IfOk result (λ x. (seats : List SeatFacts) → IsReady seats Command.Migrate (F.files shelf.old) x.done (texts_in x.made.outputs.items) x.made.lines.items) }
    ensures refused { IfErr result (λ s. (seats : List SeatFacts) → IsRefused seats Command.Migrate (F.files shelf.old) (F.faults shelf.old) (F.faults shelf.new) (F.last_failed shelf.new) s) }
    ensures later { F.faults shelf.old ≤ F.faults shelf.new }
    ensures stays { ¬ IsErrAnd result IsShelfFault → NoneFailed (F.faults shelf.old) (F.faults shelf.new) (F.last_failed shelf.old) (F.last_failed shelf.new) }
{
    let classes = match read_classes_file(alloc, shelf) {
        Ok(classes) => classes,
        Err(fault) => return Err(refused(fault)),
    };
    let made = prepare_classes(alloc, &classes);
    drop(classes);
    match made {
        Ok(made) => Ok(Prepared {
            done: Status::Migrated,
            made,
        }),
        Err(_) => Err(Status::NoMemory),
    }
}

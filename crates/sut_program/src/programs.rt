//! The program.

ghost use Rattle.std.specs.Prelude.{◌≡◌, IfOk, OnErr};
ghost use Rattle.std.specs.Process.{exit_status};
ghost use Rattle.sut_status.specs.declared.statuses.Status.{Status};
ghost use Rattle.sut_console.specs.Words.{words_in};
ghost use Rattle.sut_program.specs.Programs.{EndsWith, Runs};

use crate::endings::end;
use no_memory::NoMemory;
use std::alloc::Global;
use std::env::Args;
use std::io;
use std::io::ErrorKind;
use std::process::ExitCode;
use sut_console::words_behind_name;
use sut_outside::{Shelf, Sink};
use sut_review::{AtBound, FarFrom, Reviewer};
use sut_run::run;
use sut_status::Status;

// The distance from a target that the program reviews, in percent of the target.
const FAR_PERCENT: u32 = 10;

// Runs what the words behind the program's name ask for. Values at a bound and far from their targets are reviewed.
#[tactic(auto, using(crate::proofs::Ran::nothing_on_err))]
fn run_reviewed<F: Shelf, K: Sink>(
    alloc: Global,
    args: Args,
    shelf: &mut F,
    out: &mut K,
) -> Result<Status, NoMemory>
    ensures ran { IfOk result (Runs (words_in args) (F.files shelf.old) (F.files shelf.new) (K.sent out.old) (K.sent out.new)) }
    ensures nothing { OnErr result (Runs (words_in args) (F.files shelf.old) (F.files shelf.new) (K.sent out.old) (K.sent out.new) Status.NoMemory) }
{
    let words = words_behind_name(alloc, args)?;
    let mut reviewers: Vec<Box<dyn Reviewer>> = Vec::new(alloc);
    reviewers.push(Box::new(alloc, AtBound::new())?)?;
    reviewers.push(Box::new(alloc, FarFrom::new(FAR_PERCENT))?)?;
    Ok(run(alloc, &words, shelf, out, reviewers))
}

// The same; want of memory before the run is its answer too.
fn run_words<F: Shelf, K: Sink>(alloc: Global, args: Args, shelf: &mut F, out: &mut K) -> Status
    ensures { Runs (words_in args) (F.files shelf.old) (F.files shelf.new) (K.sent out.old) (K.sent out.new) result }
{
    match run_reviewed(alloc, args, shelf, out) {
        Ok(status) => status,
        Err(_) => Status::NoMemory,
    }
}

// How a run ends whose arguments can't be had: memory ran out, or one of them is no text.
fn status_without_words(fault: &io::Error) -> Status {
    match fault.kind() {
        ErrorKind::OutOfMemory => Status::NoMemory,
        _ => Status::Usage,
    }
}

/// The program with these arguments, the first of which is its name: runs a command over the shelf, prints the lines of an
/// answer on `out` and the text of any other end on `err`, and gives the number that it ends with.
pub fn balance_program<F: Shelf, K: Sink, E: Sink>(
    alloc: Global,
    args: io::Result<Args>,
    shelf: &mut F,
    out: &mut K,
    err: &mut E,
) -> ExitCode
    // It ends with the code and the text of one status, which says what `run` says of the words behind the name.
    ensures ends { (status : Status)
        × EndsWith (E.sent err.old) (E.sent err.new) (E.faults err.old) (E.faults err.new) (exit_status result) status
        × IfOk args (λ given. Runs (words_in given) (F.files shelf.old) (F.files shelf.new) (K.sent out.old) (K.sent out.new) status) }
{
    let status = match args {
        Ok(args) => run_words(alloc, args, shelf, out),
        Err(fault) => status_without_words(&fault),
    };
    end(alloc, status, err)
}

//! The program.

ghost use Rattle.std.specs.Prelude.{◌≡◌, IfOk};
ghost use Rattle.std.specs.Process.{exit_status};
ghost use Rattle.sut_outside.specs.Files.{SameFiles, Told};
ghost use Rattle.sut_check.specs.declared.statuses.CheckStatus.{CheckStatus};
ghost use Rattle.sut_console.specs.Words.{words_in};
ghost use Rattle.sut_check_program.specs.Programs.{Checks, EndsWith};

use crate::endings::end;
use std::alloc::Global;
use std::env::Args;
use std::io;
use std::io::ErrorKind;
use std::process::ExitCode;
use sut_check::{CheckStatus, check_run};
use sut_console::words_behind_name;
use sut_outside::{Shelf, Sink};

// Checks what the words behind the program's name ask for.
fn check_words<F: Shelf, K: Sink>(
    alloc: Global,
    args: Args,
    shelf: &mut F,
    out: &mut K,
) -> CheckStatus
    ensures files { Told (F.files shelf.old) (F.files shelf.new) SameFiles }
    ensures checks { Checks (words_in args) (F.files shelf.old) (K.sent out.old) (K.sent out.new) result }
{
    match words_behind_name(alloc, args) {
        Ok(words) => check_run(alloc, &words, shelf, out),
        Err(_) => CheckStatus::NoMemory,
    }
}

// How a check ends whose arguments can't be had: memory ran out, or one of them is no text.
fn status_without_words(fault: &io::Error) -> CheckStatus {
    match fault.kind() {
        ErrorKind::OutOfMemory => CheckStatus::NoMemory,
        _ => CheckStatus::Usage,
    }
}

/// The program with these arguments, the first of which is its name: checks over the shelf, prints the lines of an answer on
/// `out` and the text of any other end on `err`, and gives the number that it ends with.
pub fn check_program<F: Shelf, K: Sink, E: Sink>(
    alloc: Global,
    args: io::Result<Args>,
    shelf: &mut F,
    out: &mut K,
    err: &mut E,
) -> ExitCode
    // It writes no file.
    ensures files { Told (F.files shelf.old) (F.files shelf.new) SameFiles }

    // It ends with the code and the text of one status, which says what `check_run` says of the words behind the name.
    ensures ends { (status : CheckStatus)
        × EndsWith (E.sent err.old) (E.sent err.new) (E.faults err.old) (E.faults err.new) (exit_status result) status
        × IfOk args (λ given. Checks (words_in given) (F.files shelf.old) (K.sent out.old) (K.sent out.new) status) }
{
    let status = match args {
        Ok(args) => check_words(alloc, args, shelf, out),
        Err(fault) => status_without_words(&fault),
    };
    end(alloc, status, err)
}

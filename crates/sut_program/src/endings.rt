//! How the program ends: the text on standard error, and the number.

ghost use Rattle.std.specs.Prelude.{◌≡◌, IfOk};
ghost use Rattle.std.specs.Process.{exit_status};
ghost use Rattle.sut_outside.specs.Files.{Told};
ghost use Rattle.sut_outside.specs.Causes.{Rose};
ghost use Rattle.sut_status.specs.Codes.{code};
ghost use Rattle.sut_status.specs.StatusLines.{status_line};
ghost use Rattle.sut_program.specs.ErrorTexts.{IsErrorText, IsLineAndHelp, Says, SaysAll};

use crate::help::help_text;
use no_memory::NoMemory;
use std::alloc::Global;
use std::process::ExitCode;
use sut_outside::Sink;
use sut_status::Status;

// The status line of words that are not accepted, and the help text.
fn usage_text(alloc: Global) -> Result<Vec<u8>, NoMemory>
    ensures { IfOk result (λ text. IsLineAndHelp (status_line Status.Usage) text.items) }
{
    let mut text = Status::Usage.line(alloc)?;
    let help = help_text(alloc)?;
    text.extend_from_slice(help.as_bytes())?;
    Ok(text)
}

/// The whole text on standard error at the end of a run: nothing after an answer (done, or no table), else the status line, and
/// behind that of words that are not accepted the help text.
pub fn error_text(alloc: Global, status: Status) -> Result<Vec<u8>, NoMemory>
    ensures { IfOk result (λ text. IsErrorText status text.items) }
{
    match status {
        Status::Balanced
        | Status::Generated
        | Status::Migrated
        | Status::Published
        | Status::Ranged
        | Status::Series
        | Status::Shared
        | Status::Infeasible => Ok(Vec::new(alloc)),
        Status::Usage => usage_text(alloc),
        _ => status.line(alloc),
    }
}

/// Ends the program: prints the text on standard error, and gives the number of the status. Where there is no memory for the
/// text, the line of want of memory stands in its place; the number stays.
pub fn end<E: Sink>(alloc: Global, status: Status, err: &mut E) -> ExitCode
    ensures code { exit_status result ≡ code status }
    ensures said { Told (E.sent err.old) (E.sent err.new) (Says status) }
    ensures whole { ¬ Rose (E.faults err.old) (E.faults err.new) → Told (E.sent err.old) (E.sent err.new) (SaysAll status) }
{
    let _ = match error_text(alloc, status) {
        Ok(text) => err.put(&text),
        Err(_) => err.put(b"sut: out of memory\n"),
    };
    ExitCode::from(status.code())
}

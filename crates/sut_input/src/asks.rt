//! The problem of a year's files, and the measures whose ranges are asked for.

ghost use Rattle.std.specs.Prelude.{◌≡◌, ◌≤◌, ◌∷◌, [], All, IfErr, IfOk, IfSome, IsErrAnd, IsTrue, None, Ok, length};
ghost use Rattle.sut_outside.specs.Causes.{NoneFailed};
ghost use Rattle.sut_outside.specs.Files.{Told, SameFiles};
ghost use Rattle.sut_source.specs.SourceText.{HasGrade};
ghost use Rattle.sut_tables.specs.LiveRule.{is_live};
ghost use Rattle.sut_input.specs.Following.{FailsIn, IsReadFault, RefusesAs};
ghost use Rattle.sut_input.specs.AskInputs.{ask_fault, ask_input_in, ask_names, ask_part, asks_in};

use crate::faults::InputFault;
use crate::files::read_file;
use crate::problems::{Input, read_problem};
use std::alloc::Global;
use sut_asks::{AskCause, AskFault, read_asks};
use sut_measures::Measure;
use sut_outside::{FileName, Shelf};
use sut_tables::Problem;

/// Why the files of a year give no asks of its problem: the first of these in the order of reading.
#[derive(Debug, Clone, Copy, PartialEq, Eq)]
pub enum AskInputFault {
    /// A file is not there, is too long or could not be read; settings, classes or source have a fault; or memory ran out.
    Input(InputFault),
    /// The first fault of `asks.csv`.
    BadAsks(AskFault),
}

/// The settings and the problem of a year, and the measures that are asked for, in the order of the file.
pub struct AskInput {
    pub input: Input,
    pub asks: Vec<Measure>,
}

impl Drop for AskInput {
    fn drop(self) {
        let AskInput { input, asks } = self;
        drop(input);
        drop(asks);
    }
}

fn ask_fault(fault: AskFault) -> AskInputFault
    ensures { result ≡ ask_fault fault }
{
    match fault.cause {
        AskCause::NoMemory => AskInputFault::Input(InputFault::NoMemory),
        _ => AskInputFault::BadAsks(fault),
    }
}

fn read_asks_file<F: Shelf>(
    alloc: Global,
    shelf: &mut F,
    p: &Problem,
) -> Result<Vec<Measure>, AskInputFault>
    ensures kept { Told (F.files shelf.old) (F.files shelf.new) SameFiles }
    ensures ok { IfOk result (λ asks. IfSome (F.files shelf.old) (λ files. asks_in p.now None files ≡ Ok asks.items)) }
    ensures live { IfOk result (λ asks. All (λ m. IsTrue (is_live p.now m)) asks.items) }
    ensures few { IfOk result (λ asks. length asks.items ≤ 64) }
    ensures err { IfErr result (λ fault. IfSome (F.files shelf.old) (λ files. RefusesAs ask_part (asks_in p.now) files fault)) }
    ensures later { F.faults shelf.old ≤ F.faults shelf.new }
    ensures cause { IfErr result (FailsIn ask_part (FileName.AsksCsv ∷ []) (F.faults shelf.old) (F.faults shelf.new) (F.last_failed shelf.new)) }
    ensures stays { ¬ IsErrAnd result (IsReadFault ask_part) → NoneFailed (F.faults shelf.old) (F.faults shelf.new) (F.last_failed shelf.old) (F.last_failed shelf.new) }
{
    let bytes = match read_file(shelf, FileName::AsksCsv) {
        Ok(bytes) => bytes,
        Err(fault) => return Err(AskInputFault::Input(fault)),
    };
    match read_asks(alloc, p, &bytes) {
        Ok(asks) => Ok(asks),
        Err(fault) => Err(ask_fault(fault)),
    }
}

/// Reads `settings.toml`, `classes.csv`, `source.csv` and `asks.csv`, in this order, each parsed before the next is read. No
/// file changes. A failed read is answered only where the shelf's count of faults rose, and its name is then that of the last
/// failed call; where anything else is answered, no read failed.
pub fn read_ask_input<F: Shelf>(alloc: Global, shelf: &mut F) -> Result<AskInput, AskInputFault>
    ensures kept { Told (F.files shelf.old) (F.files shelf.new) SameFiles }
    ensures ok { IfOk result (λ given. IfSome (F.files shelf.old) (λ files. ask_input_in None files ≡ Ok ((given.input.settings, given.input.problem), given.asks.items))) }
    ensures live { IfOk result (λ given. All (λ m. IsTrue (is_live given.input.problem m)) given.asks.items) }
    ensures few { IfOk result (λ given. length given.asks.items ≤ 64) }
    ensures graded { IfOk result (λ given. All (HasGrade given.input.settings) given.input.problem.rows) }
    ensures err { IfErr result (λ fault. IfSome (F.files shelf.old) (λ files. RefusesAs ask_part ask_input_in files fault)) }
    ensures later { F.faults shelf.old ≤ F.faults shelf.new }
    ensures cause { IfErr result (FailsIn ask_part ask_names (F.faults shelf.old) (F.faults shelf.new) (F.last_failed shelf.new)) }
    ensures stays { ¬ IsErrAnd result (IsReadFault ask_part) → NoneFailed (F.faults shelf.old) (F.faults shelf.new) (F.last_failed shelf.old) (F.last_failed shelf.new) }
{
    let input = match read_problem(alloc, shelf, FileName::SourceCsv) {
        Ok(input) => input,
        Err(fault) => return Err(AskInputFault::Input(fault)),
    };
    match read_asks_file(alloc, shelf, &input.problem) {
        Ok(asks) => Ok(AskInput { input, asks }),
        Err(fault) => {
            drop(input);
            Err(fault)
        }
    }
}

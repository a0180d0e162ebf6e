//! The problem of a year's files, and a table that was balanced for it.

ghost use Rattle.std.specs.Prelude.{◌≡◌, ◌≤◌, ◌∷◌, [], All, IfErr, IfOk, IfSome, IsErrAnd, None, Ok};
ghost use Rattle.sut_outside.specs.Causes.{NoneFailed};
ghost use Rattle.sut_outside.specs.Files.{Told, SameFiles};
ghost use Rattle.sut_source.specs.SourceText.{HasGrade};
ghost use Rattle.sut_tables.specs.Costs.{IsAdmissible};
ghost use Rattle.sut_tables.specs.Problems.{IsTableOf};
ghost use Rattle.sut_input.specs.Following.{FailsIn, IsReadFault, RefusesAs};
ghost use Rattle.sut_input.specs.TableInputs.{table_fault, table_file_in, table_in, table_input_in, table_names, table_part};

use crate::faults::InputFault;
use crate::files::read_file;
use crate::problems::{Input, read_problem};
use std::alloc::Global;
use sut_outside::{FileName, Shelf};
use sut_readback::{BalancedCause, BalancedFault, read_balanced};
use sut_tables::{Broken, Problem, Table, first_open};

/// Why the files of a year give no admissible table of its problem: the first of these in the order of reading.
#[derive(Debug, Clone, Copy, PartialEq, Eq)]
pub enum TableInputFault {
    /// A file is not there, is too long or could not be read; settings, classes or source have a fault; or memory ran out.
    Input(InputFault),
    /// The first fault of `balanced.csv`.
    BadTable(BalancedFault),
    /// The first identity or bound that the table breaks.
    NotAdmissible(Broken),
}

/// The settings and the problem of a year, and a table of it.
pub struct TableInput {
    pub input: Input,
    pub table: Table,
}

impl Drop for TableInput {
    fn drop(self) {
        let TableInput { input, table } = self;
        drop(input);
        drop(table);
    }
}

fn table_fault(fault: BalancedFault) -> TableInputFault
    ensures { result ≡ table_fault fault }
{
    match fault.cause {
        BalancedCause::NoMemory => TableInputFault::Input(InputFault::NoMemory),
        _ => TableInputFault::BadTable(fault),
    }
}

fn read_table_file<F: Shelf>(
    alloc: Global,
    shelf: &mut F,
    p: &Problem,
) -> Result<Table, TableInputFault>
    ensures kept { Told (F.files shelf.old) (F.files shelf.new) SameFiles }
    ensures ok { IfOk result (λ t. IfSome (F.files shelf.old) (λ files. table_file_in p.now None files ≡ Ok t)) }
    ensures belongs { IfOk result (IsTableOf p.now) }
    ensures err { IfErr result (λ fault. IfSome (F.files shelf.old) (λ files. RefusesAs table_part (table_file_in p.now) files fault)) }
    ensures later { F.faults shelf.old ≤ F.faults shelf.new }
    ensures cause { IfErr result (FailsIn table_part (FileName.BalancedCsv ∷ []) (F.faults shelf.old) (F.faults shelf.new) (F.last_failed shelf.new)) }
    ensures stays { ¬ IsErrAnd result (IsReadFault table_part) → NoneFailed (F.faults shelf.old) (F.faults shelf.new) (F.last_failed shelf.old) (F.last_failed shelf.new) }
{
    let bytes = match read_file(shelf, FileName::BalancedCsv) {
        Ok(bytes) => bytes,
        Err(fault) => return Err(TableInputFault::Input(fault)),
    };
    match read_balanced(alloc, p, &bytes) {
        Ok(table) => Ok(table),
        Err(fault) => Err(table_fault(fault)),
    }
}

fn read_table<F: Shelf>(alloc: Global, shelf: &mut F, p: &Problem) -> Result<Table, TableInputFault>
    ensures kept { Told (F.files shelf.old) (F.files shelf.new) SameFiles }
    ensures ok { IfOk result (λ t. IfSome (F.files shelf.old) (λ files. table_in p.now None files ≡ Ok t)) }
    ensures admissible { IfOk result (IsAdmissible p.now) }
    ensures err { IfErr result (λ fault. IfSome (F.files shelf.old) (λ files. RefusesAs table_part (table_in p.now) files fault)) }
    ensures later { F.faults shelf.old ≤ F.faults shelf.new }
    ensures cause { IfErr result (FailsIn table_part (FileName.BalancedCsv ∷ []) (F.faults shelf.old) (F.faults shelf.new) (F.last_failed shelf.new)) }
    ensures stays { ¬ IsErrAnd result (IsReadFault table_part) → NoneFailed (F.faults shelf.old) (F.faults shelf.new) (F.last_failed shelf.old) (F.last_failed shelf.new) }
{
    match read_table_file(alloc, shelf, p) {
        Ok(table) => match first_open(p, &table) {
            None => Ok(table),
            Some(broken) => {
                drop(table);
                Err(TableInputFault::NotAdmissible(broken))
            }
        },
        Err(fault) => Err(fault),
    }
}

/// Reads `settings.toml`, `classes.csv`, `source.csv` and `balanced.csv`, in this order, each parsed before the next is read, and
/// looks for the first identity or bound that the table breaks. No file changes. A failed read is answered only where the shelf's
/// count of faults rose, and its name is then that of the last failed call; where anything else is answered, no read failed.
pub fn read_table_input<F: Shelf>(
    alloc: Global,
    shelf: &mut F,
) -> Result<TableInput, TableInputFault>
    ensures kept { Told (F.files shelf.old) (F.files shelf.new) SameFiles }
    ensures ok { IfOk result (λ given. IfSome (F.files shelf.old) (λ files. table_input_in None files ≡ Ok ((given.input.settings, given.input.problem), given.table))) }
    ensures admissible { IfOk result (λ given. IsAdmissible given.input.problem given.table) }
    ensures graded { IfOk result (λ given. All (HasGrade given.input.settings) given.input.problem.rows) }
    ensures err { IfErr result (λ fault. IfSome (F.files shelf.old) (λ files. RefusesAs table_part table_input_in files fault)) }
    ensures later { F.faults shelf.old ≤ F.faults shelf.new }
    ensures cause { IfErr result (FailsIn table_part table_names (F.faults shelf.old) (F.faults shelf.new) (F.last_failed shelf.new)) }
    ensures stays { ¬ IsErrAnd result (IsReadFault table_part) → NoneFailed (F.faults shelf.old) (F.faults shelf.new) (F.last_failed shelf.old) (F.last_failed shelf.new) }
{
    let input = match read_problem(alloc, shelf, FileName::SourceCsv) {
        Ok(input) => input,
        Err(fault) => return Err(TableInputFault::Input(fault)),
    };
    match read_table(alloc, shelf, &input.problem) {
        Ok(table) => Ok(TableInput { input, table }),
        Err(fault) => {
            drop(input);
            Err(fault)
        }
    }
}

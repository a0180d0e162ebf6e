//! The run of a command.

ghost use Rattle.std.specs.Prelude.{◌≡◌, ◌≢◌, ◌⊎◌, ◌↔◌, None, Some, All, IsOk, IfSome, Contains, map, string_bytes};
ghost use Rattle.sut_outside.specs.Files.{Told};
ghost use Rattle.sut_outside.specs.Causes.{NoneFailed, Rose};
ghost use Rattle.sut_review.specs.Seats.{new_seat};
ghost use Rattle.sut_run.specs.Commands.{IsSized, command_of, read_names, written_names};
ghost use Rattle.sut_run.specs.Inputs.{input_of};
ghost use Rattle.sut_run.specs.Ends.{AnswersInput, AreLines, IsDone, IsEndOf, LeavesAll, Prints, Stands};
ghost use Rattle.sut_run.specs.Headlines.{Headline, IsChecked, MayBeInfeasible, WritesClasses, WritesCut, WritesLeast};
ghost use Rattle.sut_run.specs.Ready.{Promises};
ghost use Rattle.sut_run.specs.Steps.{IfReadFault, IfWriteFault, IsShelfFault};

use crate::commands::{Command, command_named};
use crate::preparing::prepare_command;
use crate::writing::deliver;
use std::alloc::Global;
use sut_outside::{Shelf, Sink};
use sut_review::Reviewer;
use sut_status::Status;

// Reads what a command reads, makes all texts, writes them in order, and then prints the lines in one put.
fn run_command<F: Shelf, K: Sink>(
    alloc: Global,
    command: Command,
    shelf: &mut F,
    out: &mut K,
    reviewers: Vec<Box<dyn Reviewer>>,
) -> Status
    requires zero { All (λ b. marked b ≡ 0) reviewers.items }
    requires sized { IsSized command }
    ensures input { IfSome (F.files shelf.old) (λ files. AnswersInput (map (λ b. new_seat (name b) (rule b)) reviewers.items) command files result) }
    ensures stands { Told (F.files shelf.old) (F.files shelf.new) (Stands (map (λ b. new_seat (name b) (rule b)) reviewers.items) command result (K.sent out.old) (K.sent out.new)) }
    ensures read_fault { IfReadFault result (λ failed. Rose (F.faults shelf.old) (F.faults shelf.new) × (F.last_failed shelf.new ≡ Some failed) × Contains (read_names command) failed) }
    ensures write_fault { IfWriteFault result (λ failed. Rose (F.faults shelf.old) (F.faults shelf.new) × (F.last_failed shelf.new ≡ Some failed) × Contains (written_names command) failed) }
    ensures sink_fault { result ≡ Status.SinkFault → Rose (K.faults out.old) (K.faults out.new) }
    ensures shelf_stays { ¬ IsShelfFault result → NoneFailed (F.faults shelf.old) (F.faults shelf.new) (F.last_failed shelf.old) (F.last_failed shelf.new) }
    ensures sink_stays { result ≢ Status.SinkFault → K.faults out.new ≡ K.faults out.old }
    ensures printed { Told (K.sent out.old) (K.sent out.new) (Prints (AreLines (map (λ b. new_seat (name b) (rule b)) reviewers.items) command (F.files shelf.old)) result) }
    ensures ends { IsDone result → IsEndOf command result }
    ensures promised { IsDone result → Told (F.files shelf.old) (F.files shelf.new) (Promises (map (λ b. new_seat (name b) (rule b)) reviewers.items) command result (K.sent out.old) (K.sent out.new)) }
    ensures used { result ≢ Status.Usage }
{
    let prepared = match prepare_command(alloc, command, shelf, reviewers) {
        Ok(prepared) => prepared,
        Err(refused) => return refused,
    };
    match deliver(shelf, out, &prepared.made) {
        Ok(()) => prepared.done,
        Err(stopped) => stopped,
    }
}

/// Runs the command that the words name, over a shelf of files and a sink of printed lines, with the reviewers that the
/// caller hands in, none of which has marked a row yet. The words are accepted exactly where they are `balance`, or `edit`, or
/// `migrate`, or `generate SEED PRODUCTS INDUSTRIES` with three shortest decimals of a size that the generator makes.
///
/// `balance` reads `settings.toml`, `classes.csv` and `source.csv`, each once, each parsed before the next is read. Where some
/// table of whole numbers meets all identities and bounds, it writes one with the least weighted sum of penalties
/// (`balanced.csv`, `supply.csv`, `use.csv`, `accounts.csv`), potentials that show it least (`certificate.csv`) and a report
/// (`report.json`), and prints the cost and GDP by production, income and expenditure (SNA 2008, chapter 14; Stone,
/// Champernowne and Meade 1942). Where there is none, it writes a set of accounts whose bounds contradict each other
/// (Hoffman) and a report, and prints both sums. Where reviewers were handed in, each sees a balanced table, and
/// `review.csv` is written last.
///
/// `edit` reads `edits.csv` after these three, and takes its edits in order: a `set`, an `add` or a `drop` changes a row, a
/// `balance` balances the rows as they are then, and a `dismiss` ends the standing of the first reviewer with its label. Where
/// the last edit is no `balance`, there is one at the end. The reviewers that stand see each balanced table. It writes the rows
/// after all edits (`edited.csv`), the cells of each balanced table (`trail.csv`), and then all that `balance` writes, of the
/// last answer; and prints a line for each time that the rows were balanced before the lines of `balance`.
///
/// `generate` writes `made_settings.toml`, `made_classes.csv` and `made_source.csv`, balances them in memory, and prints the
/// number of rows and the least cost. It shows nothing to reviewers.
///
/// `migrate` reads `classes.csv` alone, in either format, writes the same classes in format 2 (`classes2.csv`), and prints
/// how many codes there are on all axes. It shows nothing to reviewers.
///
/// All texts are made before the first write; the first failure ends the run, and is its answer: where that is neither a failed
/// read nor a failed write, no call of the shelf failed, and where it is not `SinkFault`, no put.
pub fn run<F: Shelf, K: Sink>(
    alloc: Global,
    words: &[String],
    shelf: &mut F,
    out: &mut K,
    reviewers: Vec<Box<dyn Reviewer>>,
) -> Status
    requires { All (λ b. marked b ≡ 0) reviewers.items }

    // The words are refused exactly where they name no command, and then nothing is done.
    ensures usage { (result ≡ Status.Usage) ↔ (command_of (map string_bytes words.now) ≡ None) }
    ensures unused { command_of (map string_bytes words.now) ≡ None → Told (F.files shelf.old) (F.files shelf.new) (λ old new. LeavesAll old new (K.sent out.old) (K.sent out.new)) }
    ensures untouched { command_of (map string_bytes words.now) ≡ None → (shelf.new ≡ shelf.old) × (out.new ≡ out.old) }

    // What each answer says of the files at entry, and what stands after it.
    ensures input { IfSome (command_of (map string_bytes words.now)) (λ c. IfSome (F.files shelf.old) (λ files. AnswersInput (map (λ b. new_seat (name b) (rule b)) reviewers.items) c files result)) }
    ensures stands { IfSome (command_of (map string_bytes words.now)) (λ c. Told (F.files shelf.old) (F.files shelf.new) (Stands (map (λ b. new_seat (name b) (rule b)) reviewers.items) c result (K.sent out.old) (K.sent out.new))) }

    // A fault of a device is answered only where its count rose, with the name of the last failed call.
    ensures read_fault { IfReadFault result (λ failed. Rose (F.faults shelf.old) (F.faults shelf.new) × (F.last_failed shelf.new ≡ Some failed)
        × IfSome (command_of (map string_bytes words.now)) (λ c. Contains (read_names c) failed)) }
    ensures write_fault { IfWriteFault result (λ failed. Rose (F.faults shelf.old) (F.faults shelf.new) × (F.last_failed shelf.new ≡ Some failed)
        × IfSome (command_of (map string_bytes words.now)) (λ c. Contains (written_names c) failed)) }
    ensures sink_fault { result ≡ Status.SinkFault → Rose (K.faults out.old) (K.faults out.new) }

    // Where another answer is given, no call of the device failed.
    ensures shelf_stays { ¬ IsShelfFault result → NoneFailed (F.faults shelf.old) (F.faults shelf.new) (F.last_failed shelf.old) (F.last_failed shelf.new) }
    ensures sink_stays { result ≢ Status.SinkFault → K.faults out.new ≡ K.faults out.old }

    // What went out, whether or not the shelf tells its files.
    ensures printed { Told (K.sent out.old) (K.sent out.new) (Prints (λ ends lines. IfSome (command_of (map string_bytes words.now)) (λ c. AreLines (map (λ b. new_seat (name b) (rule b)) reviewers.items) c (F.files shelf.old) ends lines)) result) }

    // Where the input is given and no count rose, the run is done, or memory ran out.
    ensures complete { IfSome (command_of (map string_bytes words.now)) (λ c. IfSome (F.files shelf.old) (λ files.
        IsOk (input_of (map (λ b. new_seat (name b) (rule b)) reviewers.items) c None files) → ¬ Rose (F.faults shelf.old) (F.faults shelf.new) → ¬ Rose (K.faults out.old) (K.faults out.new)
        → (result ≡ Status.NoMemory) ⊎ IsDone result)) }

    // Balanced: the written table is least for the source, or for the rows after all edits, has one GDP, and the written
    // certificate shows it; tables, accounts, report and the last printed lines are of the same table.
    ensures balanced { IfSome (command_of (map string_bytes words.now)) (λ c. result ≡ Status.Balanced → IsChecked c × Told (F.files shelf.old) (F.files shelf.new) (Headline (map (λ b. new_seat (name b) (rule b)) reviewers.items) c (WritesLeast (K.sent out.old) (K.sent out.new)))) }

    // Infeasible: only of a command whose problem may be, and where its answer is written for the separate check, the written
    // set contradicts, no table exists, and report and the last printed lines are of the same set.
    ensures infeasible { IfSome (command_of (map string_bytes words.now)) (λ c. result ≡ Status.Infeasible → MayBeInfeasible c × (IsChecked c → Told (F.files shelf.old) (F.files shelf.new) (Headline (map (λ b. new_seat (name b) (rule b)) reviewers.items) c (WritesCut (K.sent out.old) (K.sent out.new))))) }

    // A run is done only with an answer of its command.
    ensures ends { IfSome (command_of (map string_bytes words.now)) (λ c. IsDone result → IsEndOf c result) }

    // Migrated: the written classes read back as those at entry, in format 2.
    ensures migrated { result ≡ Status.Migrated → Told (F.files shelf.old) (F.files shelf.new) WritesClasses }
{
    match command_named(words) {
        Some(command) => run_command(alloc, command, shelf, out, reviewers),
        None => {
            drop(reviewers);
            Status::Usage
        }
    }
}

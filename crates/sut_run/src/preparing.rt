//! What a command makes before its first write.

ghost use Rattle.std.specs.Prelude.{◌≡◌, ◌≤◌, All, IfErr, IfOk, IsErrAnd, map};
ghost use Rattle.sut_outside.specs.Files.{SameFiles, Told};
ghost use Rattle.sut_outside.specs.Causes.{NoneFailed};
ghost use Rattle.sut_review.specs.Seats.{new_seat};
ghost use Rattle.sut_run.specs.Commands.{IsSized};
ghost use Rattle.sut_run.specs.Outputs.{texts_in};
ghost use Rattle.sut_run.specs.Ready.{IsReady, IsRefused};
ghost use Rattle.sut_run.specs.Steps.{IsShelfFault};

use crate::balancing::prepare_balance;
use crate::commands::Command;
use crate::editing::prepare_edits;
use crate::generating::prepare_year;
use crate::migrating::prepare_migration;
use crate::writing::Made;
use std::alloc::Global;
use sut_outside::Shelf;
use sut_review::Reviewer;
use sut_status::Status;

/// What is delivered, and the status of the run after it.
#[derive(Drop)]
pub(crate) struct Prepared {
    pub(crate) done: Status,
    pub(crate) made: Made,
}

/// Reads what the command reads, each file once and each parsed before the next is read, and makes all that it writes and
/// prints; or the first refusal. No file changes.
pub(crate) fn prepare_command<F: Shelf>(
    alloc: Global,
    command: Command,
    shelf: &mut F,
    reviewers: Vec<Box<dyn Reviewer>>,
) -> Result<Prepared, Status>
    requires zero { All (λ b. marked b ≡ 0) reviewers.items }
    requires sized { IsSized command }
    ensures kept { Told (F.files shelf.old) (F.files shelf.new) SameFiles }
    ensures ready { IfOk result (λ x. IsReady (map (λ b. new_seat (name b) (rule b)) reviewers.items) command (F.files shelf.old) x.done (texts_in x.made.outputs.items) x.made.lines.items) }
    ensures refused { IfErr result (λ s. IsRefused (map (λ b. new_seat (name b) (rule b)) reviewers.items) command (F.files shelf.old) (F.faults shelf.old) (F.faults shelf.new) (F.last_failed shelf.new) s) }
    ensures later { F.faults shelf.old ≤ F.faults shelf.new }
    ensures stays { ¬ IsErrAnd result IsShelfFault → NoneFailed (F.faults shelf.old) (F.faults shelf.new) (F.last_failed shelf.old) (F.last_failed shelf.new) }
{
    match command {
        Command::Balance => prepare_balance(alloc, shelf, reviewers),
        Command::Edit => prepare_edits(alloc, shelf, reviewers),
        Command::Migrate => {
            drop(reviewers);
            prepare_migration(alloc, shelf)
        }
        Command::Generate(seed, products, industries) => {
            drop(reviewers);
            prepare_year(alloc, seed, products, industries)
        }
    }
}

//! The command `balance`.

ghost use Rattle.std.specs.Prelude.{◌≡◌, ◌≤◌, ◌↔◌, ◌<◌, All, IfErr, IfOk, IsErrAnd, IsTrue, map};
ghost use Rattle.sut_outside.specs.Files.{SameFiles, Told};
ghost use Rattle.sut_outside.specs.Causes.{NoneFailed};
ghost use Rattle.sut_tables.specs.Costs.{IsImpossible};
ghost use Rattle.sut_cert.specs.Right.{IsRight, is_infeasible};
ghost use Rattle.sut_review.specs.Seats.{new_seat};
ghost use Rattle.sut_run.specs.Inputs.{refused};
ghost use Rattle.sut_run.specs.Outputs.{texts_in};
ghost use Rattle.sut_run.specs.Prepared.{IsPrepared};
ghost use Rattle.sut_run.specs.Ready.{IsReady, IsRefused};
ghost use Rattle.sut_run.specs.Steps.{IsShelfFault};

use crate::commands::Command;
use crate::outputs::{make, status_of};
use crate::preparing::Prepared;
use crate::reviewing::review_of;
use flow_residual::Steps;
use no_memory::NoMemory;
use std::alloc::Global;
use std::marker::Brand;
use std::sync::ledger::{Blank, Ledger};
use sut_balance::{Answer, balance};
use sut_input::{InputFault, read_problem};
use sut_outside::{FileName, Shelf};
use sut_review::Reviewer;
use sut_status::Status;
use sut_tables::Problem;

pub(crate) fn refused(fault: InputFault) -> Status
    ensures { result ≡ refused fault }
{
    match fault {
        InputFault::Missing(name) => Status::Missing(name),
        InputFault::TooLong(name) => Status::TooLong(name),
        InputFault::ReadFault(name) => Status::ReadFault(name),
        InputFault::BadSettings(fault) => Status::BadSettings(fault),
        InputFault::BadClasses(fault) => Status::BadClasses(fault),
        InputFault::BadSource(fault) => Status::BadSource(fault),
        InputFault::NoMemory => Status::NoMemory,
    }
}

fn counted<L: Ledger>(alloc: Global, p: &Problem, blank: Blank) -> Result<Answer, NoMemory>
    requires name { blank.name ≡ L.name }
    requires parts { blank.parts ≡ L.parts }
    requires some { 0 < L.parts }
    ensures right { IfOk result (IsRight p.now) }
    ensures infeasible { IfOk result (λ a. IsTrue (is_infeasible a) ↔ IsImpossible p.now) }
{
    let mut steps = Steps::<L>::new(blank);
    balance(alloc, p, &mut steps)
}

/// The answer to a problem.
pub(crate) fn answer_to(alloc: Global, p: &Problem) -> Result<Answer, NoMemory>
    ensures right { IfOk result (IsRight p.now) }
    ensures infeasible { IfOk result (λ a. IsTrue (is_infeasible a) ↔ IsImpossible p.now) }
{
    counted::<Brand>(alloc, p, Blank::new(1))
}

// Balances, shows the table to the reviewers, and makes all texts.
fn prepare(
    alloc: Global,
    p: &Problem,
    reviewers: Vec<Box<dyn Reviewer>>,
) -> Result<Prepared, NoMemory>
    requires { All (λ b. marked b ≡ 0) reviewers.items }
    ensures { IfOk result (λ x. IsPrepared (map (λ b. new_seat (name b) (rule b)) reviewers.items) p.now x.done (texts_in x.made.outputs.items) x.made.lines.items) }
{
    let answer = answer_to(alloc, p)?;
    let done = status_of(&answer);
    let review = review_of(alloc, p, &answer, reviewers)?;
    let made = make(alloc, p, answer, review)?;
    Ok(Prepared { done, made })
}

/// Reads settings, classes and source, balances, and makes the tables, the certificate and the report, the review where
/// reviewers were handed in, and three lines.
pub(crate) fn prepare_balance<F: Shelf>(
    alloc: Global,
    shelf: &mut F,
    reviewers: Vec<Box<dyn Reviewer>>,
) -> Result<Prepared, Status>
    requires { All (λ b. marked b ≡ 0) reviewers.items }
    ensures kept { Told (F.files shelf.old) (F.files shelf.new) SameFiles }
    ensures ready { IfOk result (λ x. IsReady (map (λ b. new_seat (name b) (rule b)) reviewers.items) Command.Balance (F.files shelf.old) x.done (texts_in x.made.outputs.items) x.made.lines.items) }
    ensures refused { IfErr result (λ s. IsRefused (map (λ b. new_seat (name b) (rule b)) reviewers.items) Command.Balance (F.files shelf.old) (F.faults shelf.old) (F.faults shelf.new) (F.last_failed shelf.new) s) }
    ensures later { F.faults shelf.old ≤ F.faults shelf.new }
    ensures stays { ¬ IsErrAnd result IsShelfFault → NoneFailed (F.faults shelf.old) (F.faults shelf.new) (F.last_failed shelf.old) (F.last_failed shelf.new) }
{
    let input = match read_problem(alloc, shelf, FileName::SourceCsv) {
        Ok(input) => input,
        Err(fault) => {
            drop(reviewers);
            return Err(refused(fault));
        }
    };
    let prepared = prepare(alloc, &input.problem, reviewers);
    drop(input);
    match prepared {
        Ok(prepared) => Ok(prepared),
        Err(_) => Err(Status::NoMemory),
    }
}

//! What the files of a check spell.

ghost use Rattle.std.specs.Prelude.{◌≡◌, ◌≤◌, IfErr, IfOk, IfSome, IsErrAnd, None, Ok};
ghost use Rattle.sut_outside.specs.Causes.{NoneFailed};
ghost use Rattle.sut_outside.specs.Files.{Told, SameFiles};
ghost use Rattle.sut_input.specs.Inputs.{problem_in};
ghost use Rattle.sut_check.specs.CheckWords.{IsCheckedSource, checked_names};
ghost use Rattle.sut_check.specs.Claims.{FailsIn, IsReadFault, Refuses, claim_in};
ghost use Rattle.sut_check.specs.Findings.{IsClaimFor};

use crate::faults::CheckFault;
use crate::files::read_answer;
use std::alloc::Global;
use sut_cert::Answer;
use sut_input::{Input, read_problem};
use sut_outside::{FileName, Shelf};

/// The settings and the problem of a year, and the answer that is claimed for it.
#[derive(Drop)]
pub struct Claim {
    pub input: Input,
    pub answer: Answer,
}

/// Reads `settings.toml`, `classes.csv`, the source that stands under this name, `certificate.csv`, and `balanced.csv` where
/// the certificate holds potentials, in this order, each parsed before the next is read. No file changes. Where anything but
/// a failed read is answered, no read failed.
pub fn read_claim<F: Shelf>(
    alloc: Global,
    shelf: &mut F,
    source: FileName,
) -> Result<Claim, CheckFault>
    requires { IsCheckedSource source }
    ensures kept { Told (F.files shelf.old) (F.files shelf.new) SameFiles }
    ensures ok { IfOk result (λ claim. IfSome (F.files shelf.old) (λ files. claim_in source None files ≡ Ok (claim.input.problem, claim.answer))) }
    ensures settings { IfOk result (λ claim. IfSome (F.files shelf.old) (λ files. problem_in source None files ≡ Ok (claim.input.settings, claim.input.problem))) }
    ensures belongs { IfOk result (λ claim. IsClaimFor claim.input.problem claim.answer) }
    ensures err { IfErr result (λ fault. IfSome (F.files shelf.old) (λ files. Refuses (claim_in source) files fault)) }
    ensures cause { IfErr result (FailsIn (checked_names source) (F.faults shelf.old) (F.faults shelf.new) (F.last_failed shelf.new)) }
    ensures stays { ¬ IsErrAnd result IsReadFault → NoneFailed (F.faults shelf.old) (F.faults shelf.new) (F.last_failed shelf.old) (F.last_failed shelf.new) }
{
    let input = match read_problem(alloc, shelf, source) {
        Ok(input) => input,
        Err(fault) => return Err(CheckFault::Input(fault)),
    };
    match read_answer(alloc, shelf, &input.problem) {
        Ok(answer) => Ok(Claim { input, answer }),
        Err(fault) => Err(fault),
    }
}

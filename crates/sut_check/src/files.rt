//! The files of an answer: a certificate, and with potentials a table.

ghost use Rattle.std.specs.Prelude.{◌≡◌, ◌≤◌, ◌∷◌, [], IfErr, IfOk, IfSome, IsErrAnd, None, Ok};
ghost use Rattle.sut_outside.specs.Causes.{NoneFailed};
ghost use Rattle.sut_outside.specs.Files.{Told, SameFiles};
ghost use Rattle.sut_tables.specs.Problems.{IsTableOf};
ghost use Rattle.sut_check.specs.CheckWords.{answer_names};
ghost use Rattle.sut_check.specs.Claims.{FailsIn, IsReadFault, Refuses, answer_by, answer_in, certificate_in, table_in};
ghost use Rattle.sut_check.specs.Findings.{IsClaimFor};

use crate::faults::{CheckFault, certificate_fault, table_fault};
use std::alloc::Global;
use sut_cert::{Answer, Certificate, Potentials, read_certificate};
use sut_input::read_file;
use sut_outside::{FileName, Shelf};
use sut_readback::read_balanced;
use sut_tables::{Problem, Table};

fn read_certificate_file<F: Shelf>(
    alloc: Global,
    shelf: &mut F,
    p: &Problem,
) -> Result<Certificate, CheckFault>
    ensures kept { Told (F.files shelf.old) (F.files shelf.new) SameFiles }
    ensures ok { IfOk result (λ c. IfSome (F.files shelf.old) (λ files. certificate_in p.now None files ≡ Ok c)) }
    ensures err { IfErr result (λ fault. IfSome (F.files shelf.old) (λ files. Refuses (certificate_in p.now) files fault)) }
    ensures later { F.faults shelf.old ≤ F.faults shelf.new }
    ensures cause { IfErr result (FailsIn (FileName.CertificateCsv ∷ []) (F.faults shelf.old) (F.faults shelf.new) (F.last_failed shelf.new)) }
    ensures stays { ¬ IsErrAnd result IsReadFault → NoneFailed (F.faults shelf.old) (F.faults shelf.new) (F.last_failed shelf.old) (F.last_failed shelf.new) }
{
    let bytes = match read_file(shelf, FileName::CertificateCsv) {
        Ok(bytes) => bytes,
        Err(fault) => return Err(CheckFault::Input(fault)),
    };
    match read_certificate(alloc, p, &bytes) {
        Ok(certificate) => Ok(certificate),
        Err(fault) => Err(certificate_fault(fault)),
    }
}

fn read_table_file<F: Shelf>(alloc: Global, shelf: &mut F, p: &Problem) -> Result<Table, CheckFault>
    ensures kept { Told (F.files shelf.old) (F.files shelf.new) SameFiles }
    ensures ok { IfOk result (λ t. IfSome (F.files shelf.old) (λ files. table_in p.now None files ≡ Ok t)) }
    ensures belongs { IfOk result (IsTableOf p.now) }
    ensures err { IfErr result (λ fault. IfSome (F.files shelf.old) (λ files. Refuses (table_in p.now) files fault)) }
    ensures later { F.faults shelf.old ≤ F.faults shelf.new }
    ensures cause { IfErr result (FailsIn (FileName.BalancedCsv ∷ []) (F.faults shelf.old) (F.faults shelf.new) (F.last_failed shelf.new)) }
    ensures stays { ¬ IsErrAnd result IsReadFault → NoneFailed (F.faults shelf.old) (F.faults shelf.new) (F.last_failed shelf.old) (F.last_failed shelf.new) }
{
    let bytes = match read_file(shelf, FileName::BalancedCsv) {
        Ok(bytes) => bytes,
        Err(fault) => return Err(CheckFault::Input(fault)),
    };
    match read_balanced(alloc, p, &bytes) {
        Ok(table) => Ok(table),
        Err(fault) => Err(table_fault(fault)),
    }
}

// Potentials, and the table that they are said to show.
fn with_table<F: Shelf>(
    alloc: Global,
    shelf: &mut F,
    p: &Problem,
    potentials: Potentials,
) -> Result<Answer, CheckFault>
    ensures kept { Told (F.files shelf.old) (F.files shelf.new) SameFiles }
    ensures ok { IfOk result (λ a. IfSome (F.files shelf.old) (λ files. answer_by p.now (Certificate.Potentials potentials) None files ≡ Ok a)) }
    ensures belongs { IfOk result (IsClaimFor p.now) }
    ensures err { IfErr result (λ fault. IfSome (F.files shelf.old) (λ files. Refuses (answer_by p.now (Certificate.Potentials potentials)) files fault)) }
    ensures later { F.faults shelf.old ≤ F.faults shelf.new }
    ensures cause { IfErr result (FailsIn (FileName.BalancedCsv ∷ []) (F.faults shelf.old) (F.faults shelf.new) (F.last_failed shelf.new)) }
    ensures stays { ¬ IsErrAnd result IsReadFault → NoneFailed (F.faults shelf.old) (F.faults shelf.new) (F.last_failed shelf.old) (F.last_failed shelf.new) }
{
    match read_table_file(alloc, shelf, p) {
        Ok(table) => Ok(Answer::Balanced(table, potentials)),
        Err(fault) => Err(fault),
    }
}

// The answer that a certificate claims; the table is read only where it holds potentials.
fn by_certificate<F: Shelf>(
    alloc: Global,
    shelf: &mut F,
    p: &Problem,
    certificate: Certificate,
) -> Result<Answer, CheckFault>
    ensures kept { Told (F.files shelf.old) (F.files shelf.new) SameFiles }
    ensures ok { IfOk result (λ a. IfSome (F.files shelf.old) (λ files. answer_by p.now certificate None files ≡ Ok a)) }
    ensures belongs { IfOk result (IsClaimFor p.now) }
    ensures err { IfErr result (λ fault. IfSome (F.files shelf.old) (λ files. Refuses (answer_by p.now certificate) files fault)) }
    ensures later { F.faults shelf.old ≤ F.faults shelf.new }
    ensures cause { IfErr result (FailsIn (FileName.BalancedCsv ∷ []) (F.faults shelf.old) (F.faults shelf.new) (F.last_failed shelf.new)) }
    ensures stays { ¬ IsErrAnd result IsReadFault → NoneFailed (F.faults shelf.old) (F.faults shelf.new) (F.last_failed shelf.old) (F.last_failed shelf.new) }
{
    match certificate {
        Certificate::Potentials(potentials) => with_table(alloc, shelf, p, potentials),
        Certificate::Cut(set) => Ok(Answer::Infeasible(set)),
    }
}

/// Reads `certificate.csv`, and `balanced.csv` where it holds potentials: the answer that is claimed for a problem.
pub(crate) fn read_answer<F: Shelf>(
    alloc: Global,
    shelf: &mut F,
    p: &Problem,
) -> Result<Answer, CheckFault>
    ensures kept { Told (F.files shelf.old) (F.files shelf.new) SameFiles }
    ensures ok { IfOk result (λ a. IfSome (F.files shelf.old) (λ files. answer_in p.now None files ≡ Ok a)) }
    ensures belongs { IfOk result (IsClaimFor p.now) }
    ensures err { IfErr result (λ fault. IfSome (F.files shelf.old) (λ files. Refuses (answer_in p.now) files fault)) }
    ensures later { F.faults shelf.old ≤ F.faults shelf.new }
    ensures cause { IfErr result (FailsIn answer_names (F.faults shelf.old) (F.faults shelf.new) (F.last_failed shelf.new)) }
    ensures stays { ¬ IsErrAnd result IsReadFault → NoneFailed (F.faults shelf.old) (F.faults shelf.new) (F.last_failed shelf.old) (F.last_failed shelf.new) }
{
    match read_certificate_file(alloc, shelf, p) {
        Ok(certificate) => by_certificate(alloc, shelf, p, certificate),
        Err(fault) => Err(fault),
    }
}

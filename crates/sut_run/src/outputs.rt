//! The texts of an answer.

ghost use Rattle.std.specs.Prelude.{◌≡◌, ◌++◌, ◌∷◌, [], IfOk, OnOk};
ghost use Rattle.sut_tables.specs.Costs.{IsAdmissible};
ghost use Rattle.sut_cert.specs.Right.{IsRight};
ghost use Rattle.sut_cert.specs.CertificateText.{NamesLiveAccounts};
ghost use Rattle.sut_write.specs.Screen as screen;
ghost use Rattle.sut_run.specs.Outputs.{review_in, texts_in};
ghost use Rattle.sut_run.specs.Deliveries.{ReadsBack, SpellsCertificate, SpellsTable, answer_files, certificate_file, front_files, status_of, table_files};

use crate::writing::{Made, Output};
use no_memory::NoMemory;
use std::alloc::Global;
use sut_cert::{Answer, Certificate, print_certificate};
use sut_outside::FileName;
use sut_status::Status;
use sut_tables::{Problem, Table};
use sut_write::{accounts_text, balanced_text, report_text, screen_text, supply_text, use_text};

/// How a run ends that delivers an answer.
pub(crate) fn status_of(answer: &Answer) -> Status
    ensures { result ≡ status_of answer.now }
{
    match answer {
        Answer::Balanced(_, _) => Status::Balanced,
        Answer::Infeasible(_) => Status::Infeasible,
    }
}

pub(crate) fn push_text(
    outputs: &mut Vec<Output>,
    name: FileName,
    text: Vec<u8>,
) -> Result<(), NoMemory>
    ensures { OnOk result (texts_in outputs.new.items ≡ texts_in outputs.old.items ++ (name, text.items) ∷ []) }
{
    outputs.push(Output { name, text })?;
    Ok(())
}

// The four tables of a balanced answer.
fn table_outputs(alloc: Global, p: &Problem, t: &Table) -> Result<Vec<Output>, NoMemory>
    requires { IsAdmissible p.now t.now }
    ensures texts { IfOk result (λ outputs. texts_in outputs.items ≡ table_files p.now t.now) }
    ensures spells { OnOk result (SpellsTable p.now t.now) }
{
    let balanced = balanced_text(alloc, p, t)?;
    let supply = supply_text(alloc, p, t)?;
    let uses = use_text(alloc, p, t)?;
    let accounts = accounts_text(alloc, p, t)?;
    let mut outputs = Vec::new(alloc);
    push_text(&mut outputs, FileName::BalancedCsv, balanced)?;
    push_text(&mut outputs, FileName::SupplyCsv, supply)?;
    push_text(&mut outputs, FileName::UseCsv, uses)?;
    push_text(&mut outputs, FileName::AccountsCsv, accounts)?;
    Ok(outputs)
}

fn push_certificate(
    alloc: Global,
    p: &Problem,
    c: &Certificate,
    outputs: &mut Vec<Output>,
) -> Result<(), NoMemory>
    requires { NamesLiveAccounts p.now c.now }
    ensures text { OnOk result (texts_in outputs.new.items ≡ texts_in outputs.old.items ++ certificate_file p.now c.now ∷ []) }
    ensures spells { OnOk result (SpellsCertificate p.now c.now) }
{
    let text = print_certificate(alloc, p, c)?;
    push_text(outputs, FileName::CertificateCsv, text)?;
    Ok(())
}

// The tables and the certificate of a balanced answer.
fn balanced_outputs(
    alloc: Global,
    p: &Problem,
    t: &Table,
    c: &Certificate,
) -> Result<Vec<Output>, NoMemory>
    requires admissible { IsAdmissible p.now t.now }
    requires names { NamesLiveAccounts p.now c.now }
    ensures texts { IfOk result (λ outputs. texts_in outputs.items ≡ table_files p.now t.now ++ certificate_file p.now c.now ∷ []) }
    ensures table { OnOk result (SpellsTable p.now t.now) }
    ensures certificate { OnOk result (SpellsCertificate p.now c.now) }
{
    let mut outputs = table_outputs(alloc, p, t)?;
    push_certificate(alloc, p, c, &mut outputs)?;
    Ok(outputs)
}

// The certificate of an infeasible answer.
fn cut_outputs(alloc: Global, p: &Problem, c: &Certificate) -> Result<Vec<Output>, NoMemory>
    requires { NamesLiveAccounts p.now c.now }
    ensures texts { IfOk result (λ outputs. texts_in outputs.items ≡ certificate_file p.now c.now ∷ []) }
    ensures certificate { OnOk result (SpellsCertificate p.now c.now) }
{
    let mut outputs = Vec::new(alloc);
    push_certificate(alloc, p, c, &mut outputs)?;
    Ok(outputs)
}

// What is written of an answer before the report.
fn front_outputs(alloc: Global, p: &Problem, answer: Answer) -> Result<Vec<Output>, NoMemory>
    requires { IsRight p.now answer }
    ensures texts { IfOk result (λ outputs. texts_in outputs.items ≡ front_files p.now answer) }
    ensures reads_back { OnOk result (ReadsBack p.now answer) }
{
    match answer {
        Answer::Balanced(table, potentials) => {
            let certificate = Certificate::Potentials(potentials);
            let outputs = balanced_outputs(alloc, p, &table, &certificate)?;
            Ok(outputs)
        }
        Answer::Infeasible(set) => {
            let certificate = Certificate::Cut(set);
            let outputs = cut_outputs(alloc, p, &certificate)?;
            Ok(outputs)
        }
    }
}

fn push_review(outputs: &mut Vec<Output>, review: Option<Vec<u8>>) -> Result<(), NoMemory>
    ensures { OnOk result (texts_in outputs.new.items ≡ texts_in outputs.old.items ++ review_in review) }
{
    match review {
        Some(text) => push_text(outputs, FileName::ReviewCsv, text),
        None => Ok(()),
    }
}

/// All that is written of an answer, with the review if there is one, and then printed.
pub(crate) fn make(
    alloc: Global,
    p: &Problem,
    answer: Answer,
    review: Option<Vec<u8>>,
) -> Result<Made, NoMemory>
    requires { IsRight p.now answer }
    ensures texts { IfOk result (λ made. texts_in made.outputs.items ≡ answer_files p.now answer ++ review_in review) }
    ensures lines { IfOk result (λ made. made.lines.items ≡ screen.screen_text p.now answer) }
    ensures reads_back { OnOk result (ReadsBack p.now answer) }
{
    let lines = screen_text(alloc, p, &answer)?;
    let report = report_text(alloc, p, &answer)?;
    let mut outputs = front_outputs(alloc, p, answer)?;
    push_text(&mut outputs, FileName::ReportJson, report)?;
    push_review(&mut outputs, review)?;
    Ok(Made { outputs, lines })
}

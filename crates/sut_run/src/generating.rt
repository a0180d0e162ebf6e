//! The command `generate`.

ghost use Rattle.std.specs.Prelude.{◌≡◌, true, IfErr, IfOk, List, Ok, Option};
ghost use Rattle.sut_outside.specs.Files as outside;
ghost use Rattle.sut_settings.specs.SettingsFile.{settings_of};
ghost use Rattle.sut_classes.specs.ClassFile.{classes_of};
ghost use Rattle.sut_generate.specs.MadeFiles.{AreMade};
ghost use Rattle.sut_generate.specs.Generator.{is_size, made_classes, made_settings, made_source};
ghost use Rattle.generated_laws.specs.MadeLists.{made_facts, made_lists};
ghost use Rattle.sut_review.specs.Seats.{SeatFacts};
ghost use Rattle.sut_run.specs.Deliveries.{IsMadeProblem, IsMadeYear, PrintsMade, made_files};
ghost use Rattle.sut_run.specs.Outputs.{texts_in};
ghost use Rattle.sut_run.specs.Ready.{IsReady};

use crate::balancing::answer_to;
use crate::commands::Command;
use crate::outputs::push_text;
use crate::preparing::Prepared;
use crate::writing::{Made, Output};
use generated_laws::{classes_read, settings_read, source_read, year_read};
use no_memory::NoMemory;
use std::alloc::Global;
use sut_cert::Answer;
use sut_classes::{ClassFault, Classes, read_classes};
use sut_generate::{Files, GenerateFault, generate};
use sut_outside::FileName;
use sut_settings::{Settings, SettingsFault, read_settings};
use sut_source::{RowFault, read_source};
use sut_status::Status;
use sut_tables::Problem;
use sut_write::generated_text;

fn made_settings(alloc: Global, bytes: &[u8]) -> Result<Settings, NoMemory>
    requires { bytes.now ≡ made_settings }
    ensures { IfOk result (λ s. s ≡ made_facts) }
{
    settings_read();
    match read_settings(alloc, bytes) {
        Ok(settings) => Ok(settings),
        Err(SettingsFault::NoMemory) => Err(NoMemory),
        Err(_) => unreachable!(),
    }
}

fn made_classes(
    alloc: Global,
    seed: u32,
    products: u32,
    industries: u32,
    bytes: &[u8],
) -> Result<Classes, NoMemory>
    requires size { is_size seed products industries ≡ true }
    requires bytes { bytes.now ≡ made_classes products industries }
    ensures { IfOk result (λ cs. cs ≡ made_lists products industries) }
{
    classes_read(seed, products, industries);
    match read_classes(alloc, bytes) {
        Ok(classes) => Ok(classes),
        Err(ClassFault::NoMemory) => Err(NoMemory),
        Err(_) => unreachable!(),
    }
}

fn made_source(
    alloc: Global,
    seed: u32,
    products: u32,
    industries: u32,
    settings: &Settings,
    classes: Classes,
    bytes: &[u8],
) -> Result<Problem, NoMemory>
    requires size { is_size seed products industries ≡ true }
    requires settings { settings.now ≡ made_facts }
    requires classes { classes ≡ made_lists products industries }
    requires bytes { bytes.now ≡ made_source seed products industries }
    ensures { IfOk result (IsMadeProblem seed products industries) }
{
    settings_read();
    classes_read(seed, products, industries);
    source_read(seed, products, industries);
    match read_source(alloc, settings, classes, bytes) {
        Ok(problem) => Ok(problem),
        Err(fault) => match fault.cause {
            RowFault::NoMemory => Err(NoMemory),
            _ => unreachable!(),
        },
    }
}

// The problem that made files spell.
fn made_problem(
    alloc: Global,
    seed: u32,
    products: u32,
    industries: u32,
    files: &Files,
) -> Result<Problem, NoMemory>
    requires size { is_size seed products industries ≡ true }
    requires files { AreMade seed products industries files.now }
    ensures { IfOk result (IsMadeProblem seed products industries) }
{
    let settings = made_settings(alloc, &files.settings)?;
    let classes = made_classes(alloc, seed, products, industries, &files.classes)?;
    let problem = made_source(
        alloc,
        seed,
        products,
        industries,
        &settings,
        classes,
        &files.source,
    )?;
    Ok(problem)
}

// The lines of the least table of a made problem.
fn made_lines(
    alloc: Global,
    seed: u32,
    products: u32,
    industries: u32,
    p: &Problem,
) -> Result<Vec<u8>, NoMemory>
    requires size { is_size seed products industries ≡ true }
    requires made { IsMadeProblem seed products industries p.now }
    ensures { IfOk result (λ v. PrintsMade seed products industries v.items) }
{
    year_read(seed, products, industries);
    let answer = answer_to(alloc, p)?;
    match answer {
        Answer::Balanced(table, _) => {
            let lines = generated_text(alloc, p, &table)?;
            Ok(lines)
        }
        Answer::Infeasible(_) => unreachable!(),
    }
}

fn made_outputs(
    alloc: Global,
    seed: u32,
    products: u32,
    industries: u32,
    files: Files,
) -> Result<Vec<Output>, NoMemory>
    requires { AreMade seed products industries files }
    ensures { IfOk result (λ outputs. texts_in outputs.items ≡ made_files seed products industries) }
{
    let mut outputs = Vec::new(alloc);
    push_text(&mut outputs, FileName::MadeSettingsToml, files.settings)?;
    push_text(&mut outputs, FileName::MadeClassesCsv, files.classes)?;
    push_text(&mut outputs, FileName::MadeSourceCsv, files.source)?;
    Ok(outputs)
}

// The files of a size that is made.
fn made_year(alloc: Global, seed: u32, products: u32, industries: u32) -> Result<Files, NoMemory>
    requires { is_size seed products industries ≡ true }
    ensures { IfOk result (AreMade seed products industries) }
{
    match generate(alloc, seed, products, industries) {
        Ok(files) => Ok(files),
        Err(GenerateFault::NoMemory) => Err(NoMemory),
        Err(GenerateFault::BadSize) => unreachable!(),
    }
}

// The lines of the least table of the problem that made files spell.
fn lines_of(
    alloc: Global,
    seed: u32,
    products: u32,
    industries: u32,
    files: &Files,
) -> Result<Vec<u8>, NoMemory>
    requires size { is_size seed products industries ≡ true }
    requires files { AreMade seed products industries files.now }
    ensures { IfOk result (λ v. PrintsMade seed products industries v.items) }
{
    match made_problem(alloc, seed, products, industries, files) {
        Ok(problem) => made_lines(alloc, seed, products, industries, &problem),
        Err(error) => Err(error),
    }
}

// Made files, to be written, and the lines to be printed then.
fn made_with(
    alloc: Global,
    seed: u32,
    products: u32,
    industries: u32,
    files: Files,
    lines: Vec<u8>,
) -> Result<Made, NoMemory>
    requires files { AreMade seed products industries files }
    requires lines { PrintsMade seed products industries lines.items }
    ensures { IfOk result (λ made. IsMadeYear seed products industries (record { texts = texts_in made.outputs.items; lines = made.lines.items })) }
{
    let outputs = made_outputs(alloc, seed, products, industries, files)?;
    Ok(Made { outputs, lines })
}

// Made files balanced in memory, to be written, and the lines to be printed then.
fn balance_made(
    alloc: Global,
    seed: u32,
    products: u32,
    industries: u32,
    files: Files,
) -> Result<Made, NoMemory>
    requires size { is_size seed products industries ≡ true }
    requires files { AreMade seed products industries files }
    ensures { IfOk result (λ made. IsMadeYear seed products industries (record { texts = texts_in made.outputs.items; lines = made.lines.items })) }
{
    match lines_of(alloc, seed, products, industries, &files) {
        Ok(lines) => made_with(alloc, seed, products, industries, files, lines),
        Err(error) => Err(error),
    }
}

// Makes the files of a year, balances them, and makes the lines.
fn prepare_made(alloc: Global, seed: u32, products: u32, industries: u32) -> Result<Made, NoMemory>
    requires { is_size seed products industries ≡ true }
    ensures { IfOk result (λ made. IsMadeYear seed products industries (record { texts = texts_in made.outputs.items; lines = made.lines.items })) }
{
    match made_year(alloc, seed, products, industries) {
        Ok(files) => balance_made(alloc, seed, products, industries, files),
        Err(error) => Err(error),
    }
}

/// Makes the files of a year, balances them in memory, and makes the lines with the number of rows and the least cost. A year of
/// zeros is admissible, so there is always an answer.
pub(crate) fn prepare_year(
    alloc: Global,
    seed: u32,
    products: u32,
    industries: u32,
) -> Result<Prepared, Status>
    requires { is_size seed products industries ≡ true }
    ensures ready { IfOk result (λ x. (seats : List SeatFacts) (held : Option outside.Files) → IsReady seats (Command.Generate seed products industries) held x.done (texts_in x.made.outputs.items) x.made.lines.items) }
    ensures memory { IfErr result (λ s. s ≡ Status.NoMemory) }
{
    match prepare_made(alloc, seed, products, industries) {
        Ok(made) => Ok(Prepared {
            done: Status::Generated,
            made,
        }),
        Err(_) => Err(Status::NoMemory),
    }
}

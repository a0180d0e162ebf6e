//! The problem of a year's files.

ghost use Rattle.std.specs.Prelude.{◌≡◌, ◌≤◌, All, IfErr, IfOk, IfSome, IsErrAnd, None, Ok};
ghost use Rattle.sut_outside.specs.Causes.{NoneFailed};
ghost use Rattle.sut_outside.specs.Files.{Told, SameFiles};
ghost use Rattle.sut_source.specs.SourceText.{HasGrade};
ghost use Rattle.sut_input.specs.Reads.{FailsAmong, FailsBy, GivesOk, IsReadFault, Refuses};
ghost use Rattle.sut_input.specs.Inputs.{IsSource, class_fault, classes_in, problem_in, problem_names, settings_fault, settings_in, source_fault, source_in};

use crate::faults::InputFault;
use crate::files::read_file;
use std::alloc::Global;
use sut_classes::{ClassFault, Classes, read_classes};
use sut_outside::{FileName, Shelf};
use sut_settings::{Settings, SettingsFault, read_settings};
use sut_source::{RowFault, SourceFault, read_source};
use sut_tables::Problem;

/// The settings of a year, and the problem of its classes and its source.
#[derive(Drop)]
pub struct Input {
    pub settings: Settings,
    pub problem: Problem,
}

fn settings_fault(fault: SettingsFault) -> InputFault
    ensures { result ≡ settings_fault fault }
{
    match fault {
        SettingsFault::NoMemory => InputFault::NoMemory,
        fault => InputFault::BadSettings(fault),
    }
}

pub(crate) fn class_fault(fault: ClassFault) -> InputFault
    ensures { result ≡ class_fault fault }
{
    match fault {
        ClassFault::NoMemory => InputFault::NoMemory,
        fault => InputFault::BadClasses(fault),
    }
}

fn source_fault(fault: SourceFault) -> InputFault
    ensures { result ≡ source_fault fault }
{
    match fault.cause {
        RowFault::NoMemory => InputFault::NoMemory,
        _ => InputFault::BadSource(fault),
    }
}

pub(crate) fn read_settings_file<F: Shelf>(
    alloc: Global,
    shelf: &mut F,
) -> Result<Settings, InputFault>
    ensures kept { Told (F.files shelf.old) (F.files shelf.new) SameFiles }
    ensures ok { IfOk result (λ settings. IfSome (F.files shelf.old) (λ files. GivesOk settings_in files settings)) }
    ensures err { IfErr result (λ fault. IfSome (F.files shelf.old) (λ files. Refuses settings_in files fault)) }
    ensures later { F.faults shelf.old ≤ F.faults shelf.new }
    ensures cause { IfErr result (FailsBy FileName.SettingsToml (F.faults shelf.old) (F.faults shelf.new) (F.last_failed shelf.new)) }
    ensures stays { ¬ IsErrAnd result IsReadFault → NoneFailed (F.faults shelf.old) (F.faults shelf.new) (F.last_failed shelf.old) (F.last_failed shelf.new) }
{
    let bytes = match read_file(shelf, FileName::SettingsToml) {
        Ok(bytes) => bytes,
        Err(fault) => return Err(fault),
    };
    match read_settings(alloc, &bytes) {
        Ok(settings) => Ok(settings),
        Err(fault) => Err(settings_fault(fault)),
    }
}

/// Reads `classes.csv` alone. No file changes.
pub fn read_classes_file<F: Shelf>(alloc: Global, shelf: &mut F) -> Result<Classes, InputFault>
    ensures kept { Told (F.files shelf.old) (F.files shelf.new) SameFiles }
    ensures ok { IfOk result (λ classes. IfSome (F.files shelf.old) (λ files. GivesOk classes_in files classes)) }
    ensures err { IfErr result (λ fault. IfSome (F.files shelf.old) (λ files. Refuses classes_in files fault)) }
    ensures later { F.faults shelf.old ≤ F.faults shelf.new }
    ensures cause { IfErr result (FailsBy FileName.ClassesCsv (F.faults shelf.old) (F.faults shelf.new) (F.last_failed shelf.new)) }
    ensures stays { ¬ IsErrAnd result IsReadFault → NoneFailed (F.faults shelf.old) (F.faults shelf.new) (F.last_failed shelf.old) (F.last_failed shelf.new) }
{
    let bytes = match read_file(shelf, FileName::ClassesCsv) {
        Ok(bytes) => bytes,
        Err(fault) => return Err(fault),
    };
    match read_classes(alloc, &bytes) {
        Ok(classes) => Ok(classes),
        Err(fault) => Err(class_fault(fault)),
    }
}

fn read_source_file<F: Shelf>(
    alloc: Global,
    shelf: &mut F,
    name: FileName,
    settings: &Settings,
    classes: Classes,
) -> Result<Problem, InputFault>
    ensures kept { Told (F.files shelf.old) (F.files shelf.new) SameFiles }
    ensures ok { IfOk result (λ p. IfSome (F.files shelf.old) (λ files. GivesOk (source_in name settings.now classes) files p)) }
    ensures graded { IfOk result (λ p. All (HasGrade settings.now) p.rows) }
    ensures err { IfErr result (λ fault. IfSome (F.files shelf.old) (λ files. Refuses (source_in name settings.now classes) files fault)) }
    ensures later { F.faults shelf.old ≤ F.faults shelf.new }
    ensures cause { IfErr result (FailsBy name (F.faults shelf.old) (F.faults shelf.new) (F.last_failed shelf.new)) }
    ensures stays { ¬ IsErrAnd result IsReadFault → NoneFailed (F.faults shelf.old) (F.faults shelf.new) (F.last_failed shelf.old) (F.last_failed shelf.new) }
{
    let bytes = match read_file(shelf, name) {
        Ok(bytes) => bytes,
        Err(fault) => return Err(fault),
    };
    match read_source(alloc, settings, classes, &bytes) {
        Ok(problem) => Ok(problem),
        Err(fault) => Err(source_fault(fault)),
    }
}

/// Reads `settings.toml`, `classes.csv` and the source that stands under this name, in this order. No file changes. A failed
/// read is answered only where the shelf's count of faults rose, and its name is then that of the last failed call; where
/// anything else is answered, no read failed.
pub fn read_problem<F: Shelf>(
    alloc: Global,
    shelf: &mut F,
    source: FileName,
) -> Result<Input, InputFault>
    requires { IsSource source }
    ensures kept { Told (F.files shelf.old) (F.files shelf.new) SameFiles }
    ensures ok { IfOk result (λ input. IfSome (F.files shelf.old) (λ files. problem_in source None files ≡ Ok (input.settings, input.problem))) }
    ensures graded { IfOk result (λ input. All (HasGrade input.settings) input.problem.rows) }
    ensures err { IfErr result (λ fault. IfSome (F.files shelf.old) (λ files. Refuses (problem_in source) files fault)) }
    ensures later { F.faults shelf.old ≤ F.faults shelf.new }
    ensures cause { IfErr result (FailsAmong (problem_names source) (F.faults shelf.old) (F.faults shelf.new) (F.last_failed shelf.new)) }
    ensures stays { ¬ IsErrAnd result IsReadFault → NoneFailed (F.faults shelf.old) (F.faults shelf.new) (F.last_failed shelf.old) (F.last_failed shelf.new) }
{
    let settings = match read_settings_file(alloc, shelf) {
        Ok(settings) => settings,
        Err(fault) => return Err(fault),
    };
    let classes = match read_classes_file(alloc, shelf) {
        Ok(classes) => classes,
        Err(fault) => return Err(fault),
    };
    match read_source_file(alloc, shelf, source, &settings, classes) {
        Ok(problem) => Ok(Input { settings, problem }),
        Err(fault) => Err(fault),
    }
}

//! The problems of the years of a series, and the dismissals of reviewers after them.

ghost use Rattle.std.specs.Prelude.{◌≡◌, ◌≤◌, ◌<◌, ◌∷◌, [], All, IfErr, IfOk, IfSome, IsErrAnd, None, Ok, Some, length, slice_get, take};
ghost use Rattle.sut_outside.specs.Causes.{NoneFailed};
ghost use Rattle.sut_outside.specs.Files.{Told, SameFiles};
ghost use Rattle.sut_classes.specs.ClassLists.{ClassLists};
ghost use Rattle.sut_source.specs.SourceText.{HasGrade};
ghost use Rattle.sut_input.specs.Following.{FailsIn, IsReadFault, RefusesAs};
ghost use Rattle.sut_input.specs.SeriesInputs.{IsSeriesFault, class_years_in, dismiss_fault, dismissals_in, series_input_in, series_names, series_part, year_fault, year_in, year_names, years_in};

use crate::faults::InputFault;
use crate::files::read_file;
use crate::problems::{read_classes_file, read_settings_file};
use std::alloc::Global;
use sut_classes::Classes;
use sut_dismissals::{DismissCause, DismissFault, DismissLine, read_dismiss};
use sut_outside::{FileName, Shelf};
use sut_settings::Settings;
use sut_source::{RowFault, SourceFault, read_source};
use sut_tables::Problem;

// The files of the years, from year 1 on.
const YEAR_NAMES: [FileName; 9] = [
    FileName::Year1Csv,
    FileName::Year2Csv,
    FileName::Year3Csv,
    FileName::Year4Csv,
    FileName::Year5Csv,
    FileName::Year6Csv,
    FileName::Year7Csv,
    FileName::Year8Csv,
    FileName::Year9Csv,
];

/// Why the files of a series give no problems and dismissals: the first of these in the order of reading.
#[derive(Debug, Clone, Copy, PartialEq, Eq)]
pub enum SeriesInputFault {
    /// A file is not there, is too long or could not be read; settings or classes have a fault; or memory ran out.
    Input(InputFault),
    /// The year, from 1, and the first fault of its source.
    BadYear(u8, SourceFault),
    /// The first fault of `dismiss.csv`.
    BadDismiss(DismissFault),
}

/// The settings, the problems of the years in order, and the dismissals in the order of the file.
pub struct SeriesInput {
    pub settings: Settings,
    pub years: Vec<Problem>,
    pub dismissals: Vec<DismissLine>,
}

impl Drop for SeriesInput {
    fn drop(self) {
        let SeriesInput {
            settings,
            years,
            dismissals,
        } = self;
        drop(settings);
        drop(years);
        drop(dismissals);
    }
}

fn year_fault(year: u8, fault: SourceFault) -> SeriesInputFault
    ensures { result ≡ year_fault year fault }
{
    match fault.cause {
        RowFault::NoMemory => SeriesInputFault::Input(InputFault::NoMemory),
        _ => SeriesInputFault::BadYear(year, fault),
    }
}

fn dismiss_fault(fault: DismissFault) -> SeriesInputFault
    ensures { result ≡ dismiss_fault fault }
{
    match fault.cause {
        DismissCause::NoMemory => SeriesInputFault::Input(InputFault::NoMemory),
        _ => SeriesInputFault::BadDismiss(fault),
    }
}

// The file of the year that so many years stand before.
fn year_name(before: u8) -> FileName
    requires { before < 9 }
    ensures { slice_get year_names before ≡ Some result }
{
    YEAR_NAMES[usize::from(before)]
}

fn read_year<F: Shelf>(
    alloc: Global,
    shelf: &mut F,
    name: FileName,
    year: u8,
    settings: &Settings,
    classes: &Classes,
) -> Result<Problem, SeriesInputFault>
    ensures kept { Told (F.files shelf.old) (F.files shelf.new) SameFiles }
    ensures ok { IfOk result (λ p. IfSome (F.files shelf.old) (λ files. year_in name year settings.now classes.now None files ≡ Ok p)) }
    ensures classes { IfOk result (λ p. p.classes ≡ classes.now) }
    ensures graded { IfOk result (λ p. All (HasGrade settings.now) p.rows) }
    ensures err { IfErr result (λ fault. IfSome (F.files shelf.old) (λ files. RefusesAs series_part (year_in name year settings.now classes.now) files fault)) }
    ensures read { IfErr result IsSeriesFault }
    ensures later { F.faults shelf.old ≤ F.faults shelf.new }
    ensures cause { IfErr result (FailsIn series_part (name ∷ []) (F.faults shelf.old) (F.faults shelf.new) (F.last_failed shelf.new)) }
    ensures stays { ¬ IsErrAnd result (IsReadFault series_part) → NoneFailed (F.faults shelf.old) (F.faults shelf.new) (F.last_failed shelf.old) (F.last_failed shelf.new) }
{
    let bytes = match read_file(shelf, name) {
        Ok(bytes) => bytes,
        Err(fault) => return Err(SeriesInputFault::Input(fault)),
    };
    let own = match classes.copy() {
        Ok(own) => own,
        Err(_) => return Err(SeriesInputFault::Input(InputFault::NoMemory)),
    };
    match read_source(alloc, settings, own, &bytes) {
        Ok(problem) => Ok(problem),
        Err(fault) => Err(year_fault(year, fault)),
    }
}

fn read_years<F: Shelf>(
    alloc: Global,
    shelf: &mut F,
    years: u8,
    settings: &Settings,
    classes: &Classes,
) -> Result<Vec<Problem>, SeriesInputFault>
    requires { (1 ≤ years) × (years ≤ 9) }
    ensures kept { Told (F.files shelf.old) (F.files shelf.new) SameFiles }
    ensures ok { IfOk result (λ v. IfSome (F.files shelf.old) (λ files. years_in (take years year_names) 1 settings.now classes.now None files ≡ Ok v.items)) }
    ensures number { IfOk result (λ v. length v.items ≡ years) }
    ensures classes { IfOk result (λ v. All (λ p. p.classes ≡ classes.now) v.items) }
    ensures graded { IfOk result (λ v. All (λ p. All (HasGrade settings.now) p.rows) v.items) }
    ensures err { IfErr result (λ fault. IfSome (F.files shelf.old) (λ files. RefusesAs series_part (years_in (take years year_names) 1 settings.now classes.now) files fault)) }
    ensures read { IfErr result IsSeriesFault }
    ensures later { F.faults shelf.old ≤ F.faults shelf.new }
    ensures cause { IfErr result (FailsIn series_part (take years year_names) (F.faults shelf.old) (F.faults shelf.new) (F.last_failed shelf.new)) }
    ensures stays { ¬ IsErrAnd result (IsReadFault series_part) → NoneFailed (F.faults shelf.old) (F.faults shelf.new) (F.last_failed shelf.old) (F.last_failed shelf.new) }
{
    let mut problems = Vec::new(alloc);
    'years: for before in 0..years {
        match read_year(
            alloc,
            shelf,
            year_name(before),
            before + 1,
            settings,
            classes,
        ) {
            Ok(problem) => match problems.push(problem) {
                Ok(()) => (),
                Err(full) => {
                    drop(full);
                    drop(problems);
                    return Err(SeriesInputFault::Input(InputFault::NoMemory));
                }
            },
            Err(fault) => {
                drop(problems);
                return Err(fault);
            }
        }
    }
    Ok(problems)
}

// Reads the classes, and the years that are of them.
fn read_class_years<F: Shelf>(
    alloc: Global,
    shelf: &mut F,
    years: u8,
    settings: &Settings,
) -> Result<Vec<Problem>, SeriesInputFault>
    requires { (1 ≤ years) × (years ≤ 9) }
    ensures kept { Told (F.files shelf.old) (F.files shelf.new) SameFiles }
    ensures ok { IfOk result (λ v. IfSome (F.files shelf.old) (λ files. class_years_in years settings.now None files ≡ Ok v.items)) }
    ensures number { IfOk result (λ v. length v.items ≡ years) }
    ensures classes { IfOk result (λ v. (cs : ClassLists) × All (λ p. p.classes ≡ cs) v.items) }
    ensures graded { IfOk result (λ v. All (λ p. All (HasGrade settings.now) p.rows) v.items) }
    ensures err { IfErr result (λ fault. IfSome (F.files shelf.old) (λ files. RefusesAs series_part (class_years_in years settings.now) files fault)) }
    ensures read { IfErr result IsSeriesFault }
    ensures later { F.faults shelf.old ≤ F.faults shelf.new }
    ensures cause { IfErr result (FailsIn series_part (FileName.ClassesCsv ∷ take years year_names) (F.faults shelf.old) (F.faults shelf.new) (F.last_failed shelf.new)) }
    ensures stays { ¬ IsErrAnd result (IsReadFault series_part) → NoneFailed (F.faults shelf.old) (F.faults shelf.new) (F.last_failed shelf.old) (F.last_failed shelf.new) }
{
    let classes = match read_classes_file(alloc, shelf) {
        Ok(classes) => classes,
        Err(fault) => return Err(SeriesInputFault::Input(fault)),
    };
    match read_years(alloc, shelf, years, settings, &classes) {
        Ok(problems) => {
            drop(classes);
            Ok(problems)
        }
        Err(fault) => {
            drop(classes);
            Err(fault)
        }
    }
}

fn read_dismissals_file<F: Shelf>(
    alloc: Global,
    shelf: &mut F,
    years: u8,
) -> Result<Vec<DismissLine>, SeriesInputFault>
    ensures kept { Told (F.files shelf.old) (F.files shelf.new) SameFiles }
    ensures ok { IfOk result (λ lines. IfSome (F.files shelf.old) (λ files. dismissals_in years None files ≡ Ok lines.items)) }
    ensures few { IfOk result (λ lines. length lines.items ≤ 64) }
    ensures after { IfOk result (λ lines. All (λ l. (1 ≤ l.year) × (l.year ≤ years)) lines.items) }
    ensures err { IfErr result (λ fault. IfSome (F.files shelf.old) (λ files. RefusesAs series_part (dismissals_in years) files fault)) }
    ensures read { IfErr result IsSeriesFault }
    ensures later { F.faults shelf.old ≤ F.faults shelf.new }
    ensures cause { IfErr result (FailsIn series_part (FileName.DismissCsv ∷ []) (F.faults shelf.old) (F.faults shelf.new) (F.last_failed shelf.new)) }
    ensures stays { ¬ IsErrAnd result (IsReadFault series_part) → NoneFailed (F.faults shelf.old) (F.faults shelf.new) (F.last_failed shelf.old) (F.last_failed shelf.new) }
{
    let bytes = match read_file(shelf, FileName::DismissCsv) {
        Ok(bytes) => bytes,
        Err(fault) => return Err(SeriesInputFault::Input(fault)),
    };
    match read_dismiss(alloc, years, &bytes) {
        Ok(lines) => Ok(lines),
        Err(fault) => Err(dismiss_fault(fault)),
    }
}

/// Reads `settings.toml`, `classes.csv`, the sources of so many years, from `year1.csv` on, and `dismiss.csv`, in this order, each
/// parsed before the next is read. Each source is one of these classes. No file changes. A failed read is answered only where the
/// shelf's count of faults rose, and its name is then that of the last failed call; where anything else is answered, no read
/// failed.
pub fn read_series_input<F: Shelf>(
    alloc: Global,
    shelf: &mut F,
    years: u8,
) -> Result<SeriesInput, SeriesInputFault>
    requires { (1 ≤ years) × (years ≤ 9) }
    ensures kept { Told (F.files shelf.old) (F.files shelf.new) SameFiles }
    ensures ok { IfOk result (λ given. IfSome (F.files shelf.old) (λ files. series_input_in years None files ≡ Ok (given.settings, given.years.items, given.dismissals.items))) }
    ensures number { IfOk result (λ given. length given.years.items ≡ years) }
    ensures classes { IfOk result (λ given. (cs : ClassLists) × All (λ p. p.classes ≡ cs) given.years.items) }
    ensures graded { IfOk result (λ given. All (λ p. All (HasGrade given.settings) p.rows) given.years.items) }
    ensures few { IfOk result (λ given. length given.dismissals.items ≤ 64) }
    ensures after { IfOk result (λ given. All (λ l. (1 ≤ l.year) × (l.year ≤ years)) given.dismissals.items) }
    ensures err { IfErr result (λ fault. IfSome (F.files shelf.old) (λ files. RefusesAs series_part (series_input_in years) files fault)) }
    ensures read { IfErr result IsSeriesFault }
    ensures later { F.faults shelf.old ≤ F.faults shelf.new }
    ensures cause { IfErr result (FailsIn series_part (series_names years) (F.faults shelf.old) (F.faults shelf.new) (F.last_failed shelf.new)) }
    ensures stays { ¬ IsErrAnd result (IsReadFault series_part) → NoneFailed (F.faults shelf.old) (F.faults shelf.new) (F.last_failed shelf.old) (F.last_failed shelf.new) }
{
    let settings = match read_settings_file(alloc, shelf) {
        Ok(settings) => settings,
        Err(fault) => return Err(SeriesInputFault::Input(fault)),
    };
    let problems = match read_class_years(alloc, shelf, years, &settings) {
        Ok(problems) => problems,
        Err(fault) => return Err(fault),
    };
    match read_dismissals_file(alloc, shelf, years) {
        Ok(dismissals) => Ok(SeriesInput {
            settings,
            years: problems,
            dismissals,
        }),
        Err(fault) => {
            drop(problems);
            Err(fault)
        }
    }
}

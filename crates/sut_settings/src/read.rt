//! Reading settings: a document of TOML, whose keys stand in byte order.

ghost use Rattle.std.specs.Prelude.{◌≡◌, ◌≢◌, ◌++◌, ◌∷◌, [], pos, nat_le, map, option_map, OnOk, if◌then◌else◌};
ghost use Rattle.csv.specs.Reading.{strip_bom as without_mark};
ghost use Rattle.toml.specs.View.{view, table_view};
ghost use Rattle.sut_records.specs.FirstFault.{only_if};
ghost use Rattle.sut_classes.specs.ClassFile.{is_code as is_code_text};
ghost use Rattle.sut_settings.specs.SettingsFile.{count_of_members, first_unknown as unknown_from, grades_of, number_of as number_in, scheme_of as scheme_in, settings_from, settings_in as settings_of_members, settings_of, value_at as value_in};
ghost use Rattle.sut_settings.specs.IsSettings.{greatest as greatest_in};
ghost use Rattle.sut_settings.specs.SettingsView.{grade_facts, is_relative};

use crate::SettingsFault;
use crate::settings::{Grade, Scheme, Settings};
use std::alloc::{AllocError, Global};
use sut_classes::is_code;
use toml::{Table, Value};

// The greatest count of grades.
const MOST_GRADES: usize = 64;

/// Reads settings from the bytes of a document of TOML, after three leading bytes EF BB BF are skipped once. The
/// faults come in the order of `SettingsFault`; a key's number is its place in byte order, from 1, among the keys of
/// the document, and a grade's among those of `grades`. `NoMemory` where memory runs out.
pub fn read_settings(alloc: Global, bytes: &[u8]) -> Result<Settings, SettingsFault>
    ensures { result ≢ Err SettingsFault.NoMemory → result ≡ settings_of bytes.now }
{
    let text = match std::str::from_utf8(skip_mark(bytes)) {
        Ok(text) => text,
        Err(_) => return Err(SettingsFault::Toml),
    };
    match toml::table_from_str(alloc, text) {
        Ok(table) => settings_in(alloc, &table),
        Err(error) => {
            if error.is_memory() {
                Err(SettingsFault::NoMemory)
            } else {
                Err(SettingsFault::Toml)
            }
        }
    }
}

// The bytes after three leading bytes EF BB BF.
fn skip_mark(bytes: &[u8]) -> &[u8]
    ensures { result.now ≡ without_mark bytes.now }
{
    match bytes.strip_prefix(&[0xEF, 0xBB, 0xBF]) {
        Some(rest) => rest,
        None => bytes,
    }
}

// The settings that the keys of a document give.
fn settings_in(alloc: Global, table: &Table) -> Result<Settings, SettingsFault>
    ensures { result ≢ Err SettingsFault.NoMemory → result ≡ settings_of_members (Some (table_view table.now)) }
{
    if let Some(place) = first_unknown(table) {
        return Err(SettingsFault::UnknownKey(place));
    }
    let Some(value) = value_at(table, "scheme") else {
        return Err(SettingsFault::NoScheme);
    };
    let Some(scheme) = scheme_of(value) else {
        return Err(SettingsFault::BadScheme);
    };
    match value_at(table, "grades") {
        None => Ok(Settings {
            scheme,
            grades: Vec::new(alloc),
        }),
        Some(value) => match value.as_table() {
            Some(grades) => read_grades(alloc, scheme, grades),
            None => Err(SettingsFault::BadGrades),
        },
    }
}

// The place, from 1, of the first key that is neither `grades` nor `scheme`.
fn first_unknown(table: &Table) -> Option<u64>
    ensures { result ≡ unknown_from 1 (table_view table.now) }
{
    let mut place: u64 = 1;
    'keys: for (key, _value) in table.iter() {
        if key.as_str() != "grades" && key.as_str() != "scheme" {
            return Some(place);
        }
        place += 1;
    }
    None
}

// The value at a key.
fn value_at<'a>(table: &'a Table, key: &str) -> Option<&'a Value>
    ensures { option_map (λ v. view v.now) result ≡ value_in key.now (table_view table.now) }
{
    table.get(key)
}

// The scheme, where the value is one of its two names.
fn scheme_of(value: &Value) -> Option<Scheme>
    ensures { option_map is_relative result ≡ scheme_in (view value.now) }
{
    let text = value.as_str()?;
    if text == "flat" {
        Some(Scheme::Flat)
    } else if text == "relative" {
        Some(Scheme::Relative)
    } else {
        None
    }
}

// The grades of a table, at most 64.
fn read_grades(alloc: Global, scheme: Scheme, table: &Table) -> Result<Settings, SettingsFault>
    ensures { result ≢ Err SettingsFault.NoMemory
        → result ≡ only_if (nat_le (count_of_members (table_view table.now)) 64) SettingsFault.TooMany (settings_from (is_relative scheme) (grades_of (is_relative scheme) 1 (table_view table.now))) }
{
    if table.len() > MOST_GRADES {
        return Err(SettingsFault::TooMany);
    }
    let mut grades = Vec::new(alloc);
    let mut entry: u64 = 1;
    'grades: for (name, value) in table.iter() {
        let Some(number) = grade_number(scheme, name.as_bytes(), value) else {
            return Err(SettingsFault::BadGrade(entry));
        };
        if add_grade(alloc, &mut grades, name.as_bytes(), number).is_err() {
            return Err(SettingsFault::NoMemory);
        }
        entry += 1;
    }
    Ok(Settings { scheme, grades })
}

// A grade's number, if the name is a code and the value a whole number in the scheme's range.
fn grade_number(scheme: Scheme, name: &[u8], value: &Value) -> Option<u32>
    ensures { result ≡ (if is_code_text name.now then number_in (is_relative scheme) (view value.now) else None) }
{
    if !is_code(name) {
        return None;
    }
    number_of(scheme, value)
}

// A whole number in the scheme's range.
fn number_of(scheme: Scheme, value: &Value) -> Option<u32>
    ensures { result ≡ number_in (is_relative scheme) (view value.now) }
{
    let number = value.as_integer()?;
    if 1 <= number && number <= greatest(scheme) {
        Some(number as u32)
    } else {
        None
    }
}

// The greatest number of a grade.
fn greatest(scheme: Scheme) -> i64
    ensures { result ≡ pos (greatest_in (is_relative scheme)) }
{
    match scheme {
        Scheme::Flat => 10_000,
        Scheme::Relative => 100,
    }
}

// One more grade.
fn add_grade(
    alloc: Global,
    grades: &mut Vec<Grade>,
    name: &[u8],
    number: u32,
) -> Result<(), AllocError>
    ensures { OnOk result (map grade_facts grades.new.items ≡ map grade_facts grades.old.items ++ (record { name = name.now; number = number }) ∷ []) }
{
    let name = Vec::from_slice(alloc, name)?;
    match grades.push(Grade { name, number }) {
        Ok(()) => Ok(()),
        Err(_) => Err(AllocError),
    }
}

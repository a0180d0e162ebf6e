//! Grades and weights by settings.

ghost use Rattle.std.specs.Prelude.{◌≡◌, ◌↔◌, ◌+◌, ◌∷◌, [], IsSome, IfSome, map, option_map, position, slice_get, unsigned_abs, length, ◌≤◌};
ghost use Rattle.std.specs.Str.{bytes_eq};
ghost use Rattle.sut_settings.specs.SettingsFacts.{number_at, place_of_grade, weight_from};
ghost use Rattle.sut_settings.specs.SettingsView.{is_relative};
ghost use Rattle.sut_settings.specs.IsSettings.{greatest, IsTarget};

use crate::settings::{Grade, Scheme, Settings};

// The grade of this name, counted from 0.
fn find_grade(grades: &[Grade], name: &[u8]) -> Option<usize>
    ensures { result ≡ position (λ g. bytes_eq name.now g.name.items) grades.now }
{
    grades.iter().position(|g| name == g.name.as_slice())
}

// A grade's number as a weight for a target of this size.
fn weight_for(scheme: Scheme, number: u32, size: u64) -> u32
    requires some { 1 ≤ number }
    requires most { number ≤ greatest (is_relative scheme) }
    ensures value { result ≡ weight_from (is_relative scheme) number size }
    ensures some { 1 ≤ result }
    ensures most { result ≤ 10000 }
{
    match scheme {
        Scheme::Flat => number,
        Scheme::Relative => (u64::from(number) * 100 / size.max(1)).max(1) as u32,
    }
}

/// The place of a grade: 0 of the empty one, n of the n-th grade in byte order; none where there is no such grade.
pub fn grade_place(s: &Settings, grade: &[u8]) -> Option<u8>
    ensures { result ≡ place_of_grade s.now grade.now }
{
    if grade.is_empty() {
        return Some(0);
    }
    match find_grade(&s.grades, grade) {
        Some(k) => Some(k as u8 + 1),
        None => None,
    }
}

/// The name of the grade at a place, empty at place 0; none where there is no such place.
pub fn grade_text(s: &Settings, place: u8) -> Option<&[u8]>
    ensures { option_map (λ t. t.now) result ≡ slice_get ([] ∷ map (λ g. g.name) s.now.grades) place }
{
    if place == 0 {
        return Some(b"");
    }
    match s.grades.get(place as usize - 1) {
        Some(g) => Some(g.name.as_slice()),
        None => None,
    }
}

/// The weight, 1 to 10,000, of a target of -10^12 to 10^12 whole currency units under the grade at a place; none where
/// there is no such place.
pub fn weight_at(s: &Settings, place: u8, target: i64) -> Option<u32>
    requires { IsTarget target }
    ensures there { IsSome result ↔ (place ≤ length s.now.grades) }
    ensures value { IfSome result (λ w. w ≡ weight_from s.now.relative (number_at s.now place) (unsigned_abs target)) }
    ensures range { IfSome result (λ w. (1 ≤ w) × (w ≤ 10000)) }
{
    if place == 0 {
        return Some(weight_for(s.scheme, 1, target.unsigned_abs()));
    }
    match s.grades.get(place as usize - 1) {
        Some(g) => Some(weight_for(s.scheme, g.number, target.unsigned_abs())),
        None => None,
    }
}

/// The weight of a target under a grade: in the scheme `flat` the grade's number, in the scheme `relative` the
/// greater of 1 and its hundredfold divided by the target's size (at least 1), rounded down. The empty grade is the
/// number 1. None where the grade is neither empty nor one of the settings.
pub fn weight_of(s: &Settings, grade: &[u8], target: i64) -> Option<u32>
    requires { IsTarget target }
    ensures { result ≡ option_map (λ place. weight_from s.now.relative (number_at s.now place) (unsigned_abs target)) (place_of_grade s.now grade.now) }
{
    let place = grade_place(s, grade)?;
    weight_at(s, place, target)
}

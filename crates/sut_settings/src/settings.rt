//! Settings as contracts see them: a scheme, and grades in byte order.

ghost use Rattle.sut_settings.specs.IsSettings.{IsSettings};

use std::marker::Model;

/// How a grade's number becomes a weight.
#[derive(Debug, Clone, Copy, PartialEq, Eq)]
pub enum Scheme {
    /// The weight is the grade's number, 1 to 10,000.
    Flat,
    /// The weight is the hundredfold of the grade's number, 1 to 100, divided by the target's size in whole currency
    /// units (at least 1), rounded down, and at least 1.
    Relative,
}

/// A grade: a code, and its number, 1 to 10,000.
#[derive(Drop)]
pub struct Grade {
    pub name: Vec<u8>,
    pub number: u32,
}

/// The scheme and the grades of a year's settings: at most 64 grades, in byte order of their names.
#[derive(Drop)]
pub struct Settings {
    pub(crate) scheme: Scheme,
    pub(crate) grades: Vec<Grade>,
}

impl Model for Settings {
    ghost use Rattle.sut_settings.specs.SettingsFacts.{SettingsFacts};
    ghost use Rattle.sut_settings.specs.SettingsView.{settings_facts};
    ghost use Rattle.sut_settings.specs.IsSettings.{IsSettings};

    ghost Value = { SettingsFacts };

    ghost view = { settings_facts };

    ghost invariant = { λ s. IsSettings (settings_facts s) };
}

impl Settings {
    /// What all settings keep, as a fact: the call does nothing.
    pub fn kept(&self)
        ensures { IsSettings self.now }
    {
        let _scheme = &self.scheme;
    }
}

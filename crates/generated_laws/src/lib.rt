//! The laws of made years, as contracts of functions that do nothing: the three files are read without a fault, and the
//! problem that they spell has an admissible table.
#![tactic(auto)]

ghost use Rattle.std.specs.Prelude.{◌≡◌, true, Ok};
ghost use Rattle.sut_settings.specs.SettingsFile.{settings_of};
ghost use Rattle.sut_classes.specs.ClassFile.{classes_of};
ghost use Rattle.sut_generate.specs.Generator.{is_size, made_settings, made_classes};
ghost use Rattle.generated_laws.specs.MadeLists.{made_facts, made_lists};
ghost use Rattle.generated_laws.specs.MadeYears.{MadeProblem, MadeYear};

/// The made settings are read: flat, without grades.
pub fn settings_read()
    ensures { settings_of made_settings ≡ Ok made_facts }
{}

/// The made classes are read.
pub fn classes_read(seed: u32, products: u32, industries: u32)
    requires { is_size seed products industries ≡ true }
    ensures { classes_of (made_classes products industries) ≡ Ok (made_lists products industries) }
{}

/// The made source is read over the made settings and classes: its problem has `products * (industries + 7) + industries`
/// rows, and a table of zeros is admissible.
pub fn source_read(seed: u32, products: u32, industries: u32)
    requires { is_size seed products industries ≡ true }
    ensures { MadeProblem seed products industries }
{}

/// All three in order, and the problem is possible.
pub fn year_read(seed: u32, products: u32, industries: u32)
    requires { is_size seed products industries ≡ true }
    ensures { MadeYear seed products industries }
{}

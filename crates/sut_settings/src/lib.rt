//! Settings: a scheme and grades.
#![tactic(auto)]

pub mod lookups;
pub mod read;
pub mod settings;

pub use lookups::{grade_place, grade_text, weight_at, weight_of};
pub use read::read_settings;
pub use settings::{Scheme, Settings};

/// What is wrong with a file of settings: the first of these that holds, in this order.
#[derive(Debug, Clone, Copy, PartialEq, Eq)]
pub enum SettingsFault {
    /// The bytes are no UTF-8, or no document of TOML.
    Toml,
    /// The first key in byte order that is neither `grades` nor `scheme`: its place among the keys, from 1.
    UnknownKey(u64),
    /// There is no key `scheme`.
    NoScheme,
    /// The scheme is neither `"flat"` nor `"relative"`.
    BadScheme,
    /// There is a key `grades`, and its value is no table.
    BadGrades,
    /// There are more than 64 grades.
    TooMany,
    /// The first grade in byte order whose name is no code, or whose value is no whole number in the scheme's range:
    /// its place among the grades, from 1.
    BadGrade(u64),
    /// Memory ran out.
    NoMemory,
}

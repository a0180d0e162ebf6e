//! Why the files of a year give no problem.

use sut_classes::ClassFault;
use sut_outside::FileName;
use sut_settings::SettingsFault;
use sut_source::SourceFault;

/// Why the files of a year give no problem: the first of these in the order of reading.
#[derive(Debug, Clone, Copy, PartialEq, Eq)]
pub enum InputFault {
    /// The file is not there.
    Missing(FileName),
    /// The file has more than 67,108,864 bytes.
    TooLong(FileName),
    /// The read failed.
    ReadFault(FileName),
    /// The first fault of `settings.toml`.
    BadSettings(SettingsFault),
    /// The first fault of `classes.csv`.
    BadClasses(ClassFault),
    /// The first fault of the source.
    BadSource(SourceFault),
    /// Memory ran out.
    NoMemory,
}

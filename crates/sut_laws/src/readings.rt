//! What is printed reads back, and what reads is what is printed.

ghost use Rattle.sut_laws.specs.Readings.{NumbersReadBack, FilesReadBack, MeasureNamesReadBack, AccountNamesReadBack};

/// A whole number has one spelling.
pub fn numbers_read_back()
    ensures { NumbersReadBack }
{}

/// A printed file reads back as its records.
pub fn files_read_back()
    ensures { FilesReadBack }
{}

/// A measure that fits has one name.
pub fn measure_names_read_back()
    ensures { MeasureNamesReadBack }
{}

/// An account that fits has one name.
pub fn account_names_read_back()
    ensures { AccountNamesReadBack }
{}

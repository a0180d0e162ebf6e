//! Where a file is wrong: its name, and the line where there is one. After want of memory a part of the words may stand in
//! `out`, behind what stood there.

ghost use Rattle.std.specs.Prelude.{◌≡◌, ◌++◌, OnOk};
ghost use Rattle.sut_text.specs.Text.{Keeps};
ghost use Rattle.sut_status.specs.StatusLines.{asks_text, class_line, class_text, dismiss_text, edits_text, in_file, on_line, on_year_line, settings_text, source_text, table_text, year_text};

use crate::faults::{
    put_ask_cause, put_class_fault, put_dismiss_cause, put_edit_fault, put_row_fault,
    put_settings_fault, put_table_cause,
};
use crate::years::year_file;
use no_memory::NoMemory;
use sut_asks::AskFault;
use sut_classes::ClassFault;
use sut_dismissals::DismissFault;
use sut_edits::EditsFault;
use sut_outside::FileName;
use sut_readback::BalancedFault;
use sut_settings::SettingsFault;
use sut_source::SourceFault;
use sut_text::fields::{Field as Word, put_words};
use sut_text::put_byte;

/// The name of a file, and a colon. After want of memory a part may stand in `out`, behind what stood there.
pub fn put_file(out: &mut Vec<u8>, name: FileName) -> Result<(), NoMemory>
    ensures done { OnOk result (out.new.items ≡ out.old.items ++ in_file name) }
    ensures kept { Keeps out.old.items out.new.items }
{
    put_words(out, &[Word::Text(name.text().as_bytes())])?;
    put_byte(out, b':')
}

/// The name of a file, a line of it, and a colon. After want of memory a part may stand in `out`, behind what stood there.
pub fn put_file_line(out: &mut Vec<u8>, name: FileName, line: u64) -> Result<(), NoMemory>
    ensures done { OnOk result (out.new.items ≡ out.old.items ++ on_line name line) }
    ensures kept { Keeps out.old.items out.new.items }
{
    put_words(
        out,
        &[
            Word::Text(name.text().as_bytes()),
            Word::Text(b"line"),
            Word::Count(line),
        ],
    )?;
    put_byte(out, b':')
}

/// A fault of the settings. After want of memory a part may stand in `out`, behind what stood there.
pub fn put_bad_settings(out: &mut Vec<u8>, fault: SettingsFault) -> Result<(), NoMemory>
    ensures done { OnOk result (out.new.items ≡ out.old.items ++ settings_text fault) }
    ensures kept { Keeps out.old.items out.new.items }
{
    put_file(out, FileName::SettingsToml)?;
    put_settings_fault(out, fault)
}

// The line of a fault of the classes, where it has one.
fn class_line(fault: ClassFault) -> Option<u64>
    ensures { result ≡ class_line fault }
{
    match fault {
        ClassFault::Csv(line)
        | ClassFault::UnknownAxis(line)
        | ClassFault::BadCode(line)
        | ClassFault::UnknownKind(line)
        | ClassFault::UnknownGroup(line)
        | ClassFault::Duplicate(line) => Some(line),
        ClassFault::Header | ClassFault::TooMany(_) | ClassFault::NoMemory => None,
    }
}

/// A fault of the classes. After want of memory a part may stand in `out`, behind what stood there.
pub fn put_bad_classes(out: &mut Vec<u8>, fault: ClassFault) -> Result<(), NoMemory>
    ensures done { OnOk result (out.new.items ≡ out.old.items ++ class_text fault) }
    ensures kept { Keeps out.old.items out.new.items }
{
    match class_line(fault) {
        Some(line) => put_file_line(out, FileName::ClassesCsv, line)?,
        None => put_file(out, FileName::ClassesCsv)?,
    }
    put_class_fault(out, fault)
}

/// A fault of a source, which stands under the name `source.csv`. After want of memory a part may stand in `out`, behind what
/// stood there.
pub fn put_bad_source(out: &mut Vec<u8>, fault: SourceFault) -> Result<(), NoMemory>
    ensures done { OnOk result (out.new.items ≡ out.old.items ++ source_text fault) }
    ensures kept { Keeps out.old.items out.new.items }
{
    put_file_line(out, FileName::SourceCsv, fault.line)?;
    put_row_fault(out, fault.cause)
}

/// A fault of edits, read or applied. After want of memory a part may stand in `out`, behind what stood there.
pub fn put_bad_edits(out: &mut Vec<u8>, fault: EditsFault) -> Result<(), NoMemory>
    ensures done { OnOk result (out.new.items ≡ out.old.items ++ edits_text fault) }
    ensures kept { Keeps out.old.items out.new.items }
{
    put_file_line(out, FileName::EditsCsv, fault.line)?;
    put_edit_fault(out, fault.cause)
}

/// A fault of `balanced.csv`. After want of memory a part may stand in `out`, behind what stood there.
pub fn put_bad_table(out: &mut Vec<u8>, fault: BalancedFault) -> Result<(), NoMemory>
    ensures done { OnOk result (out.new.items ≡ out.old.items ++ table_text fault) }
    ensures kept { Keeps out.old.items out.new.items }
{
    put_file_line(out, FileName::BalancedCsv, fault.line)?;
    put_table_cause(out, fault.cause)
}

/// A fault of `asks.csv`. After want of memory a part may stand in `out`, behind what stood there.
pub fn put_bad_asks(out: &mut Vec<u8>, fault: AskFault) -> Result<(), NoMemory>
    ensures done { OnOk result (out.new.items ≡ out.old.items ++ asks_text fault) }
    ensures kept { Keeps out.old.items out.new.items }
{
    put_file_line(out, FileName::AsksCsv, fault.line)?;
    put_ask_cause(out, fault.cause)
}

/// A fault of `dismiss.csv`, read or applied. After want of memory a part may stand in `out`, behind what stood there.
pub fn put_bad_dismiss(out: &mut Vec<u8>, fault: DismissFault) -> Result<(), NoMemory>
    ensures done { OnOk result (out.new.items ≡ out.old.items ++ dismiss_text fault) }
    ensures kept { Keeps out.old.items out.new.items }
{
    put_file_line(out, FileName::DismissCsv, fault.line)?;
    put_dismiss_cause(out, fault.cause)
}

// A line of a year's source, and a colon. A year without a file stands by its number.
fn put_year_line(out: &mut Vec<u8>, year: u8, line: u64) -> Result<(), NoMemory>
    ensures done { OnOk result (out.new.items ≡ out.old.items ++ on_year_line year line) }
    ensures kept { Keeps out.old.items out.new.items }
{
    if let Some(name) = year_file(year) {
        return put_file_line(out, name, line);
    }
    put_words(
        out,
        &[
            Word::Text(b"year"),
            Word::Count(u64::from(year)),
            Word::Text(b"line"),
            Word::Count(line),
        ],
    )?;
    put_byte(out, b':')
}

/// A fault of a year's source: the year's file (`year1.csv` to `year9.csv`), or for any other year, which no reader answers,
/// `year` and its number; then the line and the fault. After want of memory a part may stand in `out`, behind what stood there.
pub fn put_bad_year(out: &mut Vec<u8>, year: u8, fault: SourceFault) -> Result<(), NoMemory>
    ensures done { OnOk result (out.new.items ≡ out.old.items ++ year_text year fault) }
    ensures kept { Keeps out.old.items out.new.items }
{
    put_year_line(out, year, fault.line)?;
    put_row_fault(out, fault.cause)
}

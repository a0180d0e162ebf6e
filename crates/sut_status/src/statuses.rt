//! How a run ended.

ghost use Rattle.std.specs.Prelude.{◌≡◌, ◌++◌, IfOk, OnOk};
ghost use Rattle.sut_text.specs.Text.{Keeps};
ghost use Rattle.sut_status.specs.Codes.{code};
ghost use Rattle.sut_status.specs.StatusLines.{not_admissible_text, status_line, status_text, too_many_pairs_text, unwritten_text, usage_text};

use crate::broken::put_broken;
use crate::endings::{put_missing, put_out_of_memory, put_too_long, put_unprinted, put_unread};
use crate::places::{
    put_bad_asks, put_bad_classes, put_bad_dismiss, put_bad_edits, put_bad_settings,
    put_bad_source, put_bad_table, put_bad_year,
};
use no_memory::NoMemory;
use std::alloc::Global;
use sut_asks::AskFault;
use sut_classes::ClassFault;
use sut_dismissals::DismissFault;
use sut_edits::EditsFault;
use sut_outside::FileName;
use sut_readback::BalancedFault;
use sut_settings::SettingsFault;
use sut_source::SourceFault;
use sut_tables::Broken;
use sut_text::fields::{Field as Word, put_words};
use sut_text::{put_byte, put_bytes};

/// How a run of the balancer ended.
#[derive(Debug, Clone, Copy, PartialEq, Eq)]
pub enum Status {
    /// A least table was written, with the certificate that shows it.
    Balanced,
    /// A made year was written and balanced.
    Generated,
    /// The classes were written in format 2.
    Migrated,
    /// The table to publish was written.
    Published,
    /// The range of each asked measure was written.
    Ranged,
    /// The years of a series were balanced and written.
    Series,
    /// The table by industries was written.
    Shared,
    /// Memory ran out.
    NoMemory,
    /// The words name no command.
    Usage,
    /// No admissible table exists; a certificate that shows it was written.
    Infeasible,
    /// The first fault of `settings.toml`.
    BadSettings(SettingsFault),
    /// The first fault of `classes.csv`.
    BadClasses(ClassFault),
    /// The first fault of `source.csv`.
    BadSource(SourceFault),
    /// The first fault of `edits.csv`, or the first of its edits that is refused.
    BadEdits(EditsFault),
    /// The first fault of `balanced.csv`.
    BadTable(BalancedFault),
    /// The first identity or bound that the table of `balanced.csv` breaks.
    NotAdmissible(Broken),
    /// The first fault of `asks.csv`.
    BadAsks(AskFault),
    /// The first fault of `dismiss.csv`, or the first of its dismissals that is refused.
    BadDismiss(DismissFault),
    /// There would be so many pairs, which is too many.
    TooManyPairs(u64),
    /// The first fault of the source of this year of a series, from 1 to 9.
    BadYear(u8, SourceFault),
    /// A file could not be read.
    ReadFault(FileName),
    /// A file could not be written.
    WriteFault(FileName),
    /// A file is not there.
    Missing(FileName),
    /// The lines could not be printed.
    SinkFault,
    /// A file has more than 67,108,864 bytes.
    TooLong(FileName),
}

fn put_usage(out: &mut Vec<u8>) -> Result<(), NoMemory>
    ensures done { OnOk result (out.new.items ≡ out.old.items ++ usage_text) }
    ensures kept { Keeps out.old.items out.new.items }
{
    put_words(
        out,
        &[
            Word::Text(b"usage:"),
            Word::Text(b"a"),
            Word::Text(b"command"),
            Word::Text(b"of"),
            Word::Text(b"sut"),
        ],
    )
}

fn put_unwritten(out: &mut Vec<u8>, name: FileName) -> Result<(), NoMemory>
    ensures done { OnOk result (out.new.items ≡ out.old.items ++ unwritten_text name) }
    ensures kept { Keeps out.old.items out.new.items }
{
    put_words(
        out,
        &[
            Word::Text(b"cannot"),
            Word::Text(b"write"),
            Word::Text(name.text().as_bytes()),
        ],
    )
}

fn put_not_admissible(out: &mut Vec<u8>, broken: Broken) -> Result<(), NoMemory>
    ensures done { OnOk result (out.new.items ≡ out.old.items ++ not_admissible_text broken) }
    ensures kept { Keeps out.old.items out.new.items }
{
    put_words(out, &[Word::Text(b"not"), Word::Text(b"admissible")])?;
    put_broken(out, broken)
}

fn put_too_many_pairs(out: &mut Vec<u8>, pairs: u64) -> Result<(), NoMemory>
    ensures done { OnOk result (out.new.items ≡ out.old.items ++ too_many_pairs_text pairs) }
    ensures kept { Keeps out.old.items out.new.items }
{
    put_words(
        out,
        &[
            Word::Text(b"too"),
            Word::Text(b"many"),
            Word::Text(b"pairs"),
            Word::Count(pairs),
        ],
    )
}

// The words of a status, each behind a space.
fn put_status(out: &mut Vec<u8>, status: &Status) -> Result<(), NoMemory>
    ensures done { OnOk result (out.new.items ≡ out.old.items ++ status_text status.now) }
    ensures kept { Keeps out.old.items out.new.items }
{
    match status {
        Status::Balanced
        | Status::Generated
        | Status::Migrated
        | Status::Published
        | Status::Ranged
        | Status::Series
        | Status::Shared => put_words(out, &[Word::Text(b"ok")]),
        Status::NoMemory => put_out_of_memory(out),
        Status::Usage => put_usage(out),
        Status::Infeasible => put_words(out, &[Word::Text(b"infeasible")]),
        Status::BadSettings(fault) => put_bad_settings(out, *fault),
        Status::BadClasses(fault) => put_bad_classes(out, *fault),
        Status::BadSource(fault) => put_bad_source(out, *fault),
        Status::BadEdits(fault) => put_bad_edits(out, *fault),
        Status::BadTable(fault) => put_bad_table(out, *fault),
        Status::NotAdmissible(broken) => put_not_admissible(out, *broken),
        Status::BadAsks(fault) => put_bad_asks(out, *fault),
        Status::BadDismiss(fault) => put_bad_dismiss(out, *fault),
        Status::TooManyPairs(pairs) => put_too_many_pairs(out, *pairs),
        Status::BadYear(year, fault) => put_bad_year(out, *year, *fault),
        Status::ReadFault(name) => put_unread(out, *name),
        Status::WriteFault(name) => put_unwritten(out, *name),
        Status::Missing(name) => put_missing(out, *name),
        Status::SinkFault => put_unprinted(out),
        Status::TooLong(name) => put_too_long(out, *name),
    }
}

impl Status {
    /// The number that the program ends with.
    pub fn code(&self) -> u8
        ensures { result ≡ code self.now }
    {
        match self {
            Status::Balanced
            | Status::Generated
            | Status::Migrated
            | Status::Published
            | Status::Ranged
            | Status::Series
            | Status::Shared => 0,
            Status::NoMemory => 1,
            Status::Usage => 2,
            Status::Infeasible => 3,
            Status::BadSettings(_) => 5,
            Status::BadClasses(_) => 6,
            Status::BadSource(_) => 7,
            Status::BadEdits(_) => 8,
            Status::ReadFault(_) => 10,
            Status::WriteFault(_) => 11,
            Status::Missing(_) => 12,
            Status::SinkFault => 13,
            Status::TooLong(_) => 14,
            Status::BadTable(_) => 15,
            Status::NotAdmissible(_) => 16,
            Status::BadAsks(_) => 17,
            Status::BadDismiss(_) => 18,
            Status::TooManyPairs(_) => 19,
            Status::BadYear(_, _) => 20,
        }
    }

    /// The line for standard error: `sut:`, the words of the status, and LF. Places are counted from 1.
    pub fn line(&self, alloc: Global) -> Result<Vec<u8>, NoMemory>
        ensures { IfOk result (λ line. line.items ≡ status_line self.now) }
    {
        let mut line = Vec::new(alloc);
        put_bytes(&mut line, b"sut:")?;
        put_status(&mut line, self)?;
        put_byte(&mut line, b'\n')?;
        Ok(line)
    }
}

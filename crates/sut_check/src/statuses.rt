//! How a check ended.

ghost use Rattle.std.specs.Prelude.{◌≡◌, ◌++◌, IfOk, OnOk};
ghost use Rattle.sut_check.specs.CheckCodes.{code};
ghost use Rattle.sut_text.specs.Text.{Keeps};
ghost use Rattle.sut_check.specs.CheckLines.{check_line, check_status_text, refused_text, usage_text};

use crate::fault_words::put_bad_certificate;
use crate::reasons::put_reason;
use no_memory::NoMemory;
use std::alloc::Global;
use sut_cert::CertFault;
use sut_classes::ClassFault;
use sut_outside::FileName;
use sut_readback::BalancedFault;
use sut_settings::SettingsFault;
use sut_source::SourceFault;
use sut_status::endings::{
    put_missing, put_out_of_memory, put_too_long, put_unprinted, put_unread,
};
use sut_status::places::{put_bad_classes, put_bad_settings, put_bad_source, put_bad_table};
use sut_text::fields::{Field as Word, put_words};
use sut_text::{put_byte, put_bytes};
use sut_verify::Reason;

/// How a check of written files ended.
#[derive(Debug, Clone, Copy, PartialEq, Eq)]
pub enum CheckStatus {
    /// The written potentials show the written table, and no admissible table costs less.
    Least,
    /// The written set of accounts contradicts, and no table is admissible.
    NoTable,
    /// The first reason against the written certificate.
    Refused(Reason),
    /// The first fault of `certificate.csv`.
    BadCertificate(CertFault),
    /// The first fault of `balanced.csv`.
    BadTable(BalancedFault),
    /// Memory ran out.
    NoMemory,
    /// The words are neither none nor the one word `edited`.
    Usage,
    /// The first fault of `settings.toml`.
    BadSettings(SettingsFault),
    /// The first fault of `classes.csv`.
    BadClasses(ClassFault),
    /// The first fault of the source.
    BadSource(SourceFault),
    /// A file could not be read.
    ReadFault(FileName),
    /// A file is not there.
    Missing(FileName),
    /// The lines could not be printed.
    SinkFault,
    /// A file has more than 67,108,864 bytes.
    TooLong(FileName),
}

fn put_usage(out: &mut Vec<u8>) -> Result<(), NoMemory>
    ensures done { OnOk result (out.new.items ≡ out.old.items ++ usage_text) }
    ensures kept { Keeps out.old.items out.new.items }
{
    put_words(
        out,
        &[
            Word::Text(b"usage:"),
            Word::Text(b"no"),
            Word::Text(b"word,"),
            Word::Text(b"or"),
            Word::Text(b"edited"),
        ],
    )
}

fn put_refused(out: &mut Vec<u8>, reason: Reason) -> Result<(), NoMemory>
    ensures done { OnOk result (out.new.items ≡ out.old.items ++ refused_text reason) }
    ensures kept { Keeps out.old.items out.new.items }
{
    put_words(out, &[Word::Text(b"refused:")])?;
    put_reason(out, reason)
}

// The words of a status, each behind a space.
fn put_status(out: &mut Vec<u8>, status: &CheckStatus) -> Result<(), NoMemory>
    ensures done { OnOk result (out.new.items ≡ out.old.items ++ check_status_text status.now) }
    ensures kept { Keeps out.old.items out.new.items }
{
    match status {
        CheckStatus::Least | CheckStatus::NoTable => put_words(out, &[Word::Text(b"ok")]),
        CheckStatus::Refused(reason) => put_refused(out, *reason),
        CheckStatus::BadCertificate(fault) => put_bad_certificate(out, *fault),
        CheckStatus::BadTable(fault) => put_bad_table(out, *fault),
        CheckStatus::NoMemory => put_out_of_memory(out),
        CheckStatus::Usage => put_usage(out),
        CheckStatus::BadSettings(fault) => put_bad_settings(out, *fault),
        CheckStatus::BadClasses(fault) => put_bad_classes(out, *fault),
        CheckStatus::BadSource(fault) => put_bad_source(out, *fault),
        CheckStatus::ReadFault(name) => put_unread(out, *name),
        CheckStatus::Missing(name) => put_missing(out, *name),
        CheckStatus::SinkFault => put_unprinted(out),
        CheckStatus::TooLong(name) => put_too_long(out, *name),
    }
}

impl CheckStatus {
    /// The number that the program ends with.
    pub fn code(&self) -> u8
        ensures { result ≡ code self.now }
    {
        match self {
            CheckStatus::Least => 0,
            CheckStatus::NoMemory => 1,
            CheckStatus::Usage => 2,
            CheckStatus::NoTable => 3,
            CheckStatus::Refused(_) => 4,
            CheckStatus::BadSettings(_) => 5,
            CheckStatus::BadClasses(_) => 6,
            CheckStatus::BadSource(_) => 7,
            CheckStatus::BadCertificate(_) => 8,
            CheckStatus::BadTable(_) => 9,
            CheckStatus::ReadFault(_) => 10,
            CheckStatus::Missing(_) => 12,
            CheckStatus::SinkFault => 13,
            CheckStatus::TooLong(_) => 14,
        }
    }

    /// The line for standard error: `sutcheck:`, the words of the status, and LF. Places are counted from 1.
    pub fn line(&self, alloc: Global) -> Result<Vec<u8>, NoMemory>
        ensures { IfOk result (λ line. line.items ≡ check_line self.now) }
    {
        let mut line = Vec::new(alloc);
        put_bytes(&mut line, b"sutcheck:")?;
        put_status(&mut line, self)?;
        put_byte(&mut line, b'\n')?;
        Ok(line)
    }
}

//! The statuses of `sutcheck`.

ghost use Rattle.std.specs.Prelude.{◌<◌};

use crate::comparing::Entry;
use no_memory::NoMemory;
use std::alloc::Global;
use sut_cert::{CertCause, CertFault};
use sut_check::CheckStatus;
use sut_classes::ClassFault;
use sut_measures::Field;
use sut_outside::FileName;
use sut_readback::{BalancedCause, BalancedFault};
use sut_settings::SettingsFault;
use sut_source::{RowFault, SourceFault};
use sut_verify::Reason;

/// How many statuses there are.
pub(crate) const COUNT: usize = 14;

// One of each status, in the order of `place`.
fn examples() -> [CheckStatus; COUNT] {
    [
        CheckStatus::Least,
        CheckStatus::NoTable,
        CheckStatus::Refused(Reason::NoGap {
            entering: 90,
            leaving: 95,
        }),
        CheckStatus::BadCertificate(CertFault {
            line: 4,
            cause: CertCause::NotNumber,
        }),
        CheckStatus::BadTable(BalancedFault {
            line: 3,
            cause: BalancedCause::WrongTarget,
        }),
        CheckStatus::NoMemory,
        CheckStatus::Usage,
        CheckStatus::BadSettings(SettingsFault::NoScheme),
        CheckStatus::BadClasses(ClassFault::UnknownAxis(2)),
        CheckStatus::BadSource(SourceFault {
            line: 5,
            cause: RowFault::NotNumber(Field::Target),
        }),
        CheckStatus::ReadFault(FileName::ClassesCsv),
        CheckStatus::Missing(FileName::CertificateCsv),
        CheckStatus::SinkFault,
        CheckStatus::TooLong(FileName::SourceCsv),
    ]
}

// The place of a status among the examples. A new status wants a place, and an example there.
fn place(status: &CheckStatus) -> usize
    ensures { result < COUNT }
{
    match status {
        CheckStatus::Least => 0,
        CheckStatus::NoTable => 1,
        CheckStatus::Refused(_) => 2,
        CheckStatus::BadCertificate(_) => 3,
        CheckStatus::BadTable(_) => 4,
        CheckStatus::NoMemory => 5,
        CheckStatus::Usage => 6,
        CheckStatus::BadSettings(_) => 7,
        CheckStatus::BadClasses(_) => 8,
        CheckStatus::BadSource(_) => 9,
        CheckStatus::ReadFault(_) => 10,
        CheckStatus::Missing(_) => 11,
        CheckStatus::SinkFault => 12,
        CheckStatus::TooLong(_) => 13,
    }
}

/// What `sutcheck` says of each status; none where an example does not stand in its place.
pub(crate) fn entries(alloc: Global) -> Result<Option<Vec<Entry>>, NoMemory> {
    let mut entries = Vec::new(alloc);
    for (k, status) in examples().iter().enumerate() {
        if place(status) != k {
            return Ok(None);
        }
        let shown = format!(in alloc; "{status:?}")?;
        let line = status.line(alloc)?;
        entries.push(Entry::new(alloc, shown.as_str(), status.code(), &line)?)?;
    }
    Ok(Some(entries))
}

//! The statuses of `sut`.

ghost use Rattle.std.specs.Prelude.{◌<◌};

use crate::comparing::Entry;
use no_memory::NoMemory;
use std::alloc::Global;
use sut_asks::{AskCause, AskFault};
use sut_classes::{ClassFault, ProductId};
use sut_dismissals::{DismissCause, DismissFault};
use sut_edits::{EditsCause, EditsFault};
use sut_measures::Field;
use sut_outside::FileName;
use sut_readback::{BalancedCause, BalancedFault};
use sut_settings::SettingsFault;
use sut_source::{RowFault, SourceFault};
use sut_status::Status;
use sut_tables::{Broken, Place};

/// How many statuses there are.
pub(crate) const COUNT: usize = 25;

// One of each status, in the order of `place`.
fn examples() -> [Status; COUNT] {
    let not_number = RowFault::NotNumber(Field::Target);
    [
        Status::Balanced,
        Status::Generated,
        Status::Migrated,
        Status::Published,
        Status::Ranged,
        Status::Series,
        Status::Shared,
        Status::NoMemory,
        Status::Usage,
        Status::Infeasible,
        Status::BadSettings(SettingsFault::NoScheme),
        Status::BadClasses(ClassFault::UnknownAxis(2)),
        Status::BadSource(SourceFault {
            line: 5,
            cause: not_number,
        }),
        Status::BadEdits(EditsFault {
            line: 3,
            cause: EditsCause::NoRow,
        }),
        Status::BadTable(BalancedFault {
            line: 3,
            cause: BalancedCause::WrongTarget,
        }),
        Status::NotAdmissible(Broken {
            place: Place::Product(ProductId(0)),
            left: 110,
            right: 116,
        }),
        Status::BadAsks(AskFault {
            line: 2,
            cause: AskCause::NotLive,
        }),
        Status::BadDismiss(DismissFault {
            line: 2,
            cause: DismissCause::NoReviewer,
        }),
        Status::TooManyPairs(70000),
        Status::BadYear(
            2,
            SourceFault {
                line: 5,
                cause: not_number,
            },
        ),
        Status::ReadFault(FileName::ClassesCsv),
        Status::WriteFault(FileName::UseCsv),
        Status::Missing(FileName::SettingsToml),
        Status::SinkFault,
        Status::TooLong(FileName::SourceCsv),
    ]
}

// The place of a status among the examples. A new status wants a place, and an example there.
fn place(status: &Status) -> usize
    ensures { result < COUNT }
{
    match status {
        Status::Balanced => 0,
        Status::Generated => 1,
        Status::Migrated => 2,
        Status::Published => 3,
        Status::Ranged => 4,
        Status::Series => 5,
        Status::Shared => 6,
        Status::NoMemory => 7,
        Status::Usage => 8,
        Status::Infeasible => 9,
        Status::BadSettings(_) => 10,
        Status::BadClasses(_) => 11,
        Status::BadSource(_) => 12,
        Status::BadEdits(_) => 13,
        Status::BadTable(_) => 14,
        Status::NotAdmissible(_) => 15,
        Status::BadAsks(_) => 16,
        Status::BadDismiss(_) => 17,
        Status::TooManyPairs(_) => 18,
        Status::BadYear(_, _) => 19,
        Status::ReadFault(_) => 20,
        Status::WriteFault(_) => 21,
        Status::Missing(_) => 22,
        Status::SinkFault => 23,
        Status::TooLong(_) => 24,
    }
}

/// What `sut` says of each status; none where an example does not stand in its place.
pub(crate) fn entries(alloc: Global) -> Result<Option<Vec<Entry>>, NoMemory> {
    let mut entries = Vec::new(alloc);
    for (k, status) in examples().iter().enumerate() {
        if place(status) != k {
            return Ok(None);
        }
        let shown = format!(in alloc; "{status:?}")?;
        let line = status.line(alloc)?;
        entries.push(Entry::new(alloc, shown.as_str(), status.code(), &line)?)?;
    }
    Ok(Some(entries))
}

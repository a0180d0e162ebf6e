//! Why the files of a check spell nothing that can be judged.

ghost use Rattle.std.specs.Prelude.{◌≡◌};
ghost use Rattle.sut_check.specs.Statuses.{certificate_fault, input_status, status_of, table_fault};

use crate::CheckStatus;
use sut_cert::{CertCause, CertFault};
use sut_input::InputFault;
use sut_readback::{BalancedCause, BalancedFault};

/// Why the files of a check spell nothing that can be judged: the first of these in the order of reading.
#[derive(Debug, Clone, Copy, PartialEq, Eq)]
pub enum CheckFault {
    /// A file is not there, is too long or could not be read; settings, classes or source have a fault; or memory ran out.
    Input(InputFault),
    /// The first fault of `certificate.csv`.
    BadCertificate(CertFault),
    /// The first fault of `balanced.csv`.
    BadTable(BalancedFault),
}

pub(crate) fn certificate_fault(fault: CertFault) -> CheckFault
    ensures { result ≡ certificate_fault fault }
{
    match fault.cause {
        CertCause::NoMemory => CheckFault::Input(InputFault::NoMemory),
        _ => CheckFault::BadCertificate(fault),
    }
}

pub(crate) fn table_fault(fault: BalancedFault) -> CheckFault
    ensures { result ≡ table_fault fault }
{
    match fault.cause {
        BalancedCause::NoMemory => CheckFault::Input(InputFault::NoMemory),
        _ => CheckFault::BadTable(fault),
    }
}

// The status of a check of files that give no problem.
fn input_status(fault: InputFault) -> CheckStatus
    ensures { result ≡ input_status fault }
{
    match fault {
        InputFault::Missing(name) => CheckStatus::Missing(name),
        InputFault::TooLong(name) => CheckStatus::TooLong(name),
        InputFault::ReadFault(name) => CheckStatus::ReadFault(name),
        InputFault::BadSettings(fault) => CheckStatus::BadSettings(fault),
        InputFault::BadClasses(fault) => CheckStatus::BadClasses(fault),
        InputFault::BadSource(fault) => CheckStatus::BadSource(fault),
        InputFault::NoMemory => CheckStatus::NoMemory,
    }
}

// The status of a check that is refused.
pub(crate) fn status_of(fault: CheckFault) -> CheckStatus
    ensures { result ≡ status_of fault }
{
    match fault {
        CheckFault::Input(fault) => input_status(fault),
        CheckFault::BadCertificate(fault) => CheckStatus::BadCertificate(fault),
        CheckFault::BadTable(fault) => CheckStatus::BadTable(fault),
    }
}

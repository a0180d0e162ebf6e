//! What is wrong with the text of a certificate.

use sut_measures::NameFault;

/// Why a line of a certificate is none.
#[derive(Debug, Clone, Copy, PartialEq, Eq)]
pub enum CertCause {
    Csv,
    Header,
    BadName(NameFault),
    WrongAccount,
    NotNumber,
    OutOfRange,
    Short,
    NoMemory,
}

/// The first fault of a certificate, with its line.
#[derive(Debug, Clone, Copy, PartialEq, Eq)]
pub struct CertFault {
    pub line: u64,
    pub cause: CertCause,
}

//! What is wrong with a certificate, in words: the file, the line, the variant's name in lower case with dashes, and then what it
//! carries. After want of memory a part of the words may stand in `out`, behind what stood there.

ghost use Rattle.std.specs.Prelude.{◌≡◌, ◌++◌, OnOk};
ghost use Rattle.sut_text.specs.Text.{Keeps, spaced};
ghost use Rattle.sut_check.specs.CheckFaultWords.{certificate_text, certificate_words};

use no_memory::NoMemory;
use sut_cert::{CertCause, CertFault};
use sut_outside::FileName;
use sut_status::faults::put_name_fault;
use sut_status::places::put_file_line;
use sut_text::fields::{Field as Word, put_words};

/// A fault of a certificate without its line, each word behind a space; the fault of a name follows. After want of memory a part
/// may stand in `out`, behind what stood there.
pub fn put_certificate_cause(out: &mut Vec<u8>, cause: CertCause) -> Result<(), NoMemory>
    ensures done { OnOk result (out.new.items ≡ out.old.items ++ spaced (certificate_words cause)) }
    ensures kept { Keeps out.old.items out.new.items }
{
    match cause {
        CertCause::Csv => put_words(out, &[Word::Text(b"csv")]),
        CertCause::Header => put_words(out, &[Word::Text(b"header")]),
        CertCause::BadName(fault) => {
            put_words(out, &[Word::Text(b"bad-name")])?;
            put_name_fault(out, fault)
        }
        CertCause::WrongAccount => put_words(out, &[Word::Text(b"wrong-account")]),
        CertCause::NotNumber => put_words(out, &[Word::Text(b"not-number")]),
        CertCause::OutOfRange => put_words(out, &[Word::Text(b"out-of-range")]),
        CertCause::Short => put_words(out, &[Word::Text(b"short")]),
        CertCause::NoMemory => put_words(out, &[Word::Text(b"no-memory")]),
    }
}

/// A fault of `certificate.csv`. After want of memory a part may stand in `out`, behind what stood there.
pub fn put_bad_certificate(out: &mut Vec<u8>, fault: CertFault) -> Result<(), NoMemory>
    ensures done { OnOk result (out.new.items ≡ out.old.items ++ certificate_text fault) }
    ensures kept { Keeps out.old.items out.new.items }
{
    put_file_line(out, FileName::CertificateCsv, fault.line)?;
    put_certificate_cause(out, fault.cause)
}

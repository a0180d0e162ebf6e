//! Why a certificate is refused, in words: the variant's name in lower case with dashes, and then what it carries. Places are
//! counted from 1. After want of memory a part of the words may stand in `out`, behind what stood there.

ghost use Rattle.std.specs.Prelude.{◌≡◌, ◌++◌, OnOk};
ghost use Rattle.sut_text.specs.Text.{Keeps};
ghost use Rattle.sut_check.specs.ReasonTexts.{reason_text};

use no_memory::NoMemory;
use sut_measures::words::{put_account_words, put_measure_words};
use sut_status::broken::put_broken;
use sut_text::fields::{Field as Word, put_words};
use sut_verify::Reason;

/// Why a certificate is refused, each word behind a space. After want of memory a part may stand in `out`, behind what stood
/// there.
pub fn put_reason(out: &mut Vec<u8>, reason: Reason) -> Result<(), NoMemory>
    ensures done { OnOk result (out.new.items ≡ out.old.items ++ reason_text reason) }
    ensures kept { Keeps out.old.items out.new.items }
{
    match reason {
        Reason::Open(broken) => {
            put_words(out, &[Word::Text(b"open")])?;
            put_broken(out, broken)
        }
        Reason::NoPotential(account) => {
            put_words(out, &[Word::Text(b"no-potential")])?;
            put_account_words(out, account)
        }
        Reason::Bent { measure, rise } => {
            put_words(out, &[Word::Text(b"bent")])?;
            put_measure_words(out, measure)?;
            put_words(out, &[Word::Whole(rise)])
        }
        Reason::Up {
            measure,
            slope,
            rise,
        } => {
            put_words(out, &[Word::Text(b"up")])?;
            put_measure_words(out, measure)?;
            put_words(out, &[Word::Whole(slope), Word::Whole(rise)])
        }
        Reason::Down {
            measure,
            slope,
            rise,
        } => {
            put_words(out, &[Word::Text(b"down")])?;
            put_measure_words(out, measure)?;
            put_words(out, &[Word::Whole(slope), Word::Whole(rise)])
        }
        Reason::Crosses(measure) => {
            put_words(out, &[Word::Text(b"crosses")])?;
            put_measure_words(out, measure)
        }
        Reason::NoGap { entering, leaving } => put_words(
            out,
            &[
                Word::Text(b"no-gap"),
                Word::Whole(entering),
                Word::Whole(leaving),
            ],
        ),
    }
}

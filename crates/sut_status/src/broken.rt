//! Where a table is broken, in words. Places are counted from 1. After want of memory a part of the words may stand in `out`,
//! behind what stood there.

ghost use Rattle.std.specs.Prelude.{◌≡◌, ◌++◌, OnOk};
ghost use Rattle.sut_text.specs.Text.{Keeps};
ghost use Rattle.sut_status.specs.BrokenTexts.{broken_text, place_text};

use no_memory::NoMemory;
use sut_measures::words::{place as nth, put_measure_words};
use sut_tables::{Broken, Place};
use sut_text::fields::{Field as Word, put_words};

/// An identity or a bound, each word behind a space. After want of memory a part may stand in `out`, behind what stood there.
pub fn put_place(out: &mut Vec<u8>, place: Place) -> Result<(), NoMemory>
    ensures done { OnOk result (out.new.items ≡ out.old.items ++ place_text place) }
    ensures kept { Keeps out.old.items out.new.items }
{
    match place {
        Place::Product(i) => put_words(out, &[Word::Text(b"product"), nth(i.0)]),
        Place::Industry(j) => put_words(out, &[Word::Text(b"industry"), nth(j.0)]),
        Place::Margin(k) => put_words(out, &[Word::Text(b"margin"), nth(k.0)]),
        Place::Below(measure) => {
            put_words(out, &[Word::Text(b"below")])?;
            put_measure_words(out, measure)
        }
        Place::Above(measure) => {
            put_words(out, &[Word::Text(b"above")])?;
            put_measure_words(out, measure)
        }
    }
}

/// Where a table is broken, and both numbers in whole currency units, each word behind a space: the two sides of an identity,
/// or the value and the bound. After want of memory a part may stand in `out`, behind what stood there.
pub fn put_broken(out: &mut Vec<u8>, broken: Broken) -> Result<(), NoMemory>
    ensures done { OnOk result (out.new.items ≡ out.old.items ++ broken_text broken) }
    ensures kept { Keeps out.old.items out.new.items }
{
    put_place(out, broken.place)?;
    put_words(out, &[Word::Whole(broken.left), Word::Whole(broken.right)])
}

//! The words of endings that more than one program has: memory, files and devices. After want of memory a part of the words may
//! stand in `out`, behind what stood there.

ghost use Rattle.std.specs.Prelude.{◌≡◌, ◌++◌, OnOk};
ghost use Rattle.sut_text.specs.Text.{Keeps};
ghost use Rattle.sut_status.specs.Endings.{memory_text, missing_text, too_long_text, unprinted_text, unread_text};

use no_memory::NoMemory;
use sut_outside::FileName;
use sut_text::fields::{Field as Word, put_words};

/// Memory ran out. After want of memory a part may stand in `out`, behind what stood there.
pub fn put_out_of_memory(out: &mut Vec<u8>) -> Result<(), NoMemory>
    ensures done { OnOk result (out.new.items ≡ out.old.items ++ memory_text) }
    ensures kept { Keeps out.old.items out.new.items }
{
    put_words(
        out,
        &[Word::Text(b"out"), Word::Text(b"of"), Word::Text(b"memory")],
    )
}

/// A file that can't be read. After want of memory a part may stand in `out`, behind what stood there.
pub fn put_unread(out: &mut Vec<u8>, name: FileName) -> Result<(), NoMemory>
    ensures done { OnOk result (out.new.items ≡ out.old.items ++ unread_text name) }
    ensures kept { Keeps out.old.items out.new.items }
{
    put_words(
        out,
        &[
            Word::Text(b"cannot"),
            Word::Text(b"read"),
            Word::Text(name.text().as_bytes()),
        ],
    )
}

/// A file that is not there. After want of memory a part may stand in `out`, behind what stood there.
pub fn put_missing(out: &mut Vec<u8>, name: FileName) -> Result<(), NoMemory>
    ensures done { OnOk result (out.new.items ≡ out.old.items ++ missing_text name) }
    ensures kept { Keeps out.old.items out.new.items }
{
    put_words(
        out,
        &[Word::Text(b"missing"), Word::Text(name.text().as_bytes())],
    )
}

/// A file that is too long. After want of memory a part may stand in `out`, behind what stood there.
pub fn put_too_long(out: &mut Vec<u8>, name: FileName) -> Result<(), NoMemory>
    ensures done { OnOk result (out.new.items ≡ out.old.items ++ too_long_text name) }
    ensures kept { Keeps out.old.items out.new.items }
{
    put_words(
        out,
        &[
            Word::Text(b"too"),
            Word::Text(b"long"),
            Word::Text(name.text().as_bytes()),
        ],
    )
}

/// Lines that can't be printed. After want of memory a part may stand in `out`, behind what stood there.
pub fn put_unprinted(out: &mut Vec<u8>) -> Result<(), NoMemory>
    ensures done { OnOk result (out.new.items ≡ out.old.items ++ unprinted_text) }
    ensures kept { Keeps out.old.items out.new.items }
{
    put_words(out, &[Word::Text(b"cannot"), Word::Text(b"print")])
}

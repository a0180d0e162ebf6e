//! Printed lines of words.

ghost use Rattle.std.specs.Prelude.{◌≡◌, ◌++◌, ◌∷◌, [], OnOk, map};
ghost use Rattle.sut_text.specs.Text.{words_text, Keeps};
ghost use Rattle.sut_text.specs.Fields.{field_bytes};

use no_memory::NoMemory;
use sut_text::fields::{Field, put_words};
use sut_text::{put_byte, put_bytes};

/// Appends a line: a word, and further words. After want of memory a part may stand in `out`, behind what stood there.
pub fn put_word_line(out: &mut Vec<u8>, word: &[u8], words: &[Field<'_>]) -> Result<(), NoMemory>
    ensures done { OnOk result (out.new.items ≡ out.old.items ++ (words_text (word.now ∷ map field_bytes words.now) ++ 10 ∷ [])) }
    ensures kept { Keeps out.old.items out.new.items }
{
    put_bytes(out, word)?;
    put_words(out, words)?;
    put_byte(out, b'\n')?;
    Ok(())
}

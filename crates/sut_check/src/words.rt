//! The words of a check.

ghost use Rattle.std.specs.Prelude.{◌≡◌, IfSome, map, string_bytes};
ghost use Rattle.sut_check.specs.CheckWords.{IsCheckedSource, checked_source, named};

use sut_outside::FileName;

fn source_of_word(word: &str) -> Option<FileName>
    ensures named { result ≡ named word.now }
    ensures source { IfSome result IsCheckedSource }
{
    if word.as_bytes() == b"edited".as_slice() {
        Some(FileName::EditedCsv)
    } else {
        None
    }
}

/// The source that these words ask to be checked against; none where they are not accepted.
pub(crate) fn source_named(words: &[String]) -> Option<FileName>
    ensures named { result ≡ checked_source (map string_bytes words.now) }
    ensures source { IfSome result IsCheckedSource }
{
    match words {
        [] => Some(FileName::SourceCsv),
        [word] => source_of_word(word.as_str()),
        _ => None,
    }
}

//! The commands and their words.

ghost use Rattle.std.specs.Prelude.{◌≡◌, map, string_bytes};
ghost use Rattle.sut_run.specs.Commands.{command_of, generate_of, named, natural, sized};

use sut_generate::is_size;
use sut_text::read_whole;

/// What a run does.
#[derive(Debug, Clone, Copy, PartialEq, Eq)]
pub enum Command {
    /// Balances the source of a year.
    Balance,
    /// Balances the source of a year under edits of its rows.
    Edit,
    /// Writes the classes in format 2.
    Migrate,
    /// Makes a year from a seed, with so many products and industries, and balances it.
    Generate(u32, u32, u32),
}

fn command_of_word(word: &str) -> Option<Command>
    ensures { result ≡ named word.now }
{
    if word.as_bytes() == b"balance".as_slice() {
        Some(Command::Balance)
    } else if word.as_bytes() == b"edit".as_slice() {
        Some(Command::Edit)
    } else if word.as_bytes() == b"migrate".as_slice() {
        Some(Command::Migrate)
    } else {
        None
    }
}

// The number that a word spells in shortest decimal, without a sign.
fn natural(word: &str) -> Option<u128>
    ensures { result ≡ natural word.now }
{
    match read_whole(word.as_bytes()) {
        Ok(number) if number >= 0 => Some(number as u128),
        Ok(_) => None,
        Err(_) => None,
    }
}

// A made year of this seed and size, where the generator makes one.
fn generate_sized(seed: u128, products: u128, industries: u128) -> Option<Command>
    ensures { result ≡ generate_of (Some seed) (Some products) (Some industries) }
{
    let seed = u32::try_from(seed).ok()?;
    let products = u32::try_from(products).ok()?;
    let industries = u32::try_from(industries).ok()?;
    if is_size(seed, products, industries) {
        Some(Command::Generate(seed, products, industries))
    } else {
        None
    }
}

fn generate_of_words(seed: &str, products: &str, industries: &str) -> Option<Command>
    ensures { result ≡ generate_of (natural seed.now) (natural products.now) (natural industries.now) }
{
    match (natural(seed), natural(products), natural(industries)) {
        (Some(seed), Some(products), Some(industries)) => {
            generate_sized(seed, products, industries)
        }
        _ => None,
    }
}

fn command_of_sizes(word: &str, seed: &str, products: &str, industries: &str) -> Option<Command>
    ensures { result ≡ sized word.now seed.now products.now industries.now }
{
    if word.as_bytes() == b"generate".as_slice() {
        generate_of_words(seed, products, industries)
    } else {
        None
    }
}

/// The command of these words; none where they are not accepted.
pub fn command_named(words: &[String]) -> Option<Command>
    ensures { result ≡ command_of (map string_bytes words.now) }
{
    match words {
        [word] => command_of_word(word.as_str()),
        [word, seed, products, industries] => command_of_sizes(
            word.as_str(),
            seed.as_str(),
            products.as_str(),
            industries.as_str(),
        ),
        _ => None,
    }
}

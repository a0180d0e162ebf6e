//! The generator of made years: settings, classes and a source of a size that is asked for, drawn from a seed. It is this
//! project's own (docs/DEFINITIONS.md).
#![tactic(auto)]

ghost use Rattle.std.specs.Prelude.{◌≡◌, ◌≤◌, ◌↔◌, IfOk, false};
ghost use Rattle.sut_generate.specs.Generator.{is_size};
ghost use Rattle.sut_generate.specs.MadeFiles.{AreMade};

mod classes;
mod rows;
mod source;

use classes::classes_text;
use no_memory::NoMemory;
use source::source_text;
use std::alloc::Global;

/// The three files of a made year.
#[derive(Debug, Drop)]
pub struct Files {
    /// `made_settings.toml`: scheme `flat`, no grades.
    pub settings: Vec<u8>,
    /// `made_classes.csv`, in format 1.
    pub classes: Vec<u8>,
    /// `made_source.csv`.
    pub source: Vec<u8>,
}

/// Why no year is made.
#[derive(Debug, Clone, Copy, PartialEq, Eq)]
pub enum GenerateFault {
    /// The seed is above 2,147,483,647, the products aren't 1 to 512 or the industries 1 to 256, or there would be more than 131,072 rows.
    BadSize,
    /// Memory ran out.
    NoMemory,
}

/// Whether a year of this size is made: the seed is at most 2,147,483,647, the products are 1 to 512, the industries 1 to
/// 256, and the rows, `products * (industries + 7) + industries`, at most 131,072.
pub fn is_size(seed: u32, products: u32, industries: u32) -> bool
    ensures { result ≡ is_size seed products industries }
{
    seed <= 2147483647
        && (1 <= products
            && (products <= 512
                && (1 <= industries
                    && (industries <= 256 && products * (industries + 7) + industries <= 131072))))
}

// The files of a size that is made.
fn make_files(alloc: Global, seed: u32, products: u32, industries: u32) -> Result<Files, NoMemory>
    requires products { (1 ≤ products) × (products ≤ 512) }
    requires industries { (1 ≤ industries) × (industries ≤ 256) }
    ensures { IfOk result (AreMade seed products industries) }
{
    Ok(Files {
        settings: Vec::from_slice(alloc, b"scheme = \"flat\"\n")?,
        classes: classes_text(alloc, products, industries)?,
        source: source_text(alloc, seed, products, industries)?,
    })
}

/// The files of a made year of so many products and industries, each target drawn in turn from the seed. A table of zeros
/// is admissible for the problem that they spell.
pub fn generate(
    alloc: Global,
    seed: u32,
    products: u32,
    industries: u32,
) -> Result<Files, GenerateFault>
    ensures made { IfOk result (AreMade seed products industries) }
    ensures size { (result ≡ Err GenerateFault.BadSize) ↔ (is_size seed products industries ≡ false) }
{
    if !is_size(seed, products, industries) {
        return Err(GenerateFault::BadSize);
    }
    match make_files(alloc, seed, products, industries) {
        Ok(files) => Ok(files),
        Err(NoMemory) => Err(GenerateFault::NoMemory),
    }
}

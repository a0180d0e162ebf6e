//! Shelves in memory with the files of a year, for tests of whole runs and checks.
#![tactic(auto)]

pub mod realistic;

use no_memory::NoMemory;
use std::alloc::Global;
use sut_outside::{FileName, SteadyShelf};

/// Settings of the flat scheme, without grades.
pub const FLAT: &str = "scheme = \"flat\"\n";

/// Classes of one product, one industry, one final use and one item.
pub const SMALL: &str = "axis,code,kind\nproduct,X,plain\nindustry,A,\nfinal,F,\nitem,V,\n";

/// Classes of one product, one industry, two final uses and one item.
pub const FINALS: &str =
    "axis,code,kind\nproduct,X,plain\nindustry,A,\nfinal,F,\nfinal,E,\nitem,V,\n";

/// The header of a source.
pub const SOURCE_HEADER: &str = "kind,a,b,c,target,grade,lower,upper\n";

/// A text before another one.
pub fn joined(alloc: Global, head: &str, rest: &str) -> Result<String, NoMemory> {
    let mut text = String::from_str(alloc, head)?;
    text.push_str(rest)?;
    Ok(text)
}

/// The words of a command.
pub fn words_of(alloc: Global, words: &[&str]) -> Result<Vec<String>, NoMemory> {
    let mut list = Vec::new(alloc);
    for word in words {
        list.push(String::from_str(alloc, word)?)?;
    }
    Ok(list)
}

/// A shelf that never fails, with these files.
pub fn steady(alloc: Global, files: &[(FileName, &str)]) -> Result<SteadyShelf, NoMemory> {
    let mut shelf = SteadyShelf::new(alloc);
    for (name, text) in files {
        shelf.place(*name, text.as_bytes())?;
    }
    Ok(shelf)
}

/// The first of these files that has another text, or that stands where none is named; none where all are so.
pub fn first_other(shelf: &SteadyShelf, files: &[(FileName, Option<&str>)]) -> Option<FileName> {
    for (name, text) in files {
        if shelf.file(*name) != text.map(str::as_bytes) {
            return Some(*name);
        }
    }
    None
}

//! What both programs take from the machine alike: the words behind the program's name. And the version of both.
#![tactic(auto)]

ghost use Rattle.std.specs.Prelude.{◌≡◌, IfOk, map, string_bytes};
ghost use Rattle.sut_console.specs.Words.{words_in};

use no_memory::NoMemory;
use std::alloc::Global;
use std::env::Args;

/// The version of both programs, as CHANGELOG.md has it.
pub const VERSION: &str = "0.1.0";

/// The words behind the first argument, which is the program's name.
pub fn words_behind_name(alloc: Global, args: Args) -> Result<Vec<String>, NoMemory>
    ensures { IfOk result (λ words. map string_bytes words.items ≡ words_in args) }
{
    Ok(args.skip(1).collect(alloc)?)
}

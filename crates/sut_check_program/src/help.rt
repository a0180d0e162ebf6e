//! The help text, which names the word that the program accepts, the files that it reads, and the exit codes.

use clap::Command;
use std::alloc::{AllocError, Global};
use sut_console::VERSION;

// The exit codes, behind the words.
const EXIT_CODES: &str = "Without a word it checks against source.csv

Exit codes:
   0  the table is least
   1  out of memory
   2  other words
   3  no table is admissible
   4  the certificate is refused
   5  a fault in settings.toml
   6  a fault in classes.csv
   7  a fault in the source
   8  a fault in certificate.csv
   9  a fault in balanced.csv
  10  a file can't be read
  12  a file is missing
  13  the lines can't be printed
  14  a file is too long";

/// The help text.
pub(crate) fn help_text(alloc: Global) -> Result<String, AllocError> {
    let about = format!(in alloc;
        "sutcheck {VERSION}: checks what stands written in the current folder, without a solver{{n}}\
        Reads settings.toml, classes.csv, source.csv or edited.csv, certificate.csv, and balanced.csv where the{{n}}\
        certificate holds potentials"
    )?;
    let edited = Command::new(alloc, "edited").about("Checks against edited.csv");
    let mut command = Command::new(alloc, "sutcheck")
        .about(about.as_str())
        .disable_help_flag(true)
        .disable_help_subcommand(true)
        .subcommand_value_name("edited")
        .subcommand_help_heading("Words")
        .subcommand(edited)?
        .after_help(EXIT_CODES);
    command.render_help()
}

//! The help text, which names the words that the program accepts, the files of each command, and the exit codes.

use clap::Command;
use std::alloc::{AllocError, Global};
use sut_console::VERSION;

// The exit codes, behind the commands.
const EXIT_CODES: &str = "Exit codes:
   0  done
   1  out of memory
   2  other words
   3  no table is admissible
   5  a fault in settings.toml
   6  a fault in classes.csv
   7  a fault in source.csv
   8  a fault in edits.csv, or a refused edit
  10  a file can't be read
  11  a file can't be written
  12  a file is missing
  13  the lines can't be printed
  14  a file is too long";

fn balance_command<'a>(alloc: Global) -> Command<'a> {
    Command::new(alloc, "balance").about(
        "Balances a year{n}\
         Reads settings.toml, classes.csv, source.csv{n}\
         Writes balanced.csv, supply.csv, use.csv, accounts.csv, certificate.csv, report.json, review.csv",
    )
}

fn edit_command<'a>(alloc: Global) -> Command<'a> {
    Command::new(alloc, "edit").about(
        "Balances a year under edits of its rows{n}\
         Reads settings.toml, classes.csv, source.csv, edits.csv{n}\
         Writes edited.csv, trail.csv, and the files of balance",
    )
}

fn generate_command<'a>(alloc: Global) -> Command<'a> {
    Command::new(alloc, "generate SEED PRODUCTS INDUSTRIES").about(
        "Makes a year of this size from a seed, and balances it in memory{n}\
         SEED is 0 to 2147483647, PRODUCTS 1 to 512, INDUSTRIES 1 to 256, and the rows at most 131072{n}\
         Writes made_settings.toml, made_classes.csv, made_source.csv",
    )
}

fn migrate_command<'a>(alloc: Global) -> Command<'a> {
    Command::new(alloc, "migrate").about(
        "Writes the classes of a year in format 2{n}\
         Reads classes.csv{n}\
         Writes classes2.csv",
    )
}

/// The help text.
pub(crate) fn help_text(alloc: Global) -> Result<String, AllocError> {
    let about = format!(in alloc;
        "sut {VERSION}: balances supply and use tables, over the files of the current folder"
    )?;
    let mut command = Command::new(alloc, "sut")
        .about(about.as_str())
        .disable_help_flag(true)
        .disable_help_subcommand(true)
        .subcommand_required(true)
        .next_line_help(true)
        .subcommand(balance_command(alloc))?
        .subcommand(edit_command(alloc))?
        .subcommand(generate_command(alloc))?
        .subcommand(migrate_command(alloc))?
        .after_help(EXIT_CODES);
    command.render_help()
}

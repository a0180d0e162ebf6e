//! Compares the tables of statuses in docs/COMMANDS.md, of which a copy lies in this program's folder, with the statuses of
//! both programs: the name, the exit code and the line of an example of each. Prints how many there are, or each difference.
#![tactic(auto)]

mod balancing;
mod checking;
mod comparing;
mod rows;

use comparing::{Entry, compare};
use no_memory::NoMemory;
use rows::rows_of;
use std::alloc::Global;
use std::fmt::Write;
use std::process::ExitCode;
use std::{fs, io};

// Adds the comparison of one program's table.
fn compare_table(
    out: &mut String,
    alloc: Global,
    text: &str,
    program: &str,
    entries: Option<Vec<Entry>>,
) -> Result<bool, NoMemory> {
    let Some(entries) = entries else {
        write!(out, "{program}: an example does not stand in its place\n")?;
        return Ok(false);
    };
    let header = format!(in alloc; "| status of `{program}` |")?;
    let rows = rows_of(alloc, text, header.as_str())?;
    compare(out, program, &entries, &rows)
}

// Adds the comparison of both tables.
fn compare_all(out: &mut String, alloc: Global, text: &str) -> Result<bool, NoMemory> {
    let sut = compare_table(out, alloc, text, "sut", balancing::entries(alloc)?)?;
    let sutcheck = compare_table(out, alloc, text, "sutcheck", checking::entries(alloc)?)?;
    Ok(sut && sutcheck)
}

fn main(rt: HostRuntime) -> io::Result<ExitCode> {
    let text = fs::read_to_string(&rt, "COMMANDS.md")?;
    let mut out = String::new(rt.alloc());
    let Ok(same) = compare_all(&mut out, rt.alloc(), text.as_str()) else {
        return Ok(ExitCode::FAILURE);
    };
    print!(rt; "{out}")?;
    Ok(if same {
        ExitCode::SUCCESS
    } else {
        ExitCode::FAILURE
    })
}

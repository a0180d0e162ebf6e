//! The comparison of a table with the statuses of a program.

use crate::rows::Row;
use no_memory::NoMemory;
use std::alloc::Global;
use std::fmt::Write;

/// What a program says of a status: the variant's name, the exit code, and the line on standard error, which is `none` after an
/// answer.
#[derive(Drop)]
pub(crate) struct Entry {
    name: String,
    code: u8,
    line: String,
}

impl Entry {
    /// Of a status as it is printed for debugging, with its exit code and its line.
    pub(crate) fn new(
        alloc: Global,
        shown: &str,
        code: u8,
        line: &[u8],
    ) -> Result<Entry, NoMemory> {
        let name = shown.split('(').next().unwrap_or(shown);
        let line = match code {
            0 | 3 => "none",
            _ => str::from_utf8(line).unwrap_or("no text").trim_end(),
        };
        Ok(Entry {
            name: String::from_str(alloc, name)?,
            code,
            line: String::from_str(alloc, line)?,
        })
    }

    // Whether this row says the same.
    fn is_said_by(&self, row: &Row<'_>) -> bool {
        row.name == self.name.as_str()
            && row.code.parse::<u8>() == Ok(self.code)
            && row.line == self.line.as_str()
    }
}

// Adds the row that each status should have, where it has none.
fn put_missing(out: &mut String, entries: &[Entry], rows: &[Row<'_>]) -> Result<bool, NoMemory> {
    let mut all = true;
    for entry in entries {
        if !rows.iter().any(|row| entry.is_said_by(row)) {
            all = false;
            let Entry { name, code, line } = entry;
            write!(out, "no row | `{name}` | {code} | `{line}` |\n")?;
        }
    }
    Ok(all)
}

/// Adds how many statuses the program has, where the table has a row for each and no further rows; else the differences.
pub(crate) fn compare(
    out: &mut String,
    program: &str,
    entries: &[Entry],
    rows: &[Row<'_>],
) -> Result<bool, NoMemory> {
    let statuses = entries.len();
    let lines = rows.len();
    let all = put_missing(out, entries, rows)?;
    if lines != statuses {
        write!(out, "{program}: {lines} rows for {statuses} statuses\n")?;
    } else if all {
        write!(out, "statuses of {program}: {statuses}\n")?;
    }
    Ok(all && lines == statuses)
}

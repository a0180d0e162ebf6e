//! The tables of statuses in a Markdown text.

use no_memory::NoMemory;
use std::alloc::Global;

/// A row of a table: the name of a status, its exit code, and its line on standard error.
#[derive(Clone, Copy)]
pub(crate) struct Row<'a> {
    pub(crate) name: &'a str,
    pub(crate) code: &'a str,
    pub(crate) line: &'a str,
}

// What a cell says, without the marks of code.
fn said(cell: Option<&str>) -> &str {
    cell.unwrap_or("").trim().trim_matches('`')
}

fn row_of(line: &str) -> Row<'_> {
    let mut cells = line.split('|').skip(1);
    Row {
        name: said(cells.next()),
        code: said(cells.next()),
        line: said(cells.next()),
    }
}

/// The rows of the table whose header begins so.
pub(crate) fn rows_of<'a>(
    alloc: Global,
    text: &'a str,
    header: &str,
) -> Result<Vec<Row<'a>>, NoMemory> {
    let mut rows = Vec::new(alloc);
    let table = text
        .lines()
        .skip_while(|line| !line.starts_with(header))
        .skip(2);
    for line in table.take_while(|line| line.starts_with('|')) {
        rows.push(row_of(line))?;
    }
    Ok(rows)
}

//! The problem of a year's three texts, and what is tried with it.

ghost use Rattle.sut_tables.specs.Problems.{IsTableOf};

use crate::calls::{change_as_said, lists_hold, values_hold};
use std::alloc::Global;
use sut_classes::{Classes, read_classes};
use sut_gdp::{Gdp, gdp};
use sut_measures::{Cell, Measure, Total, read_name};
use sut_settings::{Settings, read_settings};
use sut_source::read_source;
use sut_tables::{Broken, Problem, Table, cost, first_open, value};

pub(crate) const FLAT: &str = "scheme = \"flat\"\n";

/// One product, one industry, one final use, one item.
pub(crate) const SMALL: &str = "axis,code,kind\nproduct,X,plain\nindustry,A,\nfinal,F,\nitem,V,\n";

/// How a table fares: its first break, or what it costs where it is admissible.
#[derive(Debug, Clone, Copy, PartialEq, Eq)]
pub(crate) enum Outcome {
    Open(Broken),
    Costs(u128),
}

/// The files of a year, the numbers of a table of it, a line `kind,a,b,c,number` for each cell, and what is to be found of
/// this table: its outcome, its GDP three ways and some of its totals.
#[derive(Clone, Copy)]
pub(crate) struct Case {
    pub settings: &'static str,
    pub classes: &'static str,
    pub source: &'static str,
    pub numbers: &'static str,
    pub outcome: Outcome,
    pub gdp: Gdp,
    pub totals: &'static [(Total, i128)],
}

/// What is tried with a problem.
#[derive(Clone, Copy)]
pub(crate) enum Trial<'a> {
    /// That the table of the case fares as it says.
    Table(&'a Case),
    /// The live measures and accounts, and the table of zeros.
    Lists,
    /// The values of the live measures over the table of these numbers.
    Values(&'a str),
    /// Rows added, replaced and removed.
    Changes,
}

/// One number three ways.
pub(crate) const fn one(number: i128) -> Gdp {
    Gdp {
        production: number,
        income: number,
        expenditure: number,
    }
}

// The cell and the number of a line.
fn entry(classes: &Classes, line: &str) -> Option<(Cell, i64)> {
    let (kind, rest) = line.split_once(',')?;
    let (a, rest) = rest.split_once(',')?;
    let (b, rest) = rest.split_once(',')?;
    let (c, number) = rest.split_once(',')?;
    let number = number.parse::<i64>().ok()?;
    match read_name(
        classes,
        kind.as_bytes(),
        a.as_bytes(),
        b.as_bytes(),
        c.as_bytes(),
    ) {
        Ok(Measure::Cell(cell)) => Some((cell, number)),
        _ => None,
    }
}

// Puts a number into a table; false where it is too large, or the table has no such cell.
fn put_number(problem: &Problem, table: &mut Table, cell: Cell, number: i64) -> bool
    requires { IsTableOf problem.now table.old }
    ensures { IsTableOf problem.now table.new }
{
    if number < -1_000_000_000_000 || 1_000_000_000_000 < number {
        return false;
    }
    table.put(cell, number)
}

fn put_line(problem: &Problem, table: &mut Table, line: &str) -> bool
    requires { IsTableOf problem.now table.old }
    ensures { IsTableOf problem.now table.new }
{
    match entry(problem.classes(), line) {
        Some((cell, number)) => put_number(problem, table, cell, number),
        None => false,
    }
}

/// Puts the numbers of all lines into a table; whether each has its cell.
pub(crate) fn put_all(problem: &Problem, table: &mut Table, numbers: &str) -> bool
    requires { IsTableOf problem.now table.old }
    ensures { IsTableOf problem.now table.new }
{
    let mut all = true;
    for line in numbers.lines() {
        all = put_line(problem, table, line) && all;
    }
    all
}

fn outcome_of(problem: &Problem, table: &Table) -> Outcome
    requires { IsTableOf problem.now table.now }
{
    match first_open(problem, table) {
        Some(broken) => Outcome::Open(broken),
        None => Outcome::Costs(cost(problem, table)),
    }
}

fn has_totals(table: &Table, totals: &[(Total, i128)]) -> bool {
    totals.iter().all(|(total, number)| value(table, Measure::Total(*total)) == *number)
}

fn fares(problem: &Problem, table: &Table, case: &Case) -> bool
    requires { IsTableOf problem.now table.now }
{
    outcome_of(problem, table) == case.outcome
        && gdp(table) == case.gdp
        && has_totals(table, case.totals)
}

fn table_fares(alloc: Global, problem: &Problem, case: &Case) -> bool {
    match Table::zeros(alloc, problem) {
        Ok(mut table) => {
            put_all(problem, &mut table, case.numbers) && fares(problem, &table, case)
        }
        Err(_) => false,
    }
}

fn holds(alloc: Global, problem: &mut Problem, trial: Trial<'_>) -> bool {
    match trial {
        Trial::Table(case) => table_fares(alloc, problem, case),
        Trial::Lists => lists_hold(alloc, problem),
        Trial::Values(numbers) => values_hold(alloc, problem, numbers),
        Trial::Changes => change_as_said(problem),
    }
}

fn holds_under(
    alloc: Global,
    settings: &Settings,
    classes: Classes,
    source: &str,
    trial: Trial<'_>,
) -> bool {
    match read_source(alloc, settings, classes, source.as_bytes()) {
        Ok(mut problem) => holds(alloc, &mut problem, trial),
        Err(_) => false,
    }
}

fn holds_with(
    alloc: Global,
    settings: &Settings,
    classes: &str,
    source: &str,
    trial: Trial<'_>,
) -> bool {
    match read_classes(alloc, classes.as_bytes()) {
        Ok(classes) => holds_under(alloc, settings, classes, source, trial),
        Err(_) => false,
    }
}

/// Whether these texts have no fault and the trial with their problem ends as it says.
pub(crate) fn passes(
    alloc: Global,
    settings: &str,
    classes: &str,
    source: &str,
    trial: Trial<'_>,
) -> bool {
    match read_settings(alloc, settings.as_bytes()) {
        Ok(settings) => holds_with(alloc, &settings, classes, source, trial),
        Err(_) => false,
    }
}

/// Whether the table of a case is as the case says.
pub(crate) fn case_holds(alloc: Global, case: &Case) -> bool {
    passes(
        alloc,
        case.settings,
        case.classes,
        case.source,
        Trial::Table(case),
    )
}

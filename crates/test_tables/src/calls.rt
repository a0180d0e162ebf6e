//! The calls of a small year: live lists, values, and a row added, replaced and removed.

ghost use Rattle.sut_tables.specs.Problems.{IsTableOf};

use crate::years::{FLAT, SMALL, Trial, passes, put_all};
use std::alloc::Global;
use sut_classes::{Column, FinalId, IndustryId, ItemId, ProductId};
use sut_measures::{Account, Cell, Measure, Total, fits};
use sut_tables::{Held, Penalty, Problem, Row, Table, live, live_accounts, values};

const SOURCE: &str =
    "kind,a,b,c,target,grade,lower,upper\nmake,X,A,,100,,,\nbasic,X,F,,104,,,\nadded,V,A,,,,0,1000\n";

const NUMBERS: &str = "make,X,A,,102\nbasic,X,F,,102\nadded,V,A,,102\n";

const BOUGHT: Column = Column::Final(FinalId(0));

const MAKE: Cell = Cell::Make(ProductId(0), IndustryId(0));

const BASIC: Cell = Cell::Basic(ProductId(0), BOUGHT);

const ADDED: Cell = Cell::Added(ItemId(0), IndustryId(0));

const ZEROS: [Held; 3] = [
    Held {
        cell: MAKE,
        number: 0,
    },
    Held {
        cell: BASIC,
        number: 0,
    },
    Held {
        cell: ADDED,
        number: 0,
    },
];

const LIVE: [Measure; 10] = [
    Measure::Cell(MAKE),
    Measure::Cell(BASIC),
    Measure::Cell(ADDED),
    Measure::Total(Total::Purchase(ProductId(0), BOUGHT)),
    Measure::Total(Total::Supply(ProductId(0))),
    Measure::Total(Total::Output(IndustryId(0))),
    Measure::Total(Total::ValueAdded(IndustryId(0))),
    Measure::Total(Total::ItemTotal(ItemId(0))),
    Measure::Total(Total::FinalTotal(FinalId(0))),
    Measure::Total(Total::Gdp),
];

const ACCOUNTS: [Account; 10] = [
    Account::Supplied(ProductId(0)),
    Account::Used(ProductId(0)),
    Account::Bought(ProductId(0), BOUGHT),
    Account::Adding(IndustryId(0)),
    Account::Industry(IndustryId(0)),
    Account::Making(IndustryId(0)),
    Account::Final(FinalId(0)),
    Account::Item(ItemId(0)),
    Account::Spending,
    Account::Income,
];

const IMPORT: Measure = Measure::Cell(Cell::Import(ProductId(0)));

fn are_live(alloc: Global, problem: &Problem) -> bool {
    match live(alloc, problem) {
        Ok(found) => found.as_slice() == LIVE.as_slice(),
        Err(_) => false,
    }
}

fn are_live_accounts(alloc: Global, problem: &Problem) -> bool {
    match live_accounts(alloc, problem) {
        Ok(found) => found.as_slice() == ACCOUNTS.as_slice(),
        Err(_) => false,
    }
}

fn starts_at_zero(alloc: Global, problem: &Problem) -> bool {
    match Table::zeros(alloc, problem) {
        Ok(table) => table.cells() == ZEROS.as_slice(),
        Err(_) => false,
    }
}

/// Whether the live measures and accounts and the table of zeros are those of the small year.
pub(crate) fn lists_hold(alloc: Global, problem: &Problem) -> bool {
    are_live(alloc, problem) && are_live_accounts(alloc, problem) && starts_at_zero(alloc, problem)
}

#[test]
fn live_lists(rt: HostRuntime) {
    let holds = passes(rt.alloc(), FLAT, SMALL, SOURCE, Trial::Lists);
    assert!(rt; holds);
}

fn are_values(alloc: Global, problem: &Problem, table: &Table) -> bool
    requires { IsTableOf problem.now table.now }
{
    match values(alloc, problem, table) {
        Ok(found) => found.as_slice() == [102; 10].as_slice(),
        Err(_) => false,
    }
}

/// Whether each of ten live measures has the value 102 over the table of these numbers.
pub(crate) fn values_hold(alloc: Global, problem: &Problem, numbers: &str) -> bool {
    match Table::zeros(alloc, problem) {
        Ok(mut table) => {
            put_all(problem, &mut table, numbers) && are_values(alloc, problem, &table)
        }
        Err(_) => false,
    }
}

#[test]
fn values_of_live_measures(rt: HostRuntime) {
    let holds = passes(rt.alloc(), FLAT, SMALL, SOURCE, Trial::Values(NUMBERS));
    assert!(rt; holds);
}

/// A change of the import's row, whose target this is.
#[derive(Clone, Copy)]
enum Change {
    Add(i64),
    Replace(i64),
    Remove,
}

fn import(target: i64) -> Option<Row> {
    Row::new(IMPORT, Some(target), Penalty::Square, 0, 1, 0, 10)
}

fn add(problem: &mut Problem, target: i64) -> bool {
    match import(target) {
        Some(row) => fits(problem.classes(), row.measure()) && problem.add(row).is_ok(),
        None => false,
    }
}

fn replace(problem: &mut Problem, target: i64) -> bool {
    match import(target) {
        Some(row) => problem.replace(row),
        None => false,
    }
}

// Whether the change was made.
fn make_change(problem: &mut Problem, change: Change) -> bool {
    match change {
        Change::Add(target) => add(problem, target),
        Change::Replace(target) => replace(problem, target),
        Change::Remove => problem.remove(IMPORT).is_some(),
    }
}

fn target_after(problem: &Problem) -> Option<i64> {
    match problem.find(IMPORT) {
        Some(row) => row.target(),
        None => None,
    }
}

/// Changes, whether each is made, and the target afterwards.
const CHANGES: [(Change, bool, Option<i64>); 7] = [
    (Change::Replace(5), false, None),
    (Change::Remove, false, None),
    (Change::Add(5), true, Some(5)),
    (Change::Add(6), false, Some(5)),
    (Change::Replace(7), true, Some(7)),
    (Change::Remove, true, None),
    (Change::Add(-10), true, Some(-10)),
];

/// Whether each change is made as it is said.
pub(crate) fn change_as_said(problem: &mut Problem) -> bool {
    for (step, made, after) in &CHANGES {
        if make_change(problem, *step) != *made || target_after(problem) != *after {
            return false;
        }
    }
    true
}

#[test]
fn changes_of_a_row(rt: HostRuntime) {
    let holds = passes(rt.alloc(), FLAT, SMALL, SOURCE, Trial::Changes);
    assert!(rt; holds);
}

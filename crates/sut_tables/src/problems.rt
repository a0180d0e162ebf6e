//! A problem: classes, and rows in measure order.

ghost use Rattle.std.specs.Prelude.{◌≡◌, ◌↔◌, [], None, Err, false, IsTrue, IsSome, OnOk, OnErr};
ghost use Rattle.std.specs.Iterator.{YieldsFirstRef, item_count};
ghost use Rattle.std.specs.Option.{option_copied};
ghost use Rattle.std.specs.Map.{keys_of};
ghost use Rattle.sut_measures.specs.Fits.{fits};
ghost use Rattle.sut_tables.specs.Changes.{has_room, row_removed, row_replaced, with_row};
ghost use Rattle.sut_tables.specs.Problems.{row_at, live_accounts, live_measures};
ghost use Rattle.sut_tables.specs.ProblemRules.{IsKept};

use crate::live_tallies::LiveTallies;
use crate::rows::Row;
use crate::tally::Tally;
use std::alloc::Global;
use std::collections::BTreeMap;
use std::collections::btree_map::Values;
use std::marker::Model;
use sut_classes::Classes;
use sut_measures::{Account, Measure};

/// Why a row is not put in.
#[derive(Debug, Clone, Copy, PartialEq, Eq)]
pub enum AddFault {
    /// The measure has a row.
    There,
    /// There are as many rows of cells, or of totals, as a problem can have.
    Full,
    /// Memory ran out. Nothing changed.
    NoMemory,
}

/// Classes and rows, each measure with at most one row, which fits the classes: at most 131,072 rows of cells and 16,384 of
/// totals. Contracts see the rows in measure order.
pub struct Problem {
    classes: Classes,
    rows: BTreeMap<Measure, Row>,
    // how many of them are rows of cells, and of totals
    cells: usize,
    totals: usize,
    // of the measures that they make live, and of the ends of these
    live: LiveTallies,
}

impl Drop for Problem {
    fn drop(self) {
        let Problem {
            classes,
            rows,
            cells: _,
            totals: _,
            live,
        } = self;
        drop(classes);
        drop(rows);
        drop(live);
    }
}

impl Model for Problem {
    ghost use Rattle.sut_tables.specs.ProblemFacts.{ProblemFacts};

    ghost Value = { ProblemFacts };

    ghost use Rattle.sut_tables.specs.ProblemView.{problem_of, KeepsRows};

    ghost view = { problem_of };

    ghost invariant = { KeepsRows };
}

/// The rows of a problem, in measure order.
#[derive(Drop)]
pub struct Rows<'a> {
    rest: Values<'a, Measure, Row>,
}

impl<'a> Model for Rows<'a> {
    ghost use Rattle.std.specs.Prelude.{List};
    ghost use Rattle.sut_tables.specs.RowFacts.{RowFacts};

    ghost Value = { List RowFacts };

    ghost view = { λ r. r.rest };
}

impl<'a> Iterator for Rows<'a> {
    type Item = &'a Row;

    ghost next_gives = { YieldsFirstRef (λ r. r) };

    ghost remaining = { item_count (λ r. r) };

    fn next(&mut self) -> Option<&'a Row> {
        self.rest.next()
    }
}

impl Problem {
    /// Without rows.
    pub fn new(alloc: Global, classes: Classes) -> Problem
        ensures classes { result.classes ≡ classes }
        ensures rows { result.rows ≡ [] }
    {
        Problem {
            classes,
            rows: BTreeMap::new(alloc),
            cells: 0,
            totals: 0,
            live: LiveTallies::new(alloc),
        }
    }

    /// The classes whose codes the rows name.
    pub fn classes(&self) -> &Classes
        ensures { result.now ≡ self.now.classes }
    {
        &self.classes
    }

    /// The rows, in measure order.
    pub fn rows(&self) -> Rows<'_>
        ensures { result ≡ self.now.rows }
    {
        Rows {
            rest: self.rows.values(),
        }
    }

    /// The row of a measure, if it has one.
    pub fn find(&self, m: Measure) -> Option<&Row>
        ensures { option_copied result ≡ row_at self.now m }
    {
        self.rows.get(&m)
    }

    /// Whether another row of the measure's sort may be added: below 131,072 rows of cells, and 16,384 of totals.
    pub fn has_room(&self, m: Measure) -> bool
        ensures { result ≡ has_room self.now m }
    {
        match m {
            Measure::Cell(_) => self.cells < 131072,
            Measure::Total(_) => self.totals < 16384,
        }
    }

    /// What every problem keeps: its rows are those of a problem, and they are not too many. It does nothing.
    pub fn kept(&self)
        ensures { IsKept self.now }
    {
        let _ = &self.classes;
    }

    /// Adds a row, unless its measure has one or its sort is full. Nothing changes after a fault.
    pub fn add(&mut self, row: Row) -> Result<(), AddFault>
        requires { IsTrue (fits self.old.classes row.measure) }
        ensures ok { OnOk result (self.new ≡ with_row self.old row) }
        ensures fresh { OnOk result (row_at self.old row.measure ≡ None) }
        ensures room { OnOk result (IsTrue (has_room self.old row.measure)) }
        ensures kept { OnErr result (self.new ≡ self.old) }
        ensures there { result ≡ Err AddFault.There → IsSome (row_at self.old row.measure) }
        ensures full { result ≡ Err AddFault.Full → (row_at self.old row.measure ≡ None) × (has_room self.old row.measure ≡ false) }
        ensures no_memory { result ≡ Err AddFault.NoMemory → (row_at self.old row.measure ≡ None) × IsTrue (has_room self.old row.measure) }
    {
        let measure = row.measure();
        row.in_range();
        if self.find(measure).is_some() {
            return Err(AddFault::There);
        }
        if !self.has_room(measure) {
            return Err(AddFault::Full);
        }
        if self.live.raise(&self.classes, measure).is_err() {
            return Err(AddFault::NoMemory);
        }
        if self.rows.insert(measure, row).is_err() {
            self.live.lower(&self.classes, measure);
            return Err(AddFault::NoMemory);
        }
        match measure {
            Measure::Cell(_) => self.cells += 1,
            Measure::Total(_) => self.totals += 1,
        }
        Ok(())
    }

    /// Puts a row in the place of that of its measure. False comes exactly where the measure has no row, and then nothing
    /// changes.
    pub fn replace(&mut self, row: Row) -> bool
        ensures answer { IsTrue result ↔ IsSome (row_at self.old row.measure) }
        ensures after { self.new ≡ row_replaced self.old row }
        ensures refused { result ≡ false → self.new ≡ self.old }
    {
        row.in_range();
        let Some(place) = self.rows.get_mut(&row.measure()) else {
            return false;
        };
        *place = row;
        true
    }

    /// Takes out the row of a measure, if it has one.
    pub fn remove(&mut self, m: Measure) -> Option<Row>
        ensures answer { result ≡ row_at self.old m }
        ensures after { self.new ≡ row_removed self.old m }
    {
        let Some(row) = self.rows.remove(&m) else {
            return None;
        };
        self.live.lower(&self.classes, m);
        match m {
            Measure::Cell(_) => self.cells -= 1,
            Measure::Total(_) => self.totals -= 1,
        }
        Some(row)
    }

    // The live measures, in order, as the keys of a tally.
    pub(crate) fn live_measures(&self) -> &Tally<Measure>
        ensures { keys_of result.now ≡ live_measures self.now }
    {
        self.live.measures.kept();
        &self.live.measures
    }

    // The live accounts, in order, as the keys of a tally.
    pub(crate) fn live_accounts(&self) -> &Tally<Account>
        ensures { keys_of result.now ≡ live_accounts self.now }
    {
        self.live.accounts.kept();
        &self.live.accounts
    }
}

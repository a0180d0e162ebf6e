//! How often the rows of a problem make each measure live, and how many ends these measures have at each account.

ghost use Rattle.std.specs.Prelude.{◌≡◌, ◌≤◌, [], ◌∷◌, length, take, OnOk, OnErr};
ghost use Rattle.sut_classes.specs.Groups.{groups_of};
ghost use Rattle.sut_tables.specs.LiveTallies.{CountsLess, CountsMore, HasRoom};
ghost use Rattle.sut_tables.specs.Problems.{made_live};

use crate::made_live::MadeLive;
use crate::tally::Tally;
use no_memory::NoMemory;
use std::alloc::Global;
use sut_classes::Classes;
use sut_measures::{Account, Measure, ends};

pub(crate) struct LiveTallies {
    pub measures: Tally<Measure>,
    pub accounts: Tally<Account>,
}

impl Drop for LiveTallies {
    fn drop(self) {
        let LiveTallies { measures, accounts } = self;
        drop(measures);
        drop(accounts);
    }
}

impl LiveTallies {
    /// Of no row.
    pub fn new(alloc: Global) -> LiveTallies
        ensures measures { result.measures ≡ [] }
        ensures accounts { result.accounts ≡ [] }
    {
        LiveTallies {
            measures: Tally::new(alloc),
            accounts: Tally::new(alloc),
        }
    }

    // Counts a measure and its two ends once more. The counts are as before after want of memory.
    fn raise_one(&mut self, classes: &Classes, m: Measure) -> Result<(), NoMemory>
        requires { HasRoom 2 self.old }
        ensures ok { OnOk result (CountsMore (groups_of classes.now) self.old self.new (m ∷ [])) }
        ensures err { OnErr result (CountsMore (groups_of classes.now) self.old self.new []) }
    {
        let (left, entered) = ends(classes, m);
        self.measures.raise(m)?;
        if self.accounts.raise(left).is_err() {
            self.measures.lower(m);
            return Err(NoMemory);
        }
        if self.accounts.raise(entered).is_err() {
            self.accounts.lower(left);
            self.measures.lower(m);
            return Err(NoMemory);
        }
        Ok(())
    }

    // Counts a measure and its two ends once less.
    fn lower_one(&mut self, classes: &Classes, m: Measure)
        ensures { CountsLess (groups_of classes.now) self.old self.new (m ∷ []) }
    {
        let (left, entered) = ends(classes, m);
        self.accounts.lower(left);
        self.accounts.lower(entered);
        self.measures.lower(m);
    }

    // Counts the first n of these measures, and their ends, once less.
    fn lower_first(&mut self, classes: &Classes, made: &MadeLive, n: usize)
        ensures { CountsLess (groups_of classes.now) self.old self.new (take n made.now) }
    {
        for k in 0..n {
            if let Some(m) = made.get(k) {
                self.lower_one(classes, m);
            }
        }
    }

    /// Counts what a row of a measure makes live, and its ends, once more. The counts are as before after want of memory.
    pub fn raise(&mut self, classes: &Classes, m: Measure) -> Result<(), NoMemory>
        requires { HasRoom 18 self.old }
        ensures ok { OnOk result (CountsMore (groups_of classes.now) self.old self.new (made_live (groups_of classes.now) m)) }
        ensures err { OnErr result (CountsMore (groups_of classes.now) self.old self.new []) }
    {
        let made = MadeLive::of(classes, m);
        let mut k = 0;
        while let Some(n) = made.get(k) {
            if self.raise_one(classes, n).is_err() {
                self.lower_first(classes, &made, k);
                return Err(NoMemory);
            }
            k += 1;
        }
        Ok(())
    }

    /// Counts what a row of a measure makes live, and its ends, once less.
    pub fn lower(&mut self, classes: &Classes, m: Measure)
        ensures { CountsLess (groups_of classes.now) self.old self.new (made_live (groups_of classes.now) m) }
    {
        let made = MadeLive::of(classes, m);
        self.lower_first(classes, &made, MOST_MADE);
    }
}

// A cell stands in at most 8 totals' sums.
const MOST_MADE: usize = 9;

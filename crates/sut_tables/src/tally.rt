//! Keys in order, each with how often it is counted.

ghost use Rattle.std.specs.Prelude.{◌≡◌, ◌+◌, ◌-◌, ◌<◌, ◌^◌, [], ◌∷◌, None, Some, IfOk, OnOk, OnErr};
ghost use Rattle.std.specs.List.Sorted.{IsStrictlySortedBy};
ghost use Rattle.std.specs.Map.{keys_of};
ghost use Rattle.sut_tables.specs.Tallies.{count_of, times_in, AllCounted, key_above};

use no_memory::NoMemory;
use std::alloc::Global;
use std::collections::BTreeMap;
use std::marker::Model;
use std::ops::Bound;

// A key that is counted no more leaves the map.
#[derive(Drop)]
pub(crate) struct Tally<K: Ord> {
    counts: BTreeMap<K, u32>,
}

impl<K: Ord> Model for Tally<K> {
    ghost use Rattle.std.specs.Prelude.{List, ℕ};
    ghost use Rattle.sut_tables.specs.Tallies.{AllCounted};

    ghost Value = { List (K × ℕ) };

    ghost view = { λ t. t.counts.entries };

    ghost invariant = { λ t. AllCounted t.counts.entries };
}

impl<K: Ord + Copy> Tally<K> {
    /// Without keys.
    pub fn new(alloc: Global) -> Tally<K>
        ensures { result ≡ [] }
    {
        Tally {
            counts: BTreeMap::new(alloc),
        }
    }

    /// Counts a key once more. Nothing changes after want of memory.
    pub fn raise(&mut self, k: K) -> Result<(), NoMemory>
        requires { count_of K.cmp self.old k + 1 < 2 ^ 32 }
        ensures ok { OnOk result ((q : K) → count_of K.cmp self.new q ≡ count_of K.cmp self.old q + times_in K.cmp (k ∷ []) q) }
        ensures err { OnErr result (self.new ≡ self.old) }
    {
        if let Some(n) = self.counts.get_mut(&k) {
            *n += 1;
            return Ok(());
        }
        self.counts.insert(k, 1)?;
        Ok(())
    }

    /// Counts a key once less.
    pub fn lower(&mut self, k: K)
        ensures { (q : K) → count_of K.cmp self.new q ≡ count_of K.cmp self.old q - times_in K.cmp (k ∷ []) q }
    {
        if let Some(n) = self.counts.get_mut(&k) {
            if *n > 1 {
                *n -= 1;
                return;
            }
        }
        self.counts.remove(&k);
    }

    fn first(&self) -> Option<K>
        ensures { result ≡ key_above K.cmp None (keys_of self.now) }
    {
        match self.counts.first_key_value() {
            Some((first, _)) => Some(*first),
            None => None,
        }
    }

    fn first_above(&self, k: K) -> Option<K>
        ensures { result ≡ key_above K.cmp (Some k) (keys_of self.now) }
    {
        let above = (Bound::Excluded(&k), Bound::Unbounded);
        match self.counts.range(above).next() {
            Some((first, _)) => Some(*first),
            None => None,
        }
    }

    /// The first key, or the first one above another.
    pub fn next_above(&self, after: Option<K>) -> Option<K>
        ensures { result ≡ key_above K.cmp after (keys_of self.now) }
    {
        match after {
            Some(k) => self.first_above(k),
            None => self.first(),
        }
    }

    /// The keys, in order.
    pub fn list(&self, alloc: Global) -> Result<Vec<K>, NoMemory>
        ensures { IfOk result (λ v. v.items ≡ keys_of self.now) }
    {
        Ok(self.counts.keys().copied().collect(alloc)?)
    }

    /// Every tally is in order, and counts each key that it has. It does nothing.
    pub fn kept(&self)
        ensures ordered { IsStrictlySortedBy K.cmp (keys_of self.now) }
        ensures counted { AllCounted self.now }
    {
        self.counts.len();
    }
}

//! The codes of one axis, in the order of the file.

ghost use Rattle.std.specs.Prelude.{◌≡◌, ◌≤◌, ◌<◌, ◌++◌, ◌∷◌, [], None, IfOk, OnOk, OnErr, length, position, slice_get, option_map};
ghost use Rattle.std.specs.Str.{bytes_eq};

use indexmap::IndexSet;
use no_memory::NoMemory;
use std::alloc::{AllocError, Global};
use std::marker::Model;

/// Distinct codes in order, at most 512. Contracts see their list.
pub struct Codes {
    set: IndexSet<Vec<u8>>,
}

impl Drop for Codes {
    fn drop(self) {
        let Codes { set } = self;
        drop(set);
    }
}

impl Model for Codes {
    ghost use Rattle.std.specs.Prelude.{List, map, ◌≤◌, length};
    ghost use Rattle.sut_classes.specs.ClassLists.{Code};

    ghost Value = { List Code };

    ghost view = { λ c. map (λ v. v.items) c.set.keys };

    ghost invariant = { λ c. length c.set.keys ≤ 512 };
}

impl Codes {
    /// No codes.
    pub fn new(alloc: Global) -> Codes
        ensures { result ≡ [] }
    {
        Codes {
            set: IndexSet::new(alloc),
        }
    }

    /// How many codes there are.
    pub fn len(&self) -> usize
        ensures len { result ≡ length self.now }
        ensures limit { result ≤ 512 }
    {
        self.set.len()
    }

    /// The place of a code, from 0; none where it isn't there.
    pub fn find(&self, code: &[u8]) -> Option<u16>
        ensures { result ≡ position (bytes_eq code.now) self.now }
    {
        match self.set.get_index_of(code) {
            Some(place) => Some(place as u16),
            None => None,
        }
    }

    /// The code at a place, from 0; none where the place isn't there.
    pub fn get(&self, place: u16) -> Option<&[u8]>
        ensures { option_map (λ c. c.now) result ≡ slice_get self.now place }
    {
        match self.set.get_index(place as usize) {
            Some(code) => Some(code.as_slice()),
            None => None,
        }
    }

    /// Adds a code that is not there, at the end. After want of memory the codes are as before.
    pub fn push(&mut self, code: Vec<u8>) -> Result<(), AllocError>
        requires absent { position (bytes_eq code.items) self.old ≡ None }
        requires room { length self.old < 512 }
        ensures ok { OnOk result (self.new ≡ self.old ++ code.items ∷ []) }
        ensures err { OnErr result (self.new ≡ self.old) }
    {
        if self.set.insert_full(code).is_err() {
            return Err(AllocError);
        }
        Ok(())
    }

    /// The same codes, under the same allocator.
    pub fn copy(&self) -> Result<Codes, NoMemory>
        ensures { IfOk result (λ c. c ≡ self.now) }
    {
        let alloc = *self.set.allocator();
        let mut codes = Codes::new(alloc);
        for code in self.set.as_slice() {
            codes.push(Vec::from_slice(alloc, code)?)?;
        }
        Ok(codes)
    }
}

//! Shelves in memory.
ghost use Rattle.std.specs.Prelude.{◌≡◌, ◌≢◌, ◌↔◌, ◌⊎◌, ◌+◌, ◌-◌, ◌^◌, ◌≤◌, ◌<◌, ◌++◌, [], min, take, length, Contains, Some, None, IfSome, IfOk, OnOk, OnErr, IsErrOf, IsTrue, MatchOption, vec_len, vec_capacity};
ghost use Rattle.sut_outside.specs.declared.shelf.ShelfError.TheVariants.{Failed};
ghost use Rattle.sut_outside.specs.Files.{SameFiles, SameOtherFiles, Reads, Writes, Told};
ghost use Rattle.sut_outside.specs.Causes.{HasCause, NamesFault, OneMore};
ghost use Rattle.sut_outside.specs.Stored.{stored};
ghost use Rattle.sut_outside.specs.Numbered.{FailsNext};
ghost use Rattle.sut_outside.specs.Memory.{TornGrows, failing_calls, calls_made, torn_length, torn};

use crate::stored::{copy_in, copy_out, show};
use crate::{FileName, Shelf, ShelfError};
use no_memory::NoMemory;
use std::alloc::Global;
use std::collections::HashMap;

/// A shelf in memory that fails those of its reads and writes that have the listed numbers, counted together from 1. Each
/// failure is one more fault, up to 2^64 - 1, and nothing else is.
pub struct MemoryShelf {
    alloc: Global,
    files: HashMap<FileName, Vec<u8>>,
    fail: Vec<u64>,
    keep: Option<usize>,
    calls: u64,
    faults: u64,
    last_failed: Option<FileName>,
}

impl Drop for MemoryShelf {
    fn drop(self) {
        let MemoryShelf {
            alloc: _,
            files,
            fail,
            keep: _,
            calls: _,
            faults: _,
            last_failed: _,
        } = self;
        drop(files);
        drop(fail);
    }
}

// Counts a call, and tells whether it fails.
pub(crate) fn fails_next(fail: &[u64], calls: &mut u64) -> bool
    ensures fails { IsTrue result ↔ FailsNext fail.now calls.old }
    ensures counted { calls.new ≡ min (calls.old + 1) (2 ^ 64 - 1) }
{
    if *calls == u64::MAX {
        return false;
    }
    *calls += 1;
    fail.contains(calls)
}

impl MemoryShelf {
    /// An empty shelf. A failing write leaves the file as it was.
    pub fn new(alloc: Global, fail: Vec<u64>) -> MemoryShelf
        ensures empty { ⟦<MemoryShelf as Shelf>⟧.files result ≡ Some (λ _. None) }
        ensures faults { ⟦<MemoryShelf as Shelf>⟧.faults result ≡ 0 }
        ensures last { ⟦<MemoryShelf as Shelf>⟧.last_failed result ≡ None }
        ensures fail { failing_calls result ≡ fail.items }
        ensures calls { calls_made result ≡ 0 }
        ensures keep { torn_length result ≡ None }
    {
        MemoryShelf {
            alloc,
            files: HashMap::new(alloc),
            fail,
            keep: None,
            calls: 0,
            faults: 0,
            last_failed: None,
        }
    }

    /// An empty shelf. A failing write leaves under the name the first `keep` bytes, or all where there are fewer.
    pub fn torn(alloc: Global, fail: Vec<u64>, keep: usize) -> MemoryShelf
        ensures empty { ⟦<MemoryShelf as Shelf>⟧.files result ≡ Some (λ _. None) }
        ensures faults { ⟦<MemoryShelf as Shelf>⟧.faults result ≡ 0 }
        ensures last { ⟦<MemoryShelf as Shelf>⟧.last_failed result ≡ None }
        ensures fail { failing_calls result ≡ fail.items }
        ensures calls { calls_made result ≡ 0 }
        ensures keep { torn_length result ≡ Some keep }
    {
        MemoryShelf {
            alloc,
            files: HashMap::new(alloc),
            fail,
            keep: Some(keep),
            calls: 0,
            faults: 0,
            last_failed: None,
        }
    }

    /// The bytes under a name.
    pub fn file(&self, name: FileName) -> Option<&[u8]>
        ensures { IfSome (⟦<MemoryShelf as Shelf>⟧.files self.now) (λ files. MatchOption result (files name ≡ None) (λ bytes. files name ≡ Some bytes.now)) }
    {
        show(&self.files, name)
    }

    /// Sets a file, and is no counted call. After want of memory all is as before.
    pub fn place(&mut self, name: FileName, bytes: &[u8]) -> Result<(), NoMemory>
        ensures ok { OnOk result (Told (⟦<MemoryShelf as Shelf>⟧.files self.old) (⟦<MemoryShelf as Shelf>⟧.files self.new) (λ old new. (new name ≡ Some bytes.now) × SameOtherFiles name old new)) }
        ensures err { OnErr result (Told (⟦<MemoryShelf as Shelf>⟧.files self.old) (⟦<MemoryShelf as Shelf>⟧.files self.new) SameFiles) }
        ensures calls { calls_made self.new ≡ calls_made self.old }
        ensures faults { ⟦<MemoryShelf as Shelf>⟧.faults self.new ≡ ⟦<MemoryShelf as Shelf>⟧.faults self.old }
        ensures last { ⟦<MemoryShelf as Shelf>⟧.last_failed self.new ≡ ⟦<MemoryShelf as Shelf>⟧.last_failed self.old }
        ensures fail { failing_calls self.new ≡ failing_calls self.old }
        ensures keep { torn_length self.new ≡ torn_length self.old }
    {
        copy_in(self.alloc, &mut self.files, name, bytes)
    }
}

impl Shelf for MemoryShelf {
    ghost files = { λ shelf. Some (stored ⟦<FileName as PartialEq>⟧.eq shelf.files) };

    ghost last_failed = { λ shelf. shelf.last_failed };

    ghost faults = { λ shelf. shelf.faults };

    /// Fails exactly where this call has a listed number.
    fn read(&mut self, name: FileName) -> Result<Vec<u8>, ShelfError>
        ensures kept { Told (⟦<MemoryShelf as Shelf>⟧.files self.old) (⟦<MemoryShelf as Shelf>⟧.files self.new) SameFiles }
        ensures answer { IfSome (⟦<MemoryShelf as Shelf>⟧.files self.old) (λ files. Reads files name result) }
        ensures cause { HasCause (⟦<MemoryShelf as Shelf>⟧.faults self.old) (⟦<MemoryShelf as Shelf>⟧.faults self.new) result Failed }
        ensures named { NamesFault name result (⟦<MemoryShelf as Shelf>⟧.last_failed self.old) (⟦<MemoryShelf as Shelf>⟧.last_failed self.new) }
        ensures fails { IsErrOf result ShelfError.Failed ↔ FailsNext (failing_calls self.old) (calls_made self.old) }
        ensures counted { calls_made self.new ≡ min (calls_made self.old + 1) (2 ^ 64 - 1) }
        ensures count { IsErrOf result ShelfError.Failed → OneMore (⟦<MemoryShelf as Shelf>⟧.faults self.old) (⟦<MemoryShelf as Shelf>⟧.faults self.new) }
        ensures fail { failing_calls self.new ≡ failing_calls self.old }
        ensures keep { torn_length self.new ≡ torn_length self.old }
    {
        if fails_next(&self.fail, &mut self.calls) {
            self.faults = self.faults.saturating_add(1);
            self.last_failed = Some(name);
            return Err(ShelfError::Failed);
        }
        copy_out(self.alloc, &self.files, name)
    }

    /// Fails only where this call has a listed number. Such a call never succeeds, and answers want of memory, which is no fault,
    /// only where it leaves some bytes under the name or adds the name.
    fn write(&mut self, name: FileName, bytes: &[u8]) -> Result<(), ShelfError>
        ensures written { Told (⟦<MemoryShelf as Shelf>⟧.files self.old) (⟦<MemoryShelf as Shelf>⟧.files self.new) (Writes name bytes.now result) }
        ensures missing { result ≢ Err ShelfError.Missing }
        ensures too_long { result ≢ Err ShelfError.TooLong }
        ensures cause { HasCause (⟦<MemoryShelf as Shelf>⟧.faults self.old) (⟦<MemoryShelf as Shelf>⟧.faults self.new) result Failed }
        ensures named { NamesFault name result (⟦<MemoryShelf as Shelf>⟧.last_failed self.old) (⟦<MemoryShelf as Shelf>⟧.last_failed self.new) }
        ensures fails { IsErrOf result ShelfError.Failed → FailsNext (failing_calls self.old) (calls_made self.old) }
        ensures succeeds { OnOk result (¬ FailsNext (failing_calls self.old) (calls_made self.old)) }
        ensures exact { torn_length self.old ≡ None → (IsErrOf result ShelfError.Failed ↔ FailsNext (failing_calls self.old) (calls_made self.old)) }
        ensures stops { FailsNext (failing_calls self.old) (calls_made self.old) → IsErrOf result ShelfError.Failed ⊎ IsErrOf result ShelfError.NoMemory }
        ensures wants { IsErrOf result ShelfError.NoMemory → FailsNext (failing_calls self.old) (calls_made self.old) → IfSome (⟦<MemoryShelf as Shelf>⟧.files self.old) (λ files. TornGrows (torn_length self.old) bytes.now (files name)) }
        ensures left { IsErrOf result ShelfError.Failed → Told (⟦<MemoryShelf as Shelf>⟧.files self.old) (⟦<MemoryShelf as Shelf>⟧.files self.new) (λ old new. new name ≡ torn (torn_length self.old) bytes.now (old name)) }
        ensures counted { calls_made self.new ≡ min (calls_made self.old + 1) (2 ^ 64 - 1) }
        ensures count { IsErrOf result ShelfError.Failed → OneMore (⟦<MemoryShelf as Shelf>⟧.faults self.old) (⟦<MemoryShelf as Shelf>⟧.faults self.new) }
        ensures fail { failing_calls self.new ≡ failing_calls self.old }
        ensures keep { torn_length self.new ≡ torn_length self.old }
    {
        if fails_next(&self.fail, &mut self.calls) {
            if let Some(keep) = self.keep {
                let part = &bytes[..keep.min(bytes.len())];
                if copy_in(self.alloc, &mut self.files, name, part).is_err() {
                    return Err(ShelfError::NoMemory);
                }
            }
            self.faults = self.faults.saturating_add(1);
            self.last_failed = Some(name);
            return Err(ShelfError::Failed);
        }
        match copy_in(self.alloc, &mut self.files, name, bytes) {
            Ok(()) => Ok(()),
            Err(NoMemory) => Err(ShelfError::NoMemory),
        }
    }
}

/// A shelf in memory that never fails.
pub struct SteadyShelf {
    alloc: Global,
    files: HashMap<FileName, Vec<u8>>,
}

impl Drop for SteadyShelf {
    fn drop(self) {
        let SteadyShelf { alloc: _, files } = self;
        drop(files);
    }
}

impl SteadyShelf {
    /// Without files.
    pub fn new(alloc: Global) -> SteadyShelf
        ensures empty { ⟦<SteadyShelf as Shelf>⟧.files result ≡ Some (λ _. None) }
    {
        SteadyShelf {
            alloc,
            files: HashMap::new(alloc),
        }
    }

    /// The bytes under a name.
    pub fn file(&self, name: FileName) -> Option<&[u8]>
        ensures { IfSome (⟦<SteadyShelf as Shelf>⟧.files self.now) (λ files. MatchOption result (files name ≡ None) (λ bytes. files name ≡ Some bytes.now)) }
    {
        show(&self.files, name)
    }

    /// Sets a file, and is no counted call. After want of memory all is as before.
    pub fn place(&mut self, name: FileName, bytes: &[u8]) -> Result<(), NoMemory>
        ensures ok { OnOk result (Told (⟦<SteadyShelf as Shelf>⟧.files self.old) (⟦<SteadyShelf as Shelf>⟧.files self.new) (λ old new. (new name ≡ Some bytes.now) × SameOtherFiles name old new)) }
        ensures err { OnErr result (Told (⟦<SteadyShelf as Shelf>⟧.files self.old) (⟦<SteadyShelf as Shelf>⟧.files self.new) SameFiles) }
    {
        copy_in(self.alloc, &mut self.files, name, bytes)
    }
}

impl Shelf for SteadyShelf {
    ghost files = { λ shelf. Some (stored ⟦<FileName as PartialEq>⟧.eq shelf.files) };

    ghost last_failed = { λ _. None };

    ghost faults = { λ _. 0 };

    fn read(&mut self, name: FileName) -> Result<Vec<u8>, ShelfError> {
        copy_out(self.alloc, &self.files, name)
    }

    fn write(&mut self, name: FileName, bytes: &[u8]) -> Result<(), ShelfError> {
        match copy_in(self.alloc, &mut self.files, name, bytes) {
            Ok(()) => Ok(()),
            Err(NoMemory) => Err(ShelfError::NoMemory),
        }
    }
}

//! A sink in memory.
ghost use Rattle.std.specs.Prelude.{◌≡◌, ◌≢◌, ◌⊎◌, ◌+◌, ◌-◌, ◌^◌, ◌≤◌, ◌<◌, ◌++◌, [], min, take, length, Some, IfOk, OnOk, IsErrOf, IsTrue, ◌↔◌, vec_len, vec_capacity};
ghost use Rattle.sut_outside.specs.declared.shelf.SinkError.TheVariants.{Failed};
ghost use Rattle.sut_outside.specs.Files.{Told};
ghost use Rattle.sut_outside.specs.Causes.{HasCause, OneMore};
ghost use Rattle.sut_outside.specs.Sent.{Puts, AppendsPart};
ghost use Rattle.sut_outside.specs.Numbered.{FailsNext};

use crate::memory::fails_next;
use crate::{Sink, SinkError};
use no_memory::NoMemory;
use std::alloc::Global;

// Appends as much of the piece as there is room for, and tells whether that is all of it.
#[tactic(auto, using(crate::proofs::Parts::appended_parts))]
fn append_within(text: &mut Vec<u8>, room: usize, piece: &[u8]) -> bool
    requires { room ≤ vec_capacity text.old }
    ensures whole { IsTrue result → text.new.items ≡ text.old.items ++ piece.now }
    ensures fits { IsTrue result ↔ (vec_len text.old + length piece.now ≤ room) }
    ensures part { AppendsPart piece.now text.old.items text.new.items }
    ensures front { text.new.items ≡ text.old.items ++ take (room - vec_len text.old) piece.now }
    ensures reserved { room ≤ vec_capacity text.new }
{
    let left = room.saturating_sub(text.len());
    let count = piece.len().min(left);
    text.extend_from_slice(&piece[..count]).is_ok() && count == piece.len() && text.len() <= room
}

/// A sink in memory that takes `room` bytes and fails the listed puts, counted from 1. Each failure is one more fault, up to
/// 2^64 - 1, and nothing else is.
pub struct MemorySink {
    text: Vec<u8>,
    room: usize,
    fail: Vec<u64>,
    calls: u64,
    faults: u64,
    ghost reserved: { room ≤ vec_capacity text },
}

impl Drop for MemorySink {
    fn drop(self) {
        let MemorySink {
            text,
            room: _,
            fail,
            calls: _,
            faults: _,
        } = self;
        drop(text);
        drop(fail);
    }
}

impl MemorySink {
    ghost use Rattle.sut_outside.specs.MemorySink.{failing_puts, puts_made, sent_bytes, sink_room};

    /// Reserves the room at once.
    pub fn new(alloc: Global, room: usize, fail: Vec<u64>) -> Result<MemorySink, NoMemory>
        ensures empty { IfOk result (λ sink. sent_bytes sink ≡ []) }
        ensures room { IfOk result (λ sink. sink_room sink ≡ room) }
        ensures fail { IfOk result (λ sink. failing_puts sink ≡ fail.items) }
        ensures puts { IfOk result (λ sink. puts_made sink ≡ 0) }
        ensures faults { IfOk result (λ sink. ⟦<MemorySink as Sink>⟧.faults sink ≡ 0) }
    {
        Ok(MemorySink {
            text: Vec::with_capacity(alloc, room)?,
            room,
            fail,
            calls: 0,
            faults: 0,
        })
    }

    /// The bytes that went out.
    pub fn text(&self) -> &[u8]
        ensures { Some result.now ≡ ⟦<MemorySink as Sink>⟧.sent self.now }
    {
        &self.text
    }
}

impl Sink for MemorySink {
    ghost use Rattle.sut_outside.specs.MemorySink.{failing_puts, puts_made, sent_bytes, sink_room};

    ghost sent = { λ sink. Some sink.text.items };

    ghost faults = { λ sink. sink.faults };

    /// Fails exactly where this put has a listed number, or the piece doesn't fit whole.
    #[tactic(auto, using(crate::proofs::Parts::appended_parts))]
    fn put(&mut self, piece: &[u8]) -> Result<(), SinkError>
        ensures sent { Told (⟦<MemorySink as Sink>⟧.sent self.old) (⟦<MemorySink as Sink>⟧.sent self.new) (Puts piece.now result) }
        ensures cause { HasCause (⟦<MemorySink as Sink>⟧.faults self.old) (⟦<MemorySink as Sink>⟧.faults self.new) result Failed }
        ensures fails { IsErrOf result SinkError.Failed → FailsNext (failing_puts self.old) (puts_made self.old) ⊎ (sink_room self.old < length (sent_bytes self.old) + length piece.now) }
        ensures succeeds { OnOk result ((¬ FailsNext (failing_puts self.old) (puts_made self.old)) × (length (sent_bytes self.old) + length piece.now ≤ sink_room self.old)) }
        ensures exact { IsErrOf result SinkError.Failed ↔ (FailsNext (failing_puts self.old) (puts_made self.old) ⊎ (sink_room self.old < length (sent_bytes self.old) + length piece.now)) }
        ensures left { IsErrOf result SinkError.Failed → (FailsNext (failing_puts self.old) (puts_made self.old) × (sent_bytes self.new ≡ sent_bytes self.old)) ⊎ (sent_bytes self.new ≡ sent_bytes self.old ++ take (sink_room self.old - length (sent_bytes self.old)) piece.now) }
        ensures counted { puts_made self.new ≡ min (puts_made self.old + 1) (2 ^ 64 - 1) }
        ensures count { IsErrOf result SinkError.Failed → OneMore (⟦<MemorySink as Sink>⟧.faults self.old) (⟦<MemorySink as Sink>⟧.faults self.new) }
        ensures room { sink_room self.new ≡ sink_room self.old }
        ensures fail { failing_puts self.new ≡ failing_puts self.old }
    {
        if fails_next(&self.fail, &mut self.calls) {
            self.faults = self.faults.saturating_add(1);
            return Err(SinkError::Failed);
        }
        if append_within(&mut self.text, self.room, piece) {
            return Ok(());
        }
        self.faults = self.faults.saturating_add(1);
        Err(SinkError::Failed)
    }
}

//! A sink in memory.

ghost use Rattle.std.specs.Prelude.{◌≡◌, ◌<◌, [], Some, IfOk, vec_capacity};
ghost use Rattle.edge_traits.specs.Scripts.{IsFresh};

use crate::script::Script;
use crate::sink::Sink;
use crate::{Failed, room};
use std::alloc::{AllocError, Global};

/// A sink that keeps all it is written, in room that was reserved when it was made.
///
/// A call past its room is a fault, and so is each call that its script names. A failed call takes nothing.
#[derive(Drop)]
pub struct MemSink {
    /// All bytes taken so far. Their capacity is the room.
    pub bytes: Vec<u8>,
    /// The most bytes that one call takes.
    pub most: usize,
    /// Which calls fail.
    pub script: Script,
}

impl MemSink {
    /// A sink with room for `room` bytes that takes at most `most` bytes a call, and fails at the calls numbered in
    /// `fails`, from 1.
    pub fn new(
        alloc: Global,
        room: usize,
        most: usize,
        fails: &[u64],
    ) -> Result<MemSink, AllocError>
        ensures empty { IfOk result (λ sink. ⟦<MemSink as Sink>⟧.written sink ≡ Some []) }
        ensures faults { IfOk result (λ sink. ⟦<MemSink as Sink>⟧.faults sink ≡ 0) }
        ensures room { IfOk result (λ sink. vec_capacity sink.bytes ≡ room) }
        ensures most { IfOk result (λ sink. sink.most ≡ most) }
        ensures script { IfOk result (λ sink. IsFresh fails.now sink.script) }
    {
        Ok(MemSink {
            bytes: Vec::with_capacity(alloc, room)?,
            most,
            script: Script::new(alloc, fails)?,
        })
    }

    /// All bytes taken so far.
    pub fn bytes(&self) -> &[u8]
        ensures { ⟦<MemSink as Sink>⟧.written self.now ≡ Some result.now }
    {
        &self.bytes
    }

    /// The count of failed writes.
    pub fn faults(&self) -> u64
        ensures { result ≡ ⟦<MemSink as Sink>⟧.faults self.now }
    {
        self.script.faults
    }
}

impl Sink for MemSink {
    ghost written = { λ sink. Some sink.bytes.items };

    ghost faults = { λ sink. sink.script.faults };

    fn write(&mut self, bytes: &[u8]) -> Result<usize, Failed> {
        self.script.begin()?;
        let count = bytes.len().min(self.most);
        if !room::has_room(&self.bytes, count) || (count == 0 && !bytes.is_empty()) {
            return Err(self.script.fault());
        }
        room::add(&mut self.bytes, &bytes[..count]);
        Ok(count)
    }
}

// Output that is taken in memory.
ghost use Rattle.std.specs.Prelude.{◌≡◌, ◌+◌, ◌≤◌, ◌↔◌, [], ◌++◌, length, Contains, IfOk, IsOk, OnOk, OnErr};
ghost use Rattle.std.specs.Vec.{vec_len, vec_capacity};
ghost use Rattle.keepers.specs.Counts.{raised};
ghost use Rattle.keepers.specs.SinkState.{SinkState};

use crate::failing_calls::FailingCalls;
use crate::sink::{Sink, SinkFault};
use std::alloc::{AllocError, Global};
use std::marker::Model;

/// Takes output in memory, up to its room.
#[derive(Drop)]
pub struct MemorySink {
    bytes: Vec<u8>,
    room: u32,
    calls: FailingCalls,
}

impl MemorySink {
    /// Reserves room for `room` bytes, so that writing takes no memory.
    pub fn new(alloc: Global, room: u32) -> Result<Self, AllocError>
        ensures { IfOk result (λ sink. sink ≡ record { bytes = []; room = room; failing = []; calls = 0; faults = 0 }) }
    {
        Ok(Self {
            bytes: Vec::with_capacity(alloc, room as usize)?,
            room,
            calls: FailingCalls::new(alloc),
        })
    }

    /// Lets the listed calls of `write` fail. The first call is number 1.
    pub fn failing(mut self, list: Vec<u64>) -> Self
        ensures { result ≡ record self { failing = list.items } }
    {
        self.calls.listed = list;
        self
    }

    /// What was written.
    pub fn bytes(&self) -> &[u8]
        ensures { result.now ≡ self.now.bytes }
    {
        self.bytes.as_slice()
    }

    /// How often `write` failed, up to `u64::MAX`.
    pub fn faults(&self) -> u64
        ensures { result ≡ self.now.faults }
    {
        self.calls.faults
    }

    /// Counts a call, which fails if it is listed.
    pub fn begin_call(&mut self) -> Result<(), SinkFault>
        ensures taken { IsOk result ↔ (Contains self.old.failing (raised self.old.calls 1) → ⊥) }
        ensures ok { OnOk result (self.new ≡ record self.old { calls = raised self.old.calls 1 }) }
        ensures refused { OnErr result (self.new ≡ record self.old { calls = raised self.old.calls 1; faults = raised self.old.faults 1 }) }
    {
        if self.calls.next_fails() {
            self.calls.count_fault();
            return Err(SinkFault::Failed);
        }
        Ok(())
    }
}

impl Model for MemorySink {
    ghost Value = { SinkState };

    ghost view = { λ s. record { bytes = s.bytes.items; room = s.room; failing = s.calls.listed.items; calls = s.calls.count; faults = s.calls.faults } };

    ghost invariant = { λ s. (vec_len s.bytes ≤ s.room) × (s.room ≤ vec_capacity s.bytes) };
}

impl Sink for MemorySink {
    ghost use Rattle.std.specs.Prelude.{Some};

    ghost told = { λ s. Some s.bytes };

    ghost call_count = { λ s. s.calls };

    ghost fault_count = { λ s. s.faults };

    fn write(&mut self, piece: &[u8]) -> Result<(), SinkFault>
        ensures taken { IsOk result ↔ ((length self.old.bytes + length piece.now ≤ self.old.room) × (Contains self.old.failing (raised self.old.calls 1) → ⊥)) }
        ensures ok { OnOk result (self.new ≡ record self.old { bytes = self.old.bytes ++ piece.now; calls = raised self.old.calls 1 }) }
        ensures refused { OnErr result (self.new ≡ record self.old { calls = raised self.old.calls 1; faults = raised self.old.faults 1 }) }
        ensures calls { self.new.calls ≡ raised self.old.calls 1 }
        ensures later { self.old.faults ≤ self.new.faults }
    {
        self.begin_call()?;
        if piece.len() > self.room as usize - self.bytes.len() {
            self.calls.count_fault();
            return Err(SinkFault::Failed);
        }
        self.bytes.extend_from_slice(piece).unwrap();
        Ok(())
    }
}

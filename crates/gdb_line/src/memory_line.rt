// A line in memory.
ghost use Rattle.std.specs.Prelude.{◌≡◌, ◌≤◌, ◌<◌, [], length, take, IfOk, drop};
ghost use Rattle.std.specs.Vec.{vec_len};
ghost use Rattle.gdb_line.specs.Talk.{Comes};
ghost use Rattle.gdb_line.specs.LineState.{LineState};

use crate::line::{Line, LineFault};
use keepers::{MemorySink, Sink};
use std::alloc::{AllocError, Global};
use std::marker::Model;

/// A line on which these bytes come in, at most so many at once. It keeps outgoing bytes, up to its room. Calls are
/// numbered from 1.
#[derive(Drop)]
pub struct MemoryLine {
    most: usize,
    bytes: Vec<u8>,
    taken: usize,
    out: MemorySink,
}

impl MemoryLine {
    /// No byte came or went yet, and no call fails. There is room for so many outgoing bytes.
    pub fn new(
        alloc: Global,
        bytes: Vec<u8>,
        most: usize,
        room: u32,
    ) -> Result<MemoryLine, AllocError>
        requires { 0 < most }
        ensures { IfOk result (λ line. line ≡ record {
          talk = record { came = []; left = bytes.items; went = [] };
          most = most;
          room = room;
          failing = [];
          calls = 0;
          faults = 0;
        }) }
    {
        Ok(MemoryLine {
            bytes,
            taken: 0,
            most,
            out: MemorySink::new(alloc, room)?,
        })
    }

    /// Lets the calls with these numbers fail.
    pub fn failing(self, list: Vec<u64>) -> MemoryLine
        ensures { result ≡ record self { failing = list.items } }
    {
        MemoryLine {
            out: self.out.failing(list),
            ..self
        }
    }

    /// The bytes that went out so far.
    pub fn went(&self) -> &[u8]
        ensures { result.now ≡ self.now.talk.went }
    {
        self.out.bytes()
    }

    // Takes as many bytes as come at once and fit into the room.
    fn take_piece(&mut self, room: &mut [u8]) -> usize
        ensures fits { result ≤ length room.new }
        ensures comes { Comes (take result room.new) self.old.talk self.new.talk }
        ensures end { 0 < length room.old → result ≡ 0 → self.new.talk.left ≡ [] }
        ensures same { self.new ≡ record self.old { talk = self.new.talk } }
    {
        let count = self.most.min(room.len()).min(self.bytes.len() - self.taken);
        room[..count].copy_from_slice(&self.bytes[self.taken..self.taken + count]);
        self.taken += count;
        count
    }
}

impl Model for MemoryLine {
    ghost Value = { LineState };

    ghost view = { λ l. record {
      talk = record { came = take l.taken l.bytes.items; left = drop l.taken l.bytes.items; went = l.out.bytes };
      most = l.most;
      room = l.out.room;
      failing = l.out.failing;
      calls = l.out.calls;
      faults = l.out.faults;
    } };

    ghost invariant = { λ l. (l.taken ≤ vec_len l.bytes) × (0 < l.most) };
}

impl Line for MemoryLine {
    ghost use Rattle.std.specs.Prelude.{Some};

    ghost told = { λ l. Some l.talk };

    ghost fault_count = { λ l. l.faults };

    fn receive(&mut self, room: &mut [u8]) -> Result<usize, LineFault> {
        self.out.begin_call()?;
        Ok(self.take_piece(room))
    }

    fn look(&mut self, room: &mut [u8]) -> Result<usize, LineFault> {
        self.out.begin_call()?;
        Ok(self.take_piece(room))
    }

    fn send(&mut self, piece: &[u8]) -> Result<(), LineFault> {
        Ok(self.out.write(piece)?)
    }
}

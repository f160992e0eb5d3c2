// A state of the machine.
ghost use Rattle.std.specs.Prelude.{◌≡◌, ◌<◌, ◌^◌};
ghost use Rattle.std.specs.List.{All};
ghost use Rattle.rv_pages.specs.Prelude.{page_numbers};
ghost use Rattle.rv_machine.specs.MachineState.{IsMachineState, MachineState};
ghost use Rattle.rv_machine.specs.StateChanges.{with_register};
ghost use Rattle.rv_machine.specs.StateCode.{state_code};
ghost use Rattle.rv_machine.specs.StateFields.{machine_state, IsState};

use crate::status::Status;
use rv_pages::Pages;
use std::alloc::AllocError;
use std::marker::Model;

/// A state of the machine: all that its next step depends on, besides the recorded input.
#[derive(Drop)]
pub struct State {
    /// The address of the next instruction.
    pub pc: u32,
    /// The registers x0 to x31.
    pub x: [u32; 32],
    /// Whether it runs. A step of a stopped state changes nothing.
    pub status: Status,
    /// The item of the recorded input that is read next.
    pub item: u32,
    /// The bytes of that item that were read.
    pub offset: u32,
    /// The bytes that the program wrote, modulo 2 ^ 64.
    pub written: u64,
    /// The memory.
    pub pages: Pages,
}

impl Clone for State {
    ghost is_clone = { λ s t. t ≡ s };

    fn clone(&self) -> Result<State, AllocError> {
        Ok(State {
            pc: self.pc,
            x: self.x,
            status: self.status,
            item: self.item,
            offset: self.offset,
            written: self.written,
            pages: self.pages.clone()?,
        })
    }
}

impl State {
    /// Does nothing. Its contract is a law: every state is a machine state.
    pub fn is_machine_state(&self)
        ensures { IsMachineState self.now }
    {
        self.pages.are_memory();
        are_words(&self.x);
        are_below(self.pc, self.item, self.offset, self.written);
    }

    /// Copies another state into this one. It takes no memory, since the pages are already mapped.
    pub fn copy_from(&mut self, other: &State)
        requires { page_numbers self.old.memory ≡ page_numbers other.now.memory }
        ensures { self.new ≡ other.now }
    {
        self.pc = other.pc;
        self.x = other.x;
        self.status = other.status;
        self.item = other.item;
        self.offset = other.offset;
        self.written = other.written;
        self.pages.copy_from(&other.pages);
    }

    // Writes a register; x0 stays 0.
    pub(crate) fn set_register(&mut self, register: u8, value: u32)
        requires { register < 32 }
        ensures { self.new ≡ record self.old { registers = with_register self.old.registers register value } }
    {
        if register != 0 {
            self.x[register as usize] = value;
        }
    }
}

impl Model for State {
    ghost Value = { MachineState };

    ghost coded = { state_code };

    ghost view = { machine_state };

    ghost invariant = { IsState };
}

// Do nothing. Their contracts are laws: words are below 2 ^ 32, and numbers of 64 bits below 2 ^ 64.
fn are_words(words: &[u32])
    ensures { All (λ x. x < 2 ^ 32) words.now }
{}

fn are_below(pc: u32, item: u32, offset: u32, written: u64)
    ensures { (pc < 2 ^ 32) × (item < 2 ^ 32) × (offset < 2 ^ 32) × (written < 2 ^ 64) }
{}

// What gdb asks for.
ghost use Rattle.std.specs.Prelude.{◌≡◌, ℕ, List};

use std::marker::Model;

/// What the text of a packet asks for. The letters are those of the packet in gdb's manual.
#[derive(Debug, Drop)]
pub enum Request {
    /// `qSupported`: which features the server has.
    Supported,
    /// `qXfer:features:read:target.xml:`: so many bytes of the target's description, from this place on.
    Features { from: u32, len: u32 },
    /// `QStartNoAckMode`: there are no acks from now on.
    NoAcks,
    /// `?`: why the program stopped.
    Why,
    /// `g`: all registers.
    Registers,
    /// `p`: the register with this number.
    Register(u32),
    /// `m`: so many bytes of memory, from this address on.
    Memory { at: u32, len: u32 },
    /// `Z`: stop there from now on. `len` is the length of an instruction, or of the watched bytes.
    Insert { kind: StopKind, at: u32, len: u32 },
    /// `z`: don't stop there any more.
    Remove { kind: StopKind, at: u32, len: u32 },
    /// `s`, `c`, `bs` and `bc`: move in the run.
    Move(Motion),
    /// `qRcmd,`: a command that the user typed after `monitor`.
    Monitor(Command),
    /// `G`, `P`, `M` and `X`: write registers or memory.
    Write,
    /// `qAttached`: whether the program ran before gdb came.
    Attached,
    /// `H`: selects a thread.
    SetThread,
    /// `D`: gdb detaches.
    Detach,
    /// `k`: gdb quits, and the program is to end.
    Kill,
    /// Any other request.
    Other,
}

/// What a run is stopped by.
#[derive(Clone, Copy, Debug, PartialEq, Eq)]
pub enum StopKind {
    /// An instruction at an address.
    Breakpoint,
    /// A write to some bytes.
    WriteWatch,
}

/// How to move in a run.
#[derive(Clone, Copy, Debug, PartialEq, Eq)]
pub enum Motion {
    /// One instruction on.
    Step,
    /// On to the next stop.
    Continue,
    /// One instruction back.
    StepBack,
    /// Back to the last stop.
    ContinueBack,
}

/// The text of a command.
#[derive(Debug, Drop)]
pub struct Command {
    pub(crate) text: Vec<u8>,
}

impl Command {
    /// The bytes of the command's text.
    pub fn as_bytes(&self) -> &[u8]
        ensures { result.now ≡ self.now }
    {
        self.text.as_slice()
    }
}

impl Model for Command {
    ghost Value = { List ℕ };

    ghost view = { λ c. c.text.items };
}

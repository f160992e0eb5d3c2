// What ends a move over a run.
ghost use Rattle.std.specs.Prelude.{◌≡◌, ◌==◌, position};
ghost use Rattle.std.specs.List.{list_any};
ghost use Rattle.rv_machine.specs.Prelude.{written, IsNext};
ghost use Rattle.run_timeline.specs.Ranges.{writes_in};
ghost use Rattle.run_timeline.specs.Moves.{StopList};

use crate::ranges::{Range, first_written};
use input_journal::Journal;
use rv_machine::{Next, State};
use std::marker::Model;

/// What ends a move: the addresses of breakpoints, and the watched bytes.
#[derive(Drop)]
pub struct Stops {
    pub addresses: Vec<u32>,
    pub ranges: Vec<Range>,
}

/// What ended a move.
#[derive(Clone, Copy, Debug, PartialEq, Eq)]
pub enum Hit {
    /// A breakpoint.
    Break,
    /// A step that writes a byte of the range with this index.
    Watch(usize),
}

/// The end of a part of a move forward.
#[derive(Clone, Copy, PartialEq, Eq)]
pub enum Part {
    /// The move ended with this hit, or at the end of the run.
    Ended(Option<Hit>),
    /// The move continues from the end of the part.
    GoesOn,
}

/// How a step over a run ended.
#[derive(Clone, Copy, PartialEq, Eq)]
pub enum Step {
    /// It was taken.
    Went,
    /// It wasn't taken, since it would cross a write to the range with this index.
    Watched(usize),
    /// There is no step: the run ends or begins here.
    End,
}

impl Stops {
    /// Whether a state is at a breakpoint.
    #[inline(always)]
    pub(crate) fn breaks(&self, state: &State) -> bool
        ensures { result ≡ list_any (λ a. a == state.now.pc) self.now.addresses }
    {
        match self.addresses.as_slice() {
            [] => false,
            [address] => *address == state.pc,
            addresses => is_among(addresses, state.pc),
        }
    }

    /// The first range with a byte that the next step of a state writes. Ranges are compared before the bytes are
    /// looked up in memory.
    #[inline(always)]
    pub(crate) fn writes(&self, state: &State, journal: &Journal, next: &Next) -> Option<usize>
        requires { IsNext next.now state.now }
        ensures { result ≡ position (writes_in (written state.now journal.now)) self.now.ranges }
    {
        if self.ranges.is_empty() {
            return None;
        }
        let aim = next.aim(state, journal);
        if aim.count == 0 {
            return None;
        }
        first_written(&self.ranges, state, &aim)
    }
}

impl Model for Stops {
    ghost Value = { StopList };

    ghost view = { λ s. record { addresses = s.addresses.items; ranges = s.ranges.items } };
}

// Whether an address is one of these.
#[inline(never)]
fn is_among(addresses: &[u32], pc: u32) -> bool
    ensures { result ≡ list_any (λ a. a == pc) addresses.now }
{
    addresses.iter().any(|a| *a == pc)
}

// A session with what came and isn't answered yet.
ghost use Rattle.std.specs.Prelude.{◌≡◌};
ghost use Rattle.gdb_session.specs.declared.server.ServeFault.TheVariants as fault;
ghost use Rattle.gdb_session.specs.declared.server.TalkFault.TheVariants as talk;
ghost use Rattle.gdb_session.specs.SessionFields.{serve_fault};

use crate::session::Session;
use gdb_line::LineFault;
use std::alloc::{AllocError, Global};
use thiserror::Error;

/// Why a server gave up.
#[derive(Clone, Copy, Debug, PartialEq, Eq, Error)]
pub enum ServeFault {
    /// The line can't be used.
    #[error("the line can't be used")]
    Line,
    /// There was no memory.
    #[error("there is no memory")]
    Memory,
    /// A packet has more than 65,536 bytes.
    #[error("a packet is too long")]
    TooLong,
    /// 2^64 - 1 items and pieces came.
    #[error("too much came")]
    TooMuch,
}

impl From<AllocError> for ServeFault {
    ghost from_gives = { λ _ e. e ≡ fault.Memory };

    fn from(_: AllocError) -> ServeFault {
        ServeFault::Memory
    }
}

impl From<TalkFault> for ServeFault {
    ghost from_gives = { λ fault e. e ≡ serve_fault fault };

    fn from(fault: TalkFault) -> ServeFault {
        match fault {
            TalkFault::Line => ServeFault::Line,
            TalkFault::Memory => ServeFault::Memory,
        }
    }
}

// Why an answer can't go.
#[derive(Clone, Copy, PartialEq, Eq)]
pub(crate) enum TalkFault {
    Line,
    Memory,
}

impl From<LineFault> for TalkFault {
    ghost from_gives = { λ _ e. e ≡ talk.Line };

    fn from(_: LineFault) -> TalkFault {
        TalkFault::Line
    }
}

impl From<AllocError> for TalkFault {
    ghost from_gives = { λ _ e. e ≡ talk.Memory };

    fn from(_: AllocError) -> TalkFault {
        TalkFault::Memory
    }
}

// Which item came.
#[derive(Clone, Copy, PartialEq, Eq)]
pub(crate) enum Kind {
    // Its text is that of the server.
    Packet,
    DamagedPacket,
    Interrupt,
    Resend,
    AckOrNoise,
}

/// A session, the bytes that came and aren't answered yet, and the last packet that went.
#[derive(Drop)]
pub(crate) struct Server {
    pub(crate) alloc: Global,
    pub(crate) session: Session,
    pub(crate) held: Vec<u8>,
    pub(crate) last: Vec<u8>,
    // The text of the packet that came, and then that of its reply.
    pub(crate) text: Vec<u8>,
    // What waits to be sent.
    pub(crate) out: Vec<u8>,
}

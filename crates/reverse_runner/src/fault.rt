// Why an action is not performed.
ghost use Rattle.std.specs.Prelude.{◌≡◌};
ghost use Rattle.reverse_runner.specs.Prelude.{fault_on};

use image_store::StoreFault;
use thiserror::Error;

/// Why an action was not performed. The session has ended then.
#[derive(Clone, Copy, Debug, PartialEq, Eq, Error)]
pub enum RunFault {
    /// The keeper of this level failed.
    #[error("the storage of level {0} failed")]
    Keeper(u8),
    /// The bytes from a level aren't those that were put there, or are no image of this machine. Has the SHA-256 of
    /// both.
    #[error("an image from level {level} is damaged")]
    Damaged {
        level: u8,
        put: [u8; 32],
        got: [u8; 32],
    },
    /// The visitor failed.
    #[error("the visitor failed")]
    Visitor,
    /// There was no memory.
    #[error("out of memory")]
    Memory,
    /// An earlier action was refused, and nothing was done.
    #[error("the session has ended")]
    Ended,
}

impl RunFault {
    // The fault of a session for one of the store, on a level.
    pub(crate) fn on(level: u8, fault: StoreFault) -> RunFault
        ensures { result ≡ fault_on level fault }
    {
        match fault {
            StoreFault::Keeper => RunFault::Keeper(level),
            StoreFault::Damaged { put, got } => RunFault::Damaged { level, put, got },
            StoreFault::Memory => RunFault::Memory,
        }
    }
}

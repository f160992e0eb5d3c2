// Why there is no list.
ghost use Rattle.std.specs.Prelude.{◌≡◌};
ghost use Rattle.revolve_gen.specs.declared.fault.GenFault.TheVariants.{Memory};

use std::alloc::{AllocError, AllocFailed};
use thiserror::Error;

/// Why a generator has no list.
#[derive(Clone, Copy, Debug, PartialEq, Eq, Error)]
pub enum GenFault {
    /// The book has no plan for so many steps, by the rule with this number. Rule 1: two or more steps have no slot.
    /// Rule 2: the plan needs two levels, and the book hasn't two. Rule 4: the slower level has too few slots.
    #[error("no plan, by rule {0}")]
    NoPlan(u8),
    /// There was no memory.
    #[error("out of memory")]
    Memory,
}

/// What a generator gives.
pub type Planned<T> = Result<T, GenFault>;

impl From<AllocError> for GenFault {
    ghost from_gives = { λ _ e. e ≡ Memory };

    fn from(_e: AllocError) -> GenFault {
        GenFault::Memory
    }
}

impl<T: Drop> From<AllocFailed<T>> for GenFault {
    ghost from_gives = { λ _ e. e ≡ Memory };

    fn from(_e: AllocFailed<T>) -> GenFault {
        GenFault::Memory
    }
}

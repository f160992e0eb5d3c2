// Why a line can't be run.

use std::alloc::AllocError;

/// Why a line is no case.
#[derive(Clone, Copy, PartialEq, Eq)]
pub enum CaseFault {
    /// A member is not of its form.
    Form,
    /// There was no memory.
    Memory,
}

impl From<AllocError> for CaseFault {
    fn from(_e: AllocError) -> CaseFault {
        CaseFault::Memory
    }
}

// Why bytes are no book.

use thiserror::Error;

/// The first fault of bytes that are no book. A level is named by its number.
#[derive(Clone, Copy, Debug, PartialEq, Eq, Error)]
pub enum BookFault {
    /// They are no JSON text.
    #[error("the bytes are no JSON text")]
    NotJson,
    /// The field with this number is missing, or of another kind.
    #[error("field {0} is missing or of another kind")]
    Shape(u8),
    /// The number of levels isn't 1 to 4.
    #[error("{0} levels, where 1 to 4 may be")]
    Levels(u32),
    /// The name of this level isn't one, or an earlier level has it.
    #[error("the name of level {0} is none, or an earlier level has it")]
    Name(u8),
    /// A cost of this level is above 1,000,000, or that of forward steps (254) or reversed ones (255).
    #[error("cost {0} is above 1,000,000")]
    CostRange(u8),
    /// This level has more than 1,000,000 slots.
    #[error("level {0} has more than 1,000,000 slots")]
    SlotRange(u8),
    /// This level is cheaper to write or to read than the one before it.
    #[error("level {0} is cheaper than the one before it")]
    CostOrder(u8),
    /// There was no memory.
    #[error("out of memory")]
    Memory,
}

// Why bytes are no journal.

use thiserror::Error;

/// The first fault of bytes that are no journal, from left to right, with its place.
#[derive(Clone, Copy, Debug, PartialEq, Eq, Error)]
pub enum JournalFault {
    /// They don't begin with the letters RVJL.
    #[error("the bytes don't begin as a journal")]
    Magic,
    /// The version isn't 1.
    #[error("the version isn't 1")]
    Version,
    /// A field or an item's bytes aren't all there.
    #[error("the field at {0} isn't all there")]
    Truncated(u64),
    /// There are more than 65,536 items, or an item has more than 1,048,576 bytes.
    #[error("the number at {0} is too large")]
    TooLong(u64),
    /// Bytes follow the last item.
    #[error("bytes follow the last item, from {0} on")]
    Trailing(u64),
    /// There was no memory.
    #[error("out of memory")]
    Memory,
}

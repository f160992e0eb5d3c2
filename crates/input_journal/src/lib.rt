//! Recorded input: the items that a program reads, each a run of bytes, and their encoding in bytes. It uses no other
//! crate. `rv_machine` and most crates above it use it. A journal is modelled as the list of its items.
//! `specs/Form.antt` says which bytes are a journal, and `specs/Faults.antt` the first fault of other bytes.
#![tactic(auto)]

mod fault;
mod journal;
pub mod laws;
mod reading;
mod writing;

pub use crate::fault::JournalFault;
pub use crate::journal::Journal;
pub use crate::reading::{read_journal, read_recorded};
pub use crate::writing::write_journal;

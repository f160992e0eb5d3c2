//! The images that each level of a book keeps: their slots, and their digests. It uses `level_book` and `keepers`.
//! `reverse_runner`, `reverse_console`, `reversal` and `reversal_program` use it. `StoredImages` in `specs/` says which
//! images a store represents over keepers that claim their content. `Calls` and `StoreCalls` there say what a call does
//! over any keepers.
#![tactic(auto)]

pub mod laws;
mod shelf;
mod store;

pub use crate::shelf::{Kept, StoreFault};
pub use crate::store::Store;

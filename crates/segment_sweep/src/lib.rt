//! Searches a run for the last state whose image has a digest. It uses `rv_machine`, `state_image` and the crates below
//! them. `reversal` uses it. The run is marked at the starts of segments. A worker goes through the states of each
//! segment. An atomic word shares the last found place among all workers. `specs/LastMatch.antt` says which place is
//! found, and `specs/MarkedRun.antt` what marks are. `specs/SegmentResults.antt` says what a worker returns and what
//! the word means.
#![tactic(auto)]

pub mod laws;
mod marks;
mod search;
mod worker;

pub use crate::marks::Marks;
pub use crate::search::find_digest;

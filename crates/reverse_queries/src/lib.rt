//! Answers questions on a run: a state by number, and the last step that wrote or changed a word. It uses
//! `schedule_rules` and `reverse_runner`. `reverse_console` and `reversal` use it. Each question performs a list from a
//! session's start, up to the state that answers.
//!
//! In `specs/`:
//!
//! - `Queries`: what is asked, and how much of a list is performed.
//! - `ListExecution`: what that does to a session.
//! - `HoldingsTrace`: which states are given on the way.
#![tactic(auto)]

mod finder;
mod finding;
pub mod laws;
mod memory_word;
mod picked;
mod queries;

pub use crate::memory_word::{bytes_of_word, some_differ};
pub use crate::queries::{last_change, last_write, state_at};

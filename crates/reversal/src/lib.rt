//! The top call: words and inputs in, lines out, and one ending that says what happened. It uses `requests` and nearly
//! all other crates. `reversal_program`, `reversal_cli` and `reversal_calls` use it. Readers know nothing of runs, and
//! runs nothing of text.
//!
//! - What the words ask for, and what is read, is defined in `requests`.
//! - `specs/Decision`: which job or refusal follows.
//! - `specs/Course`: how a call ends by it.
//! - `specs/CommandRun` and its like: what each command means.
#![tactic(auto)]

mod actions;
mod asking;
mod asm;
mod certifying;
mod console;
mod cost;
mod decision;
mod demo;
mod disk;
mod finding;
mod hrevolve;
mod job;
pub mod laws;
mod line_hasher;
mod listing;
mod multistage;
mod periodic;
mod plan_kinds;
mod planning;
mod top;

pub use crate::top::reversal;
pub use endings::{Ended, ended_text};
pub use requests::{KeepAt, Words, keeper_places};

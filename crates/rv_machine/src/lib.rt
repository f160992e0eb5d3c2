//! The machine: its state, and one step of it. It uses `rv_decode`, `rv_pages` and `input_journal`. Most crates above
//! them use it.
//!
//! In `specs/`:
//!
//! - `Effects`: what each instruction does, a line each.
//! - `SystemCalls`: what each system call does.
//! - `StepTable`: what that makes of a state, over a map of bytes.
//! - `Output`: what a step writes to the output.
//!
//! The specs don't mention pages and decoded instructions, which the code keeps. Only `step`, `advance`,
//! `advance_watched` and `advance_until` take steps, and each step counts one. The fields of a state are public. A
//! caller may change states itself, which counts nothing.
#![tactic(auto)]

mod applying;
mod calls;
mod changes;
mod code_page;
mod effect;
pub mod laws;
mod memo;
mod next;
mod products;
mod span;
mod state;
mod status;
mod stepping;
mod steps;
mod watch;

pub use crate::next::{Changes, Next};
pub use crate::span::Span;
pub use crate::state::State;
pub use crate::status::Status;
pub use crate::stepping::{
    advance, advance_until, advance_watched, next_changes, next_output, step, wrote,
};
pub use crate::steps::Steps;
pub use crate::watch::{Stop, Watch};

//! Reads and prints schedules as text. A text has its actions, or a first fault. An action has a canonical spelling. It
//! uses `plan_types`, `line_texts` and `level_book`. `cert_text` and `reversal` use it.
//!
//! In `specs/`:
//!
//! - `Tokens`: the tokens of a line.
//! - `Shapes`: what is allowed at each place of a line.
//! - `Meaning`: the action that a line means.
//! - `ScheduleText`: the list that a text means.
//! - `Faults`: the first fault of another text.
//! - `Canonical`: the canonical spelling.
#![tactic(auto)]

mod canonical;
mod cursor;
mod fault;
mod fields;
pub mod laws;
mod line;
mod number;
mod printing;
mod reading;
mod words;

pub use crate::printing::print_action;
pub use crate::reading::read_actions;

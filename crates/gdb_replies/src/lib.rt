//! What gdb and its user see of a state: registers, memory, and text lines. It uses `gdb_wire`, `rv_machine`,
//! `state_image` and the crates below them. `gdb_session` uses it. It also has the description of the target, and the
//! commands after `monitor`.
#![tactic(auto)]

mod command;
mod description;
mod state_texts;
mod state_words;

pub use crate::command::{Command, push_help, push_hint, read_command};
pub use crate::description::target_description;
pub use crate::state_texts::{push_memory, push_register, push_registers};
pub use crate::state_words::{
    push_ending_line, push_hexadecimal, push_place_line, push_state_line,
};

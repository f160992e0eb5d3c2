//! The lines of a text, the tokens and columns of a line, numbers, and the place of a fault. It uses no other crate.
//! The readers of schedules, certificates, sources, scripts and calls use it.
//!
//! In `specs/`:
//!
//! - `Lines`, `Tokens`: the lines of a text, and the tokens of a line.
//! - `Numbers`: how numbers are spelled.
//! - `Parsers`: what the functions compute, on lists.
#![tactic(auto)]

mod address;
mod blank;
mod fault;
mod lines;
mod lists;
mod number;
mod tokens;

pub use crate::address::address_of;
pub use crate::blank::{after_blanks, past};
pub use crate::fault::{Fault, LineFault, Rules};
pub use crate::lines::{Lines, length_before, without_first};
pub use crate::lists::push_found;
pub use crate::number::{number_at, number_of};
pub use crate::tokens::{NoBlanks, RunBytes, Token, Tokens, Words, run_length};

//! The assembler and disassembler of RV32IM. It uses `plan_types`, `line_texts` and `rv_decode`. `reversal` uses it.
//! `assemble` makes the words of a text of instructions, labels and comments. `disassemble` prints a word as the one
//! line that reads as that word again.
//!
//! Read `specs/` in this order:
//!
//! - `Tokens`, `Numbers`: what bytes spell.
//! - `Table`: the instructions, and their operands.
//! - `LineMeaning`: what a line means.
//! - `Source`: which words a text means, and its first fault.
//! - `Canonical`: the line of a word.
//! - `Laws`: what the definitions imply.
#![tactic(auto)]

mod assembling;
mod fault;
mod label;
pub mod laws;
mod line;
mod number;
mod operands;
mod packing;
mod printing;
mod table;
mod tokens;
mod unpacking;

pub use crate::assembling::assemble;
pub use crate::printing::disassemble;

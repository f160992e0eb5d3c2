//! Decodes and encodes the instruction words of RV32IM. It uses no other crate. `rv_machine`, `rv_manual`, `rv_asm` and
//! `reversal` use it. What an instruction does is defined in `rv_machine`. `specs/Formats.antt` has the fields and
//! immediates of the formats. `specs/Rows.antt` has the table of the instructions, to be compared with the manual.
#![tactic(auto)]

mod decoding;
mod encoding;
pub mod fields;
mod instruction;
pub mod laws;

pub use crate::decoding::decode;
pub use crate::encoding::encode;
pub use crate::instruction::Inst;

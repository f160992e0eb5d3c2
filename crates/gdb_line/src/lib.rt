//! A line to a debugger: bytes come in on it, and bytes go out. It uses `keepers`. `gdb_session`, `reversal_gdb` and
//! `gdb_cases` use it.
#![tactic(auto)]

mod line;
mod memory_line;

pub use crate::line::{Line, LineFault};
pub use crate::memory_line::MemoryLine;

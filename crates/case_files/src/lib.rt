//! Runs cases from files, for the test programs `timeline_walks`, `gdb_cases`, `machine_rows` and `reversal_calls`. It
//! uses `elf_load`, `run_timeline` and crates below them. A file has a JSON text a line.
#![tactic(auto)]

mod fault;
mod inputs;
mod lines;
mod members;
mod outcome;

pub use fault::CaseFault;
pub use inputs::{Inputs, program_of};
pub use lines::{Cases, Difference, arguments, exit_code, run_files};
pub use members::{number_of, text_of, timeline_of};
pub use outcome::all_came;

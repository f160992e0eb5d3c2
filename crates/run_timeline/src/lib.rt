//! A timeline: a run of the machine, and a place from which a debugger goes on and back. It uses `rv_machine`,
//! `unit_undo` and the crates below them. `gdb_session`, `reversal_gdb`, `case_files`, `timeline_walks` and `gdb_cases`
//! use it. A move ends at a breakpoint, before a step that writes a watched byte, or at the end of the run.
//! `specs/Moves.antt` defines this. A timeline keeps states of the run at equal distances, without the pages that were
//! never written. It undoes steps back one by one.
#![tactic(auto)]

mod collector;
mod mark;
mod marks;
mod moving;
mod observing;
mod ranges;
mod stops;
mod timeline;
mod walk;

pub use crate::ranges::Range;
pub use crate::stops::{Hit, Part, Step, Stops};
pub use crate::timeline::{MARK_PAGE_BYTES, MARK_REST_BYTES, Timeline};

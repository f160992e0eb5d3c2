//! Prints what a schedule costs: its steps, its writes and reads on each level, and the total. It uses `level_book`,
//! `cost_fold` and `keepers`. `reversal` uses it. `specs/Report.antt` defines the text.
#![tactic(auto)]

mod lines;
mod reporting;

pub use crate::lines::push_count;
pub use crate::reporting::report;

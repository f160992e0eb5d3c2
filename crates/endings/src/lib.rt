//! How a call ends, and what is written of it. It uses the faults of the readers below it, and `bound_cert`'s reasons.
//! `requests`, `reversal` and both programs use it. `Outcome` is what crates answer; `Ended` is what the top call does.
#![tactic(auto)]

mod ended;
mod outcome;
mod report;
mod text;

pub use crate::ended::Ended;
pub use crate::outcome::Outcome;
pub use crate::report::write_report;
pub use crate::text::ended_text;

//! The shared types of checkpoint plans: actions, limits, a gate for workers, and a text line. It uses no other crate.
//! Most crates use it. The line allocates no memory. What actions do to a configuration is defined in `level_book`.
#![tactic(auto)]

mod action;
mod gate;
mod limits;
mod line;

pub use crate::action::{Action, Dest, Keep};
pub use crate::gate::{Gate, NoGate};
pub use crate::limits::{MOST_ACTIONS, MOST_COST, MOST_SLOTS, MOST_STEPS};
pub use crate::line::Line;

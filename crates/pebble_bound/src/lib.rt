//! The lower bound over all valid schedules: none takes fewer forward steps than Revolve does. It uses `level_book`,
//! `schedule_rules` and `binomials`. `bound_cert` and `reversal` use it. The bound depends only on the numbers of steps
//! and slots. `specs/Crossings.antt` says how often a list advances a step, and `specs/Laws.antt` has the bounds.
#![tactic(auto)]

pub mod laws;
mod least;

pub use crate::least::least_forward;

//! The binomial numbers of Griewank and Walther, for reversing a chain of steps with few slots. They say how often a
//! step is advanced, how many advances there are, and where a stretch is split. It uses `plan_types`. `revolve_gen`,
//! `disk_gen`, `pebble_bound` and other crates for Revolve use it. `specs/Binomials.antt` has the recurrence,
//! `specs/Advances.antt` the other numbers, and `specs/Laws.antt` the laws.
#![tactic(auto)]

mod advances;
mod binomial;
mod climb;
pub mod laws;

pub use crate::advances::{least_advances, repeats, split};
pub use crate::binomial::beta;

//! Decides whether a list is in a class of schedules. It uses `schedule_rules`, `binomials` and `revolve_gen`.
//! `bound_cert` uses it. The multistage class is defined in `revolve_gen`, and the nested and disk
//! classes in `level_book`. All lists of these classes are valid.
#![tactic(auto)]

mod disk;
pub mod laws;
mod multistage;
mod nested;
mod stack;

pub use crate::disk::in_disk;
pub use crate::multistage::{in_multistage, place_levels};
pub use crate::nested::in_nested;

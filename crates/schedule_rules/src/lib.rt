//! The validator: what an action does to a configuration, which rule it breaks, and whether a list is valid. It uses
//! `plan_types` and `level_book`. `class_rules`, `pebble_bound`, `reverse_runner` and many more use it. The moves are
//! defined in `level_book`. Here a configuration is kept in bits and counts, reserved at the start. No public contract
//! mentions them.
#![tactic(auto)]

mod config;
pub mod laws;
mod positions;
mod whole_list;

pub use crate::config::{Broken, Config};
pub use crate::whole_list::{Verdict, check};

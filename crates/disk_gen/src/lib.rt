//! Lists over two levels, a fast one with few slots and a slow one with many. It uses `revolve_gen`, `cost_tables` and
//! `hrevolve_gen`. `table_clauses`, `bound_cert` and `reversal` use it. There are periodic lists, and lists of
//! DiskRevolve, which cost the least where the slow level is unlimited.
//!
//! In `specs/`:
//!
//! - `PeriodicList`: which periodic list is written.
//! - `Plans`: where there is no periodic list.
//! - `DiskRows`: the model of the disk tables.
//! - `DiskPlans`: where there are no disk tables.
//! - `DiskRevolveList`: which list is read from disk tables.
//! - `Laws`: periodic lists are valid, and a list read from disk tables is the only one.
#![tactic(auto)]

mod disk_reading;
mod disk_tables;
pub mod laws;
mod periodic;
mod phase;
mod plans;

pub use crate::disk_reading::disk_list;
pub use crate::disk_tables::DiskTables;
pub use crate::periodic::{Periodic, periodic_list};

//! Finds the first entry at which a table of costs breaks a clause of an under-table, and which clause. It uses
//! `level_book`, `cost_tables` and `disk_gen`. `bound_cert` and `endings` use it. Anyone
//! may make the tables. There are tables over several levels, and tables over memory and an unlimited disk.
//! `level_book` defines under-tables in `specs/UnderTable.antt` and `specs/DiskUnderTable.antt`. Here
//! `specs/ClauseFailures.antt` says which clause fails where, and which place comes first.
#![tactic(auto)]

mod column;
mod compare;
mod disk;
mod entry;
pub mod laws;
mod nested;
mod search;
mod splits;

pub use crate::disk::first_broken_disk;
pub use crate::entry::Entry;
pub use crate::nested::first_broken;

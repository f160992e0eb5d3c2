//! The memory of the machine: pages of 4,096 bytes that are mapped or not. It uses no other crate. `rv_machine` and
//! most crates above it use it. Memory is modelled as a finite map from addresses to bytes: see `specs/Memory.antt`.
//! Pages are visible only in two ways. Images list the numbers and bytes of the mapped ones, and calls report which of
//! them are touched.
#![tactic(auto)]

mod marks;
mod pages;
mod tables;

pub use crate::pages::{LAST_WORD, PAGE, Pages};

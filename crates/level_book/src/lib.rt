//! The book: the levels that keep images, their slots and costs, and how a book is read from JSON. It uses
//! `plan_types`. Most crates for schedules use it.
//!
//! In `specs/`:
//!
//! - `Names`: how levels are named.
//! - `BookText`, `BookFaults`: what a text means as a book, and why a text is refused.
//! - `Configuration`: what is in work, held and taped.
//! - `Moves`: where each action leads.
//! - `Rules`: which rule an action breaks.
//! - `Valid`: which lists reverse a computation.
//! - `CostFold`: what a list costs.
//!
//! These definitions don't mention how a configuration is kept in memory.
#![tactic(auto)]

mod book;
mod checks;
mod fault;
mod fields;
pub mod laws;
mod reading;

pub use crate::book::{Book, Level, Name, Slots};
pub use crate::fault::BookFault;
pub use crate::reading::read_book;

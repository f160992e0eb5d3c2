//! What a schedule costs: the counts of a list, taken in one pass, and their price by a book. It uses `plan_types` and
//! `level_book`. `cost_report`, `bound_cert` and `reversal` use it. What a list costs is defined in `level_book`.
#![tactic(auto)]

mod counting;
mod counts;
pub mod laws;
mod price;

pub use crate::counting::tally;
pub use crate::counts::Counts;
pub use crate::price::total;

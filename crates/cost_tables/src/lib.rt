//! Tables of least costs: the least cost of reversing a stretch with images on the levels of a book. It uses
//! `plan_types` and `level_book`. `hrevolve_gen`, `disk_gen`, `table_clauses` and `bound_cert` use it. The built tables
//! are the greatest under-table, which `specs/UnderTable.antt` of `level_book` defines. `specs/TableRows.antt` models
//! them. `specs/Laws.antt` says that each entry is attained. Any number of workers fills the rows, in pieces that are
//! returned by value. So the entries don't depend on that number. A table of the fastest level alone allows more steps.
//! Tables can also be filled with any costs, entry by entry: see `specs/TableUpdates.antt`.
#![tactic(auto)]

mod cells;
mod columns;
mod cost;
mod costs;
pub mod laws;
mod rows;
mod sharing;
mod tables;

pub use crate::cells::costs_of;
pub use crate::columns::least_sum;
pub use crate::cost::{Cost, are_short};
pub use crate::costs::Costs;
pub use crate::rows::NEVER;
pub use crate::tables::Tables;

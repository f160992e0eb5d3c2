//! Lower bounds for two classes of lists: nested lists and lists of the disk class. It uses `plan_types`, `level_book`
//! and `schedule_rules`. `bound_cert` and `reversal` use it. No nested list costs less than the top entry of an
//! under-table. No list of the disk class costs less than that of a disk under-table. So a list at that cost is the
//! cheapest of its class. The classes and tables are defined in `level_book`. `specs/Laws.antt` has the bounds.
#![tactic(auto)]

pub mod laws;

//! The lists of H-Revolve: schedules over several levels of storage, in the nested class. It uses `plan_types`,
//! `level_book`, `revolve_gen` and `cost_tables`. `disk_gen`, `bound_cert` and `reversal` use it. A list is read from
//! tables of least costs, from the top entry down, and costs that entry. `specs/HRevolveList.antt` says which list is
//! read, `specs/Plans.antt` where there is none. By `specs/Laws.antt` a list is the only one. Other plans write parts
//! of this kind by `write_fresh`.
#![tactic(auto)]

mod entries;
pub mod laws;
mod list;
mod stretch;
mod writing;

pub use crate::entries::is_sum;
pub use crate::list::hrevolve_list;
pub use crate::stretch::Stretch;
pub use crate::writing::write_fresh;

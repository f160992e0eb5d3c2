//! A console that moves about in a run and answers each order by a state with its number. It uses `image_store`,
//! `reverse_runner`, `reverse_queries` and `line_texts`. `reversal` uses it. It keeps marks of the run in storage. It
//! also reads scripts of orders, and writes their answers.
//!
//! In `specs/`:
//!
//! - `Marks`: where the marks are.
//! - `Answer`: what an order answers.
//! - `StateSources`: what it answers by the fetched bytes.
//! - `Costs`: what an order takes.
//! - `MarksOfRun`: when a console represents a run.
//! - `ScriptWords`, `Script`: which bytes are a script.
//! - `ScriptFaults`: the first fault of other bytes.
//! - `ScriptAnswers`: what is written for a script.
#![tactic(auto)]

mod command;
mod console;
mod fault;
pub mod laws;
mod line;
mod marked_run;
mod marking;
mod marks;
mod order;
mod reading;
mod script;
mod seeking;

pub use crate::console::Console;
pub use crate::marked_run::MarkedRun;
pub use crate::order::Order;
pub use crate::reading::read_orders;
pub use crate::script::{Stop, answer_all};

//! The runner: a session that performs a schedule over a machine, stores images, and gives its states to a visitor. It
//! uses `schedule_rules`, `rv_machine`, `unit_undo`, `unit_digests` and `image_store`. `reverse_queries`,
//! `reverse_console` and `reversal` use it. It knows nothing of text.
//!
//! In `specs/`:
//!
//! - `StateOrder`: which states a list gives.
//! - `ActionEffects`: what an action does, by the fetched bytes.
//! - `SessionOfRun`: at which configuration of a run a session is.
#![tactic(auto)]

mod acting;
mod desk;
mod fault;
mod known_state;
pub mod laws;
mod line_writer;
mod session;
mod visitor;
mod workspace;

pub use crate::desk::Desk;
pub use crate::fault::RunFault;
pub use crate::known_state::KnownState;
pub use crate::line_writer::{LineWriter, write_line};
pub use crate::session::Session;
pub use crate::visitor::{VisitFault, Visitor};

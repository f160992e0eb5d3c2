//! Takes the digests of the states that an undo list leads back over, with workers in parallel. It uses `unit_undo`,
//! `state_image` and crates below them. `reverse_runner` and `reversal` use it. Each worker goes back with a state of
//! its own, so no state is stored. `specs/Digests.antt` says which digests are known.
#![tactic(auto)]

mod digesters;
mod sharing;

pub use crate::digesters::{Digesters, STATE_BYTES};

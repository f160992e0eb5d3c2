//! The lists of Revolve, the optimal schedule of Griewank and Walther, one action at a time. It uses `plan_types`,
//! `level_book` and `binomials`. All generators of plans, class checks and certificates use it. A stream is modelled as
//! the list of actions still to come. It keeps only a stack of held stretches.
//!
//! In `specs/`:
//!
//! - `RevolveList`: the two rules by which a list is written.
//! - `Places`: the levels of its images.
//! - `Plans`: where there is no list.
//! - `Stack`: what actions do to a stack of images.
//! - `Multistage`: the multistage class, whose costs are sums over places.
//! - `Laws`: the list is valid, and its number of steps.
#![tactic(auto)]

mod fault;
pub mod laws;
mod part;
mod phases;
mod places;
mod stack;
mod stream;
mod stretch;

pub use crate::fault::{GenFault, Planned};
pub use crate::part::StretchStream;
pub use crate::places::Places;
pub use crate::stack::{StackStep, on_level};
pub use crate::stream::{Revolve, revolve_list};
pub use crate::stretch::Stretch;

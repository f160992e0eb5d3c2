//! Multistage lists: lists of Revolve over two levels, with the most used images on the faster one. It uses
//! `plan_types`, `level_book`, `binomials` and `revolve_gen`. `bound_cert` and `reversal` use it. A plan holds no list.
//! It is modelled by `specs/Plan.antt`: its places, and the actions still to come. The list is proved to be in the
//! multistage class of `revolve_gen`.
//!
//! In `specs/`:
//!
//! - `Traffic`: how often each place is written and read.
//! - `MultistageList`: which list is written.
//! - `Threshold`: which lists of the class cost the least, as a threshold shows.
#![tactic(auto)]

pub mod laws;
mod numbers;
mod placing;
mod planning;
mod ranking;
mod stream;
mod traffic;

pub use crate::planning::place_savings;
pub use crate::stream::Multistage;
pub use crate::traffic::{PlaceTraffic, places};

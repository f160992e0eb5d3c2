//! Checks certificates, which show that a list is the least: of all valid lists, or of its class. It uses `cert_text`,
//! `pebble_bound`, `class_bounds` and most crates for schedules. `endings` and `reversal` use it. A certificate shows
//! this to a reader who trusts neither a plan nor its planner. Texts of certificates are in `cert_text`, and entries of
//! tables in `table_clauses`. `specs/Acceptance.antt` says which certificate is accepted for which list, and why
//! another isn't. `specs/Thresholds.antt` says which places a threshold doesn't fit.
#![tactic(auto)]

mod bound;
mod certifying;
mod checking;
pub mod laws;
mod listed;
mod places;
mod tables;
mod verdict;

pub use crate::certifying::{certify_disk, certify_nested, certify_places, certify_revolve};
pub use crate::checking::check_certificate;
pub use crate::verdict::{CertVerdict, Class, Reason};
pub use cert_text::{Certificate, print_certificate, read_certificate};
pub use table_clauses::Entry;

//! Reads and prints the text of certificates, which show that a list is least. It uses `line_texts`, `level_book`,
//! `action_text`, `cost_tables`, `disk_gen` and `keepers`. `bound_cert` and `reversal` use it. What a certificate shows
//! is defined in `bound_cert`. It shows this to a reader who trusts neither a plan nor its planner. Lines that begin
//! with `#!` are the certificate. All others are ignored, so one text can hold a schedule and its certificate.
//!
//! In `specs/`:
//!
//! - `MarkedLines`, `Words`: the lines and words of a text.
//! - `WordLines`: the words of a certificate.
//! - `Meaning`: which certificate a text means.
//! - `Grammar`, `Faults`: the first fault of another text.
//! - `Canonical`: the printed text.
//! - `Laws`: what the definitions imply.
#![tactic(auto)]

mod certificate;
mod disk;
mod fault;
mod kind;
pub mod laws;
mod lines;
mod nested;
mod piece;
mod printing;
mod printing_disk;
mod printing_rows;
mod reader;
mod reading;
mod rows;
mod setting;
mod stretches;
mod words;

pub use crate::certificate::Certificate;
pub use crate::printing::print_certificate;
pub use crate::reading::read_certificate;

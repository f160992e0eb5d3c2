//! What the words of a call ask for, and what is read for it. It uses `line_texts`, `keepers` and `endings`. `reversal`,
//! the crates above it and `reversal_gdb` use it. `reversal` decides about a request and performs it.
//!
//! Read `specs/` in this order:
//!
//! - `Operands`: the kinds of operand.
//! - `Request`: what the words mean.
//! - `Bounds`: the numbers of a request.
//! - `Places`: where images are kept.
//! - `Inputs`: what is read.
#![tactic(auto)]

mod bounds;
mod input_kind;
mod inputs;
mod kind;
mod loaded;
mod operands;
mod options;
mod places;
mod question;
mod reading;
mod request;
mod schedule;
mod text;
mod words;

pub use crate::bounds::Bounded;
pub use crate::input_kind::InputKind;
pub use crate::inputs::{Input, read_input, read_inputs};
pub use crate::kind::PlanKind;
pub use crate::loaded::Loaded;
pub use crate::options::Options;
pub use crate::places::{KeepAt, keeper_places};
pub use crate::question::Question;
pub use crate::request::{
    Ask, Asm, Certify, Command, Console, Demo, Disasm, Find, PlanFor, PlanPeriodic, Request, Run,
    RunBackward, ScheduleFor, read_request,
};
pub use crate::schedule::Schedule;
pub use crate::words::Words;

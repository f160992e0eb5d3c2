//! The text between gdb and a server of its remote serial protocol. It uses no other crate. `gdb_replies`,
//! `gdb_session` and `gdb_cases` use it. It covers the items on a line, what a packet asks for, and how a reply is
//! framed.
//!
//! Read `specs/` in this order:
//!
//! - `Escapes`, `Items`: which bytes are an item, and what it means.
//! - `Numbers`, `Requests`: what the text of a packet asks for.
//! - `Replies`: what is sent.
//! - `Laws`: what the definitions imply.
#![tactic(auto)]

mod checksum;
mod escapes;
mod finding;
mod framing;
mod item;
pub mod laws;
mod number;
mod reading;
mod replies;
mod request;

pub use crate::escapes::push_unescaped;
pub use crate::framing::next_item;
pub use crate::item::{Found, Item};
pub use crate::reading::read_request;
pub use crate::replies::{push_hex, push_packet, push_word};
pub use crate::request::{Command, Motion, Request, StopKind};

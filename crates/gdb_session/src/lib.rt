//! A session of gdb over a recorded run: its answer to each request, its moves, and a server that answers what comes over
//! a line. It uses `gdb_wire`, `gdb_replies`, `gdb_line` and `run_timeline`. `reversal_gdb` and `gdb_cases` use it. Read
//! the files of `specs/` in this order: `Debugger`, `Moves`, `Answers` and `Conversation`.
#![tactic(auto)]

mod halt;
mod moving;
mod server;
mod serving;
mod session;
mod talk;

pub use crate::halt::Halt;
pub use crate::server::ServeFault;
pub use crate::serving::serve;
pub use crate::session::Session;

//! Storage, output and input as traits, with objects in memory for tests, and objects over files and standard output.
//! It uses no other crate. The runner, the console, certificates and the programs use it. Each trait says what a call
//! does to the content, for objects that claim to know it. It counts the calls and the faults, so a fault is returned
//! only where the outside failed. `Claims`, `Counts` and `Calls` in `specs/` define this.
#![tactic(auto)]

mod disk;
mod either_keeper;
mod failing_calls;
mod faults;
mod file_inputs;
mod file_keeper;
mod flip_keeper;
mod inputs;
mod keeper;
mod laws;
mod memory_inputs;
mod memory_keeper;
mod memory_sink;
mod names;
mod output;
mod place;
mod sink;
mod stdout_sink;
mod storage;
mod transfer;

pub use crate::disk::{Disk, SystemDisk};
pub use crate::either_keeper::{AnyKeeper, EitherKeeper};
pub use crate::file_inputs::FileInputs;
pub use crate::file_keeper::FileKeeper;
pub use crate::flip_keeper::FlipKeeper;
pub use crate::inputs::{InputFault, Inputs, Whole};
pub use crate::keeper::{KeepFault, Keeper};
pub use crate::laws::{levels_have_files_of_their_own, levels_hold_what_their_files_hold};
pub use crate::memory_inputs::MemoryInputs;
pub use crate::memory_keeper::{MemoryKeeper, Op};
pub use crate::memory_sink::MemorySink;
pub use crate::output::Output;
pub use crate::sink::{Sink, SinkFault};
pub use crate::stdout_sink::StdoutSink;
pub use crate::storage::{CallCounts, Storage};

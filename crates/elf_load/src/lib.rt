//! Loads program files: the start state of an ELF file, or of raw words. It uses `rv_pages` and `rv_machine`.
//! `endings`, `reversal`, `reversal_gdb` and `case_files` use it. `specs/Program.antt` defines start states.
//! `specs/Elf.antt` and `specs/Raw.antt` say which bytes have one, and `specs/Faults.antt` why other bytes have none.
#![tactic(auto)]

mod apart;
mod fault;
mod file;
mod header;
pub mod laws;
mod loading;
mod pages;
mod segment;

pub use crate::fault::ElfFault;
pub use crate::loading::{load, load_raw, load_start};

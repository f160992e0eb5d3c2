//! Sends requests of gdb to sessions over a line in memory, and counts the expected replies. It uses `gdb_session`,
//! `case_files` and crates below them. The first argument names a file of inputs, each other one a file of
//! cases. Both have a JSON text a line.
//!
//! An input is a program or recorded input: `name`, and its bytes in `base64`. A program whose name ends in `.elf` is an
//! ELF file, and any other has raw words. A case has the names of a `program` and of a `journal`, if it reads one, and
//! the `most` steps of its run. It has the `budget` in bytes for kept states, and how many bytes come `at_once` at most.
//! Its `turns` are pairs of texts, a character for a byte: what comes, and the replies to it. If it has the number of a
//! call of the line in `failing`, that call fails. Then a beginning of the replies was sent, and the session ended by
//! the fault.
#![tactic(auto)]

ghost use Rattle.std.specs.Prelude.{◌≡◌, ◌<◌};
ghost use Rattle.rv_machine.specs.Prelude.{IsBlankOf};

mod case;
mod reply;

use case::{Case, case_of};
use case_files::{Cases, Difference, Inputs, arguments, exit_code, run_files};
use rv_machine::Steps;
use serde_json::Value;
use std::alloc::{AllocError, Global};
use std::marker::Brand;
use std::process::ExitCode;
use std::sync::ledger::{Blank, Ledger};

// Runs the sessions of the files that the arguments name.
fn main(rt: HostRuntime) -> ExitCode {
    match arguments(&rt) {
        Ok(words) => exit_code(run_files(&rt, &Sessions, words.as_slice())),
        Err(_) => ExitCode::FAILURE,
    }
}

#[derive(Clone, Copy)]
struct Sessions;

impl Cases for Sessions {
    fn difference(&self, alloc: Global, inputs: &Inputs, case: &Value) -> Difference {
        let case = case_of(alloc, inputs, case)?;
        Ok(wrong_of::<Brand>(alloc, case, Blank::new(1))?)
    }
}

// The difference in a case, if there is one.
fn wrong_of<L: Ledger>(
    alloc: Global,
    case: Case,
    blank: Blank,
) -> Result<Option<String>, AllocError>
    requires ledger { IsBlankOf blank.name blank.parts L.name L.parts }
    requires first { case.timeline.place ≡ 0 }
{
    let mut steps = Steps::<L>::new(blank);
    case.wrong(alloc, &mut steps)
}

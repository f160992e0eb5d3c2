//! Replays walks of timelines over runs of the machine, and prints how many passed. It uses `run_timeline`, `case_files`
//! and crates below them. No crate uses it. The first argument names a file of inputs, and each other one a file of
//! walks. Both have a JSON text a line.
//!
//! An input is a program, or recorded input: `name`, and its bytes in `base64`. A program whose name ends in `.elf` is
//! an ELF file, and any other has raw words.
//!
//! A walk names a `program`, and a `journal` if it reads one. `most` is the number of steps of its run. `budget` is the
//! bytes for the kept states. `orders` are described in `order.rt`. `sum` is that of the last state: see `sum.rt`. An
//! order is a text. After its `: ` it has the expected place and pc. It may also have a hit, how a step ended, or what
//! was written.
//!
//! With the words `--speed HOW FILE COUNT MARKS` it measures instead: see `speed.rt`.
#![tactic(auto)]

ghost use Rattle.std.specs.Prelude.{◌≡◌, ◌<◌};
ghost use Rattle.rv_machine.specs.Prelude.{IsBlankOf};

mod moves;
mod order;
mod speed;
mod sum;
mod walk;

use case_files::{Cases, Difference, Inputs, arguments, exit_code, run_files};
use rv_machine::Steps;
use serde_json::Value;
use speed::measure;
use std::alloc::{AllocError, Global};
use std::io;
use std::marker::Brand;
use std::process::ExitCode;
use std::sync::ledger::{Blank, Ledger};
use walk::{Walk, walk_of};

fn main(rt: HostRuntime) -> ExitCode {
    exit_code(run(&rt))
}

// Does what the arguments ask for.
fn run(rt: &HostRuntime) -> io::Result<bool> {
    let words = arguments(rt)?;
    match words.as_slice() {
        [flag, order @ ..] if flag.as_str() == "--speed" => measure(rt, order),
        files => run_files(rt, &Walks, files),
    }
}

#[derive(Clone, Copy)]
struct Walks;

impl Cases for Walks {
    fn difference(&self, alloc: Global, inputs: &Inputs, case: &Value) -> Difference {
        let walk = walk_of(alloc, inputs, case)?;
        Ok(first_wrong::<Brand>(alloc, walk, case, Blank::new(1))?)
    }
}

// The first deviation of a walk.
fn first_wrong<L: Ledger>(
    alloc: Global,
    mut walk: Walk,
    value: &Value,
    blank: Blank,
) -> Result<Option<String>, AllocError>
    requires { IsBlankOf blank.name blank.parts L.name L.parts }
{
    let mut steps = Steps::<L>::new(blank);
    walk.first_wrong(alloc, value, &mut steps)
}

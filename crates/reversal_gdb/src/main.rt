//! The program that lets gdb debug a recorded run, forward and backward. It loads the run, and answers gdb over standard
//! input and output. It uses `elf_load`, `run_timeline`, `gdb_line`, `gdb_session` and `requests`. The contract of
//! `gdb_session`'s `serve` says what is answered.
#![tactic(auto)]

ghost use Rattle.std.specs.Prelude.{◌≡◌, ◌≢◌, ◌<◌};
ghost use Rattle.rv_machine.specs.Prelude.{IsBlankOf};
ghost use Rattle.endings.specs.Prelude.{no_memory, stopped};
ghost use Rattle.gdb_session.specs.declared.server.ServeFault.TheVariants as fault_is;

mod loading;
mod options;
mod std_line;
mod usage;
mod words;

use crate::loading::timeline_of;
use crate::std_line::StdLine;
use crate::usage::USAGE;
use crate::words::{Asked, Run, read_words};
use endings::{Ended, Outcome, write_report};
use gdb_session::{ServeFault, serve};
use keepers::{FileInputs, SystemDisk};
use rv_machine::Steps;
use std::env;
use std::io::{self, Write};
use std::marker::Brand;
use std::process::ExitCode;
use std::sync::ledger::{Blank, Ledger};
use std::thread::Threads;

fn main(rt: HostRuntime) -> ExitCode {
    let words = match arguments(&rt) {
        Ok(words) => words,
        Err(error) if error.kind() == io::ErrorKind::OutOfMemory => return ExitCode::from(17),
        Err(_) => return ExitCode::FAILURE,
    };
    let Ok(asked) = read_words(rt.alloc(), words.as_slice()) else {
        return ExitCode::from(17);
    };
    match asked {
        Asked::Help => help(&mut rt.stdout()),
        Asked::Nothing => {
            let _ = rt.stderr().write_all(USAGE);
            ExitCode::from(2)
        }
        Asked::Session(run) => {
            let Ok(threads) = rt.clone() else {
                return ExitCode::from(17);
            };
            let mut line = StdLine::new(threads, rt.alloc(), rt.stdin(), rt.stdin(), rt.stdout());
            let ended = Ended::from(session::<HostRuntime, Brand>(
                &rt,
                &run,
                &mut line,
                Blank::new(1),
            ));
            // Where standard error can't be written, the status still tells how the session ended.
            let _ = write_report(&mut rt.stderr(), &ended);
            ExitCode::from(ended.status)
        }
    }
}

// The words of the command line.
fn arguments(rt: &HostRuntime) -> io::Result<Vec<String>> {
    Ok(env::args(rt)?.collect(rt.alloc())?)
}

// Prints the usage.
fn help<W: Write>(out: &mut W) -> ExitCode {
    match out.write_all(USAGE) {
        Ok(()) => ExitCode::SUCCESS,
        Err(_) => ExitCode::from(14),
    }
}

// Answers gdb. The result says how that ended.
fn session<R: Threads + Drop, L: Ledger>(
    rt: &HostRuntime,
    run: &Run<'_>,
    line: &mut StdLine<R>,
    blank: Blank,
) -> Outcome
    requires { IsBlankOf blank.name blank.parts L.name L.parts }
{
    match answered::<R, L>(rt, run, line, blank) {
        Ok(()) => Outcome::Done,
        Err(outcome) => outcome,
    }
}

// Answers gdb over the run, to its last word.
fn answered<R: Threads + Drop, L: Ledger>(
    rt: &HostRuntime,
    run: &Run<'_>,
    line: &mut StdLine<R>,
    blank: Blank,
) -> Result<(), Outcome>
    requires { IsBlankOf blank.name blank.parts L.name L.parts }
{
    let alloc = rt.alloc();
    let Ok(files) = rt.clone() else {
        return Err(Outcome::Memory);
    };
    let mut inputs = FileInputs::new(SystemDisk::new(files), alloc);
    let timeline = timeline_of(alloc, run, &mut inputs)?;
    let mut steps = Steps::<L>::new(blank);
    serve(alloc, timeline, line, &mut steps).map_err(ending_of)
}

// The ending after a fault.
fn ending_of(fault: ServeFault) -> Outcome
    ensures memory { fault ≡ fault_is.Memory → result ≡ no_memory }
    ensures stopped { fault ≢ fault_is.Memory → result ≡ stopped 0 }
{
    match fault {
        ServeFault::Memory => Outcome::Memory,
        _ => Outcome::Sink { place: 0 },
    }
}

//! Runs whole calls from files, one JSON text a line, and prints for each file how many passed. It uses `reversal`,
//! `reversal_program` and `memory_disk`. No crate uses it. It also prints how many passed over files too. A case has a
//! name, words, inputs, failures, and the expected outcome. `case.rt` reads the words, the inputs and the failures.
//! `seen.rt` describes the outcome. `over_files.rt` repeats the call by the program, over disks in memory. The cases of
//! `data/wrong.jsonl` must fail, which tests the reading of cases. `docs/CASES.md` says how to add one.
#![tactic(auto)]

ghost use Rattle.std.specs.Prelude.{◌≡◌, ◌<◌};
ghost use Rattle.rv_machine.specs.Prelude.{IsBlankOf};

mod bytes;
mod case;
mod case_keeper;
mod noted;
mod over_files;
mod seen;

use case::{Case, case_of};
use case_files::all_came;
use case_keeper::{CaseKeeper, seen_case_keeper};
use keepers::MemorySink;
use noted::NotedInputs;
use over_files::{files_case_of, hold_the_same, run_over_files, seen_of_ran};
use reversal::{Ended, reversal};
use rv_machine::Steps;
use seen::{Seen, outcome_of};
use serde_json::{Map, Value};
use std::alloc::{AllocError, Global};
use std::marker::Brand;
use std::sync::ledger::{Blank, Ledger};
use std::thread::Threads;
use std::{env, fs, io};

// The count of machine steps can't be read.
const UNSEEN: Option<&str> = Some("steps");

fn main(rt: HostRuntime) -> io::Result<()> {
    run_files(&rt, &rt)
}

// Runs the cases of each file that the arguments name.
fn run_files<T: Threads + Sync>(threads: &T, rt: &HostRuntime) -> io::Result<()> {
    for name in env::args(rt)?.skip(1) {
        run_file(threads, rt, name.as_str())?;
    }
    Ok(())
}

/// How a line's case ended.
#[derive(Clone, Copy, PartialEq, Eq)]
enum Verdict {
    /// Another outcome than expected.
    Failed,
    /// The expected outcome. The case doesn't run over files.
    Passed,
    /// The expected outcome, over files too.
    PassedTwice,
}

// Runs the cases of a file, and prints how many passed.
fn run_file<T: Threads + Sync>(threads: &T, rt: &HostRuntime, name: &str) -> io::Result<()> {
    let text = fs::read_to_string(rt, name)?;
    let mut verdicts = Vec::new(rt.alloc());
    for (place, line) in text.as_str().lines().enumerate() {
        let number = (place as u64).saturating_add(1);
        verdicts.push(run_line(threads, rt, name, number, line)?)?;
    }
    let count = |verdict| verdicts.iter().filter(|it| **it == verdict).count();
    let twice = count(Verdict::PassedTwice);
    let passed = count(Verdict::Passed).saturating_add(twice);
    let failed = count(Verdict::Failed);
    println!(rt; "{name} {passed} passed, {failed} failed, {twice} over files too")
}

// Makes the call of a line. If it passes, makes it over files too.
fn run_line<T: Threads + Sync>(
    threads: &T,
    rt: &HostRuntime,
    name: &str,
    number: u64,
    line: &str,
) -> io::Result<Verdict> {
    let alloc = rt.alloc();
    let Ok(value) = Value::from_str(alloc, line) else {
        println!(rt; "{name}:{number} is no JSON text")?;
        return Ok(Verdict::Failed);
    };
    let Some(wanted) = value.get("comes").and_then(Value::as_object) else {
        println!(rt; "{name}:{number} does not say what has to come")?;
        return Ok(Verdict::Failed);
    };
    let Ok(case) = case_of(alloc, &value) else {
        println!(rt; "{name}:{number} is no case")?;
        return Ok(Verdict::Failed);
    };
    let mut called = called::<T, Brand>(threads, case, Blank::new(1));
    let outcome = outcome_of(alloc, &seen_of(alloc, &called)?, wanted)?;
    if !all_came(rt, name, number, wanted, &outcome, UNSEEN)? {
        return Ok(Verdict::Failed);
    }
    run_again(
        threads,
        rt,
        name,
        number,
        &value,
        wanted,
        &mut called.keepers,
    )
}

// Makes the call over files.
fn run_again<T: Threads + Sync>(
    threads: &T,
    rt: &HostRuntime,
    name: &str,
    number: u64,
    value: &Value,
    wanted: &Map<String, Value>,
    keepers: &mut [CaseKeeper],
) -> io::Result<Verdict> {
    let alloc = rt.alloc();
    let Ok(case) = files_case_of(alloc, value) else {
        println!(rt; "{name}:{number} is no case over files")?;
        return Ok(Verdict::Failed);
    };
    let Some(case) = case else {
        return Ok(Verdict::Passed);
    };
    let mut ran = run_over_files::<T, Brand>(threads, case, Blank::new(1))?;
    let outcome = outcome_of(alloc, &seen_of_ran(alloc, &ran)?, wanted)?;
    if !all_came(rt, name, number, wanted, &outcome, UNSEEN)? {
        println!(rt; "{name}:{number} came otherwise over files")?;
        return Ok(Verdict::Failed);
    }
    if !hold_the_same(alloc, keepers, &mut ran.keepers) {
        println!(rt; "{name}:{number} left other images in files")?;
        return Ok(Verdict::Failed);
    }
    Ok(Verdict::PassedTwice)
}

/// A call that ended, with what it was given.
#[derive(Drop)]
struct MemoryRun {
    ended: Ended,
    inputs: NotedInputs,
    keepers: Vec<CaseKeeper>,
    out: MemorySink,
}

// What a case sees of a call.
fn seen_of(alloc: Global, called: &MemoryRun) -> Result<Seen<'_>, AllocError> {
    let mut keepers = Vec::new(alloc);
    for keeper in &called.keepers {
        keepers.push(seen_case_keeper(keeper))?;
    }
    Ok(Seen {
        ended: &called.ended,
        written: called.out.bytes(),
        asked: Some(called.inputs.names()),
        input_faults: called.inputs.faults(),
        sink_faults: called.out.faults(),
        keepers,
    })
}

// Makes the call of a case.
fn called<T: Threads + Sync, L: Ledger>(threads: &T, case: Case, blank: Blank) -> MemoryRun
    requires { IsBlankOf blank.name blank.parts L.name L.parts }
{
    let Case {
        alloc,
        words,
        mut inputs,
        mut keepers,
        mut out,
    } = case;
    let mut steps = Steps::<L>::new(blank);
    let ended = reversal(
        threads,
        alloc,
        &words,
        &mut inputs,
        &mut keepers,
        &mut out,
        &mut steps,
    );
    MemoryRun {
        ended,
        inputs,
        keepers,
        out,
    }
}

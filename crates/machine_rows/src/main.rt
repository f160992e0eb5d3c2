//! Runs steps of the machine from files, and prints for each file how many passed. It uses `rv_pages`, `rv_machine`,
//! `input_journal` and `case_files`. No crate uses it.
//!
//! In a file whose name ends in `.tsv` a line is one step. It has a name, the word, the pc, the registers rs1 and rs2,
//! and the pc after the step. The number of a register follows, and its value after the step. For a store an address
//! follows, and the three words from it on. All are hexadecimal but the register's number, which is decimal.
//!
//! In any other file a line is a JSON text: see `case.rt`.
#![tactic(auto)]

ghost use Rattle.std.specs.Prelude.{◌≡◌, ◌<◌, ◌≤◌, ◌%◌};
ghost use Rattle.rv_machine.specs.Prelude.{IsBlankOf};

mod case;
mod row;
mod seen;

use case::{Case, case_of};
use case_files::{all_came, exit_code};
use input_journal::Journal;
use row::{Row, Stored, row_of};
use rv_machine::{State, Status, Steps, step};
use rv_pages::Pages;
use seen::{Seen, outcome_of, run};
use serde_json::{Map, Value};
use std::alloc::{AllocError, Global};
use std::marker::Brand;
use std::process::ExitCode;
use std::sync::ledger::{Blank, Ledger};
use std::{env, fs, io};

fn main(rt: HostRuntime) -> ExitCode {
    exit_code(run_files(&rt))
}

// Whether all lines of the files that the arguments name passed.
fn run_files(rt: &HostRuntime) -> io::Result<bool> {
    let mut all = true;
    for name in env::args(rt)?.skip(1) {
        all &= run_file(rt, name.as_str())?;
    }
    Ok(all)
}

// Whether all lines of a file passed. It prints how many did.
fn run_file(rt: &HostRuntime, name: &str) -> io::Result<bool> {
    let text = fs::read_to_string(rt, name)?;
    let mut passed = 0u64;
    let mut failed = 0u64;
    for (index, line) in text.as_str().lines().enumerate() {
        if line.starts_with("#") {
            continue;
        }
        if run_line(rt, name, (index as u64).saturating_add(1), line)? {
            passed = passed.saturating_add(1);
        } else {
            failed = failed.saturating_add(1);
        }
    }
    println!(rt; "{name} {passed} passed, {failed} failed")?;
    Ok(failed == 0)
}

// Whether a line passed. It prints what didn't.
fn run_line(rt: &HostRuntime, name: &str, number: u64, line: &str) -> io::Result<bool> {
    if !name.ends_with(".tsv") {
        return run_case(rt, name, number, line);
    }
    let passed = row_passed(rt.alloc(), line)?;
    if !passed {
        println!(rt; "{name}:{number} {line}")?;
    }
    Ok(passed)
}

// Whether the case of a line passed.
fn run_case(rt: &HostRuntime, name: &str, number: u64, line: &str) -> io::Result<bool> {
    let alloc = rt.alloc();
    let Ok(value) = Value::from_str(alloc, line) else {
        println!(rt; "{name}:{number} is no JSON text")?;
        return Ok(false);
    };
    let Some(wanted) = value.get("comes").and_then(Value::as_object) else {
        println!(rt; "{name}:{number} does not say what has to come")?;
        return Ok(false);
    };
    let Ok(case) = case_of(alloc, &value) else {
        println!(rt; "{name}:{number} is no case")?;
        return Ok(false);
    };
    let seen = seen_by::<Brand>(alloc, case, wanted, Blank::new(1))?;
    let outcome = outcome_of(alloc, &seen, wanted)?;
    all_came(rt, name, number, wanted, &outcome, None)
}

// What is seen of a case.
fn seen_by<L: Ledger>(
    alloc: Global,
    case: Case,
    wanted: &Map<String, Value>,
    blank: Blank,
) -> Result<Seen, AllocError>
    requires { IsBlankOf blank.name blank.parts L.name L.parts }
{
    let mut steps = Steps::<L>::new(blank);
    run(alloc, case, wanted, &mut steps)
}

// Whether the row of a line passed.
fn row_passed(alloc: Global, line: &str) -> Result<bool, AllocError> {
    let Some(row) = row_of(line) else {
        return Ok(false);
    };
    if row.pc < LOWEST || row.pc % 4 != 0 {
        return Ok(false);
    }
    let state = stepped::<Brand>(alloc, &row, Blank::new(1))?;
    Ok(is_after(&state, &row))
}

// The state after the step of a row.
fn stepped<L: Ledger>(alloc: Global, row: &Row, blank: Blank) -> Result<State, AllocError>
    requires ledger { IsBlankOf blank.name blank.parts L.name L.parts }
    requires pc { 0x100000 ≤ row.now.pc }
    requires aligned { row.now.pc % 4 ≡ 0 }
{
    let mut steps = Steps::<L>::new(blank);
    let x = row.registers();
    let pages = memory(alloc, row)?;
    let mut state = State {
        pc: row.pc,
        x,
        status: Status::Running,
        item: 0,
        offset: 0,
        written: 0,
        pages,
    };
    step(&mut state, &Journal::none(alloc), &mut steps);
    Ok(state)
}

// No word of a row is below this address, so its page comes after the others.
const LOWEST: u32 = 0x100000;

// The page of the pc with its word, and pages 0x40 to 0x45 with the rows' bytes.
fn memory(alloc: Global, row: &Row) -> Result<Pages, AllocError>
    requires { 0x100000 ≤ row.now.pc }
{
    let numbers = [0x40, 0x41, 0x42, 0x43, 0x44, 0x45, row.pc / 4096];
    let mut pages = Pages::map(alloc, &numbers)?;
    for at in 0x40000..0x46000u32 {
        pages.store8(at, ((7 * at + 13 * (at / 256) + 5) % 256) as u8);
    }
    pages.store32(row.pc, row.word);
    Ok(pages)
}

// Whether a state is that after the step of a row.
fn is_after(state: &State, row: &Row) -> bool {
    state.status == Status::Running
        && state.pc == row.next
        && state.x[row.register()] == row.value
        && match &row.stored {
            None => true,
            Some(stored) => holds(&state.pages, stored),
        }
}

// Whether the three words of a store are there.
fn holds(pages: &Pages, stored: &Stored) -> bool {
    pages.load32(stored.at) == Some(stored.first)
        && pages.load32(stored.at.wrapping_add(4)) == Some(stored.second)
        && pages.load32(stored.at.wrapping_add(8)) == Some(stored.third)
}

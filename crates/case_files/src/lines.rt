// Runs the case of each line.

use crate::fault::CaseFault;
use crate::inputs::{Inputs, read_inputs};
use serde_json::Value;
use std::alloc::Global;
use std::process::ExitCode;
use std::{env, fs, io};

/// What came otherwise than a case says, if anything did.
pub type Difference = Result<Option<String>, CaseFault>;

/// What runs a case over inputs.
pub trait Cases {
    fn difference(&self, alloc: Global, inputs: &Inputs, case: &Value) -> Difference;
}

/// The arguments after the program's own name.
pub fn arguments(rt: &HostRuntime) -> io::Result<Vec<String>> {
    Ok(env::args(rt)?.skip(1).collect(rt.alloc())?)
}

/// Whether all cases passed. The first word names a file of inputs, each other one a file of cases. It prints how many
/// of each file did.
pub fn run_files<C: Cases>(rt: &HostRuntime, cases: &C, words: &[String]) -> io::Result<bool> {
    let Some((name, files)) = words.split_first() else {
        return Ok(false);
    };
    let Some(inputs) = read_inputs(rt, name.as_str())? else {
        return Ok(false);
    };
    let mut all = true;
    for file in files {
        all &= run_file(rt, cases, &inputs, file.as_str())?;
    }
    Ok(all)
}

/// The status of a program whose cases passed, or not.
pub fn exit_code(passed: io::Result<bool>) -> ExitCode {
    match passed {
        Ok(true) => ExitCode::SUCCESS,
        _ => ExitCode::FAILURE,
    }
}

fn run_file<C: Cases>(
    rt: &HostRuntime,
    cases: &C,
    inputs: &Inputs,
    name: &str,
) -> io::Result<bool> {
    let text = fs::read_to_string(rt, name)?;
    let mut passed = 0u64;
    let mut failed = 0u64;
    for (index, line) in text.as_str().lines().enumerate() {
        let number = (index as u64).saturating_add(1);
        if run_line(rt, cases, inputs, name, number, line)? {
            passed = passed.saturating_add(1);
        } else {
            failed = failed.saturating_add(1);
        }
    }
    println!(rt; "{name} {passed} passed, {failed} failed")?;
    Ok(failed == 0)
}

// Whether the case of a line passed. It prints the difference if not.
fn run_line<C: Cases>(
    rt: &HostRuntime,
    cases: &C,
    inputs: &Inputs,
    name: &str,
    number: u64,
    line: &str,
) -> io::Result<bool> {
    let Ok(case) = Value::from_str(rt.alloc(), line) else {
        println!(rt; "{name}:{number} is no JSON text")?;
        return Ok(false);
    };
    match cases.difference(rt.alloc(), inputs, &case) {
        Ok(None) => return Ok(true),
        Ok(Some(difference)) => println!(rt; "{name}:{number} {difference}")?,
        Err(CaseFault::Form) => println!(rt; "{name}:{number} is no case")?,
        Err(CaseFault::Memory) => println!(rt; "{name}:{number} wants more memory")?,
    }
    Ok(false)
}

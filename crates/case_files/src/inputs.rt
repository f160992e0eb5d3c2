// The programs of cases, and the recorded input that they read.

use crate::fault::CaseFault;
use crate::members::text_of;
use base64::engine::general_purpose::STANDARD;
use elf_load::load_start;
use input_journal::{Journal, read_journal};
use rv_machine::State;
use serde_json::Value;
use std::alloc::Global;
use std::{fs, io};

// How many pages the stack of a program has.
const STACK: u32 = 16;

/// Programs and recorded input, by their names.
#[derive(Drop)]
pub struct Inputs {
    list: Vec<Input>,
}

#[derive(Drop)]
struct Input {
    name: String,
    bytes: Vec<u8>,
}

/// The inputs of the file with this name. If a line is no input, or memory runs out, it prints that there are none.
pub(crate) fn read_inputs(rt: &HostRuntime, name: &str) -> io::Result<Option<Inputs>> {
    let text = fs::read_to_string(rt, name)?;
    match inputs_of(rt.alloc(), text.as_str()) {
        Ok(inputs) => Ok(Some(inputs)),
        Err(_) => {
            println!(rt; "{name} has no inputs")?;
            Ok(None)
        }
    }
}

// The inputs of a text. A line has a `name`, and the bytes in `base64`.
fn inputs_of(alloc: Global, text: &str) -> Result<Inputs, CaseFault> {
    let mut list = Vec::new(alloc);
    for line in text.lines() {
        if list.push(input_of(alloc, line)?).is_err() {
            return Err(CaseFault::Memory);
        }
    }
    Ok(Inputs { list })
}

fn input_of(alloc: Global, line: &str) -> Result<Input, CaseFault> {
    let Ok(value) = Value::from_str(alloc, line) else {
        return Err(CaseFault::Form);
    };
    let name = text_of(&value, "name")?;
    let Ok(bytes) = STANDARD.decode(alloc, text_of(&value, "base64")?.as_bytes()) else {
        return Err(CaseFault::Form);
    };
    Ok(Input {
        name: String::from_str(alloc, name)?,
        bytes,
    })
}

impl Inputs {
    // The bytes of the input with this name.
    fn bytes(&self, name: &str) -> Result<&[u8], CaseFault> {
        for input in &self.list {
            if input.name.as_str() == name {
                return Ok(input.bytes.as_slice());
            }
        }
        Err(CaseFault::Form)
    }

    /// The first state of the program with this name.
    pub fn program(&self, alloc: Global, name: &str) -> Result<State, CaseFault> {
        program_of(alloc, name, self.bytes(name)?)
    }

    /// The recorded input with this name.
    pub fn journal(&self, alloc: Global, name: &str) -> Result<Journal, CaseFault> {
        let bytes = Vec::from_slice(alloc, self.bytes(name)?)?;
        read_journal(alloc, bytes).map_err(|_| CaseFault::Form)
    }
}

/// The first state of a program. It is an ELF file if its name ends in `.elf`, and raw words otherwise.
pub fn program_of(alloc: Global, name: &str, bytes: &[u8]) -> Result<State, CaseFault> {
    load_start(alloc, !name.ends_with(".elf"), bytes, STACK).map_err(|_| CaseFault::Form)
}

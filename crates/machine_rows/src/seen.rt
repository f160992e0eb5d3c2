// What is seen of a case, and its outcome.

use crate::case::{Case, hexadecimal, register_of};
use input_journal::Journal;
use rv_machine::{State, Status, Steps, step, wrote};
use rv_pages::LAST_WORD;
use serde_json::{Map, Value, json, put};
use std::alloc::{AllocError, Global};
use std::sync::ledger::Ledger;

/// The last state, and the words that are looked at.
#[derive(Drop)]
pub struct Seen {
    state: State,
    words: Vec<Looked>,
}

// A word of the memory, and whether a step wrote a byte of it.
#[derive(Drop)]
struct Looked {
    at: u32,
    wrote: bool,
}

/// Takes the steps of a case, and notes which of the words that the expected `words` name a step wrote.
pub fn run<L: Ledger>(
    alloc: Global,
    case: Case,
    wanted: &Map<String, Value>,
    steps: &mut Steps<L>,
) -> Result<Seen, AllocError> {
    let Case {
        mut state,
        journal,
        steps: count,
    } = case;
    let mut words = looked_at(alloc, wanted)?;
    for _ in 0..count {
        look(&mut words, &state, &journal);
        step(&mut state, &journal, steps);
    }
    Ok(Seen { state, words })
}

// The words to read. A name that is no address is ignored.
fn looked_at(alloc: Global, wanted: &Map<String, Value>) -> Result<Vec<Looked>, AllocError> {
    let mut words = Vec::new(alloc);
    if let Some(members) = wanted.get("words").and_then(Value::as_object) {
        for (name, _) in members {
            if let Some(at) = hexadecimal(name.as_str()) {
                words.push(Looked { at, wrote: false })?;
            }
        }
    }
    Ok(words)
}

// Notes which words the next step writes.
fn look(words: &mut [Looked], state: &State, journal: &Journal) {
    for word in words.iter_mut() {
        if word.at <= LAST_WORD {
            word.wrote |= wrote(state, journal, word.at);
        }
    }
}

/// The outcome, in all that a case may mention.
pub fn outcome_of(
    alloc: Global,
    seen: &Seen,
    wanted: &Map<String, Value>,
) -> Result<Value, AllocError> {
    let state = &seen.state;
    json!(in alloc; {
        "pc": (address_of(alloc, state.pc)?),
        "status": (status_of(alloc, state.status)?),
        "x": (registers_of(alloc, &state.x, wanted)?),
        "item": (state.item),
        "offset": (state.offset),
        "written": (state.written),
        "words": (words_of(alloc, seen)?),
        "wrote": (wrote_of(alloc, seen)?)
    })
}

// A word with all of its digits.
fn address_of(alloc: Global, word: u32) -> Result<Value, AllocError> {
    Ok(Value::String(format!(in alloc; "{word:08x}")?))
}

// `run`, `exit` with the exit code, or `trap` with the cause.
fn status_of(alloc: Global, status: Status) -> Result<Value, AllocError> {
    let text = match status {
        Status::Running => format!(in alloc; "run")?,
        Status::Exited(code) => format!(in alloc; "exit {code}")?,
        Status::Trapped(cause) => format!(in alloc; "trap {cause}")?,
    };
    Ok(Value::String(text))
}

// The registers that are wanted.
fn registers_of(
    alloc: Global,
    x: &[u32; 32],
    wanted: &Map<String, Value>,
) -> Result<Value, AllocError> {
    let mut members = Map::new(alloc);
    if let Some(names) = wanted.get("x").and_then(Value::as_object) {
        for (name, _) in names {
            if let Some(register) = register_of(name.as_str()) {
                let word = x[register];
                let text = format!(in alloc; "{word:x}")?;
                put(&mut members, alloc, name.as_str(), Value::String(text))?;
            }
        }
    }
    Ok(Value::Object(members))
}

// The words that were read; null for one that is not mapped.
fn words_of(alloc: Global, seen: &Seen) -> Result<Value, AllocError> {
    let mut members = Map::new(alloc);
    for Looked { at, .. } in &seen.words {
        let value = match seen.state.pages.load32(*at) {
            Some(word) => address_of(alloc, word)?,
            None => Value::Null,
        };
        let name = format!(in alloc; "{at:08x}")?;
        put(&mut members, alloc, name.as_str(), value)?;
    }
    Ok(Value::Object(members))
}

// The addresses of the words that were written.
fn wrote_of(alloc: Global, seen: &Seen) -> Result<Value, AllocError> {
    let mut list = Vec::new(alloc);
    for word in &seen.words {
        if word.wrote {
            list.push(address_of(alloc, word.at)?)?;
        }
    }
    Ok(Value::Array(list))
}

// A case: what comes over a line, and the replies to it.
ghost use Rattle.std.specs.Prelude.{◌≡◌, ◌<◌, IfOk};

use crate::reply::joined;
use case_files::{CaseFault, Inputs, number_of, timeline_of};
use gdb_line::MemoryLine;
use gdb_session::{ServeFault, serve};
use run_timeline::Timeline;
use rv_machine::Steps;
use serde_json::Value;
use std::alloc::{AllocError, Global};
use std::sync::ledger::Ledger;

// The most bytes of the replies in a case.
const ROOM: u32 = 0x10_0000;

/// A line over which bytes come, the run of the session, and the replies.
#[derive(Drop)]
pub struct Case {
    timeline: Timeline,
    line: MemoryLine,
    wanted: Vec<u8>,
    fails: bool,
}

/// The case of a JSON value.
pub fn case_of(alloc: Global, inputs: &Inputs, value: &Value) -> Result<Case, CaseFault>
    ensures { IfOk result (λ case. case.timeline.place ≡ 0) }
{
    let (came, wanted) = turns_of(alloc, value)?;
    let line = MemoryLine::new(alloc, came, at_once_of(value)?, ROOM)?;
    let failing = value.get("failing").and_then(Value::as_u64);
    Ok(Case {
        timeline: timeline_of(alloc, inputs, value)?,
        line: line.failing(list_of(alloc, failing)?),
        wanted,
        fails: failing.is_some(),
    })
}

fn list_of(alloc: Global, number: Option<u64>) -> Result<Vec<u64>, AllocError> {
    let mut list = Vec::new(alloc);
    if let Some(number) = number {
        list.push(number)?;
    }
    Ok(list)
}

// How many bytes come at once.
fn at_once_of(value: &Value) -> Result<usize, CaseFault>
    ensures { IfOk result (λ n. 0 < n) }
{
    let count = number_of(value, "at_once")?;
    match usize::try_from(count) {
        Ok(count) if count > 0 => Ok(count),
        _ => Err(CaseFault::Form),
    }
}

// What comes, and the replies.
fn turns_of(alloc: Global, value: &Value) -> Result<(Vec<u8>, Vec<u8>), CaseFault> {
    let mut came = Vec::new(alloc);
    let mut went = Vec::new(alloc);
    for turn in value
        .get("turns")
        .and_then(Value::as_array)
        .ok_or(CaseFault::Form)?
    {
        let [asked, answered] = turn.as_array().ok_or(CaseFault::Form)?.as_slice() else {
            return Err(CaseFault::Form);
        };
        push_bytes(&mut came, asked)?;
        push_bytes(&mut went, answered)?;
    }
    Ok((came, went))
}

// Adds a byte for each character of a text.
fn push_bytes(bytes: &mut Vec<u8>, text: &Value) -> Result<(), CaseFault> {
    for character in text.as_str().ok_or(CaseFault::Form)?.chars() {
        let byte = u8::try_from(u32::from(character)).map_err(|_| CaseFault::Form)?;
        if bytes.push(byte).is_err() {
            return Err(CaseFault::Memory);
        }
    }
    Ok(())
}

impl Case {
    /// Serves what comes. The result is the first difference from the replies.
    pub fn wrong<L: Ledger>(
        self,
        alloc: Global,
        steps: &mut Steps<L>,
    ) -> Result<Option<String>, AllocError>
        requires { self.timeline.place ≡ 0 }
    {
        let Case {
            timeline,
            mut line,
            wanted,
            fails,
        } = self;
        let ended = serve(alloc, timeline, &mut line, steps);
        if ended != wanted_end(fails) {
            return Ok(Some(format!(in alloc; "ended by {ended:?}")?));
        }
        if fails {
            return wrong_beginning(alloc, wanted.as_slice(), line.went());
        }
        let wanted = joined(alloc, wanted.as_slice())?;
        let came = joined(alloc, line.went())?;
        first_difference(alloc, wanted.as_slice(), came.as_slice())
    }
}

// How a session ends.
fn wanted_end(fails: bool) -> Result<(), ServeFault> {
    if fails { Err(ServeFault::Line) } else { Ok(()) }
}

// The difference, unless what was sent is a beginning of the replies.
fn wrong_beginning(
    alloc: Global,
    wanted: &[u8],
    came: &[u8],
) -> Result<Option<String>, AllocError> {
    if wanted.starts_with(came) {
        return Ok(None);
    }
    first_difference(alloc, wanted, came)
}

// The first difference between the replies and what was sent.
fn first_difference(
    alloc: Global,
    wanted: &[u8],
    came: &[u8],
) -> Result<Option<String>, AllocError> {
    if wanted == came {
        return Ok(None);
    }
    let mut at = 0usize;
    for (one, other) in wanted.iter().zip(came) {
        if *one != *other {
            break;
        }
        at = at.saturating_add(1);
    }
    let wanted = text_from(alloc, wanted, at)?;
    let came = text_from(alloc, came, at)?;
    Ok(Some(format!(in alloc; "byte {at}: wanted {wanted}, came {came}")?))
}

// Some bytes from before a place on.
fn text_from(alloc: Global, bytes: &[u8], at: usize) -> Result<String, AllocError> {
    let start = at.saturating_sub(20).min(bytes.len());
    let end = at.saturating_add(60).min(bytes.len());
    String::from_utf8_lossy(alloc, &bytes[start..end])
}

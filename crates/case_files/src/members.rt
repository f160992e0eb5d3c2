// Members of a case.
ghost use Rattle.std.specs.Prelude.{◌≡◌, IfOk};

use crate::fault::CaseFault;
use crate::inputs::Inputs;
use input_journal::Journal;
use run_timeline::Timeline;
use serde_json::Value;
use std::alloc::Global;

/// A member that is a text.
pub fn text_of<'a>(value: &'a Value, name: &str) -> Result<&'a str, CaseFault> {
    value
        .get(name)
        .and_then(Value::as_str)
        .ok_or(CaseFault::Form)
}

/// A member that is a number from 0 to 2^64 - 1.
pub fn number_of(value: &Value, name: &str) -> Result<u64, CaseFault> {
    value
        .get(name)
        .and_then(Value::as_u64)
        .ok_or(CaseFault::Form)
}

/// The timeline over a run, at its first state. `program`: the name of an input. `journal`: that of its recorded input,
/// if it reads one. `most`: the number of steps. `budget`: the bytes for kept states.
pub fn timeline_of(alloc: Global, inputs: &Inputs, value: &Value) -> Result<Timeline, CaseFault>
    ensures { IfOk result (λ t. t.place ≡ 0) }
{
    let start = inputs.program(alloc, text_of(value, "program")?)?;
    let journal = match value.get("journal").and_then(Value::as_str) {
        Some(name) => inputs.journal(alloc, name)?,
        None => Journal::none(alloc),
    };
    let budget = number_of(value, "budget")?;
    let most = u32::try_from(number_of(value, "most")?).map_err(|_| CaseFault::Form)?;
    Ok(Timeline::begin(alloc, start, journal, budget, most)?)
}

// The run that a session is over.
ghost use Rattle.std.specs.Prelude.{◌≡◌, IfOk, IfErr};
ghost use Rattle.reversal_gdb.specs.Loading.{IsLoaded, IsUnloaded, budget_for};

use crate::words::Run;
use elf_load::load_start;
use endings::Outcome;
use input_journal::read_recorded;
use keepers::Inputs;
use requests::{InputKind, read_input};
use run_timeline::{MARK_PAGE_BYTES, MARK_REST_BYTES, Timeline};
use std::alloc::Global;

// The most bytes of all states that are kept.
const MOST_BYTES: u64 = 0x4000_0000;

/// The timeline over a run, at its first state.
pub fn timeline_of<I: Inputs>(
    alloc: Global,
    run: &Run<'_>,
    inputs: &mut I,
) -> Result<Timeline, Outcome>
    ensures loaded { IfOk result (IsLoaded run.now (I.told inputs.old)) }
    ensures refused { IfErr result (IsUnloaded I.Inputs run.now inputs.old inputs.new) }
{
    let options = &run.options;
    let program = read_input(
        alloc,
        1,
        &InputKind::Program.named(run.program.as_bytes()),
        inputs,
    )?;
    let start = load_start(alloc, options.raw, program.as_slice(), options.stack)?;
    let journal = match run.journal {
        Some(name) => Some(read_input(
            alloc,
            2,
            &InputKind::Journal.named(name.as_bytes()),
            inputs,
        )?),
        None => None,
    };
    let journal = read_recorded(alloc, journal)?;
    let budget = budget_for(options.marks, start.pages.count());
    Ok(Timeline::begin(alloc, start, journal, budget, options.most)?)
}

// The bytes for so many states with so many pages each, at most 1 GiB.
fn budget_for(marks: u32, pages: u32) -> u64
    ensures { result ≡ budget_for marks pages }
{
    let each = (pages as u64)
        .saturating_mul(MARK_PAGE_BYTES)
        .saturating_add(MARK_REST_BYTES);
    each.saturating_mul(marks as u64).min(MOST_BYTES)
}

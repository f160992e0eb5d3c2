// The states with which segments begin.
ghost use Rattle.std.specs.Prelude.{◌≡◌, ℕ, ◌+◌, ◌/◌, ◌<◌, ◌≤◌, IfOk, OnOk, length, slice_get, Some};
ghost use Rattle.plan_types.specs.declared.limits.TheConstants.{MOST_STEPS};
ghost use Rattle.rv_machine.specs.Prelude.{MachineState, state_number};
ghost use Rattle.segment_sweep.specs.MarkedRun.{StandFor, segment_width, last_start, MarkedRun, marked_code};

use input_journal::Journal;
use rv_machine::{State, Steps};
use std::alloc::{AllocError, Global};
use std::marker::Model;
use std::sync::ledger::Ledger;

/// The first state of each segment of a run. All segments have `width` states, but the last may have fewer.
#[derive(Drop)]
pub struct Marks {
    states: Vec<State>,
    count: u32,
    width: u32,
}

impl Marks {
    /// Marks the run from `start` with the states 0 to `count`, for at most so many workers. It takes memory for each
    /// mark and for one state more. It makes no image and takes no digest.
    pub fn make<L: Ledger>(
        alloc: Global,
        start: &State,
        journal: &Journal,
        count: u32,
        workers: u32,
        steps: &mut Steps<L>,
    ) -> Result<Marks, AllocError>
        requires few { count ≤ MOST_STEPS }
        requires workers { (1 ≤ workers) × (workers ≤ 64) }
        ensures stand { IfOk result (λ m. StandFor start.now journal.now m) }
        ensures count { IfOk result (λ m. m.count ≡ count) }
        ensures width { IfOk result (λ m. m.width ≡ segment_width count workers) }
        ensures segments { IfOk result (λ m. (length m.states ≡ count / m.width + 1) × (length m.states ≤ workers)) }

        // Each step is counted: all steps before the last segment, or some of them where memory runs out.
        ensures counted { OnOk result (steps.new ≡ steps.old + last_start count workers) }
        ensures most { steps.new ≤ steps.old + last_start count workers }
        ensures least { steps.old ≤ steps.new }
    {
        let width = count / workers + 1;
        let mut state = start.clone()?;
        let mut states = Vec::new(alloc);
        states.push(state.clone()?)?;
        for _ in 0..count / width {
            advance(&mut state, journal, width, steps);
            states.push(state.clone()?)?;
        }
        Ok(Marks {
            states,
            count,
            width,
        })
    }

    /// The number of the last state.
    pub(crate) fn count(&self) -> u32
        ensures { result ≡ self.now.count }
    {
        self.count
    }

    /// How many states each segment has but the last.
    pub(crate) fn width(&self) -> u32
        ensures { result ≡ self.now.width }
    {
        self.width
    }

    /// The number of segments.
    pub(crate) fn segments(&self) -> usize
        ensures { result ≡ length self.now.states }
    {
        self.states.len()
    }

    /// The first state of a segment.
    pub(crate) fn mark(&self, segment: usize) -> &State
        requires { segment < length self.now.states }
        ensures { slice_get self.now.states segment ≡ Some result.now }
    {
        &self.states[segment]
    }
}

impl Model for Marks {
    ghost Value = { MarkedRun };

    ghost coded = { marked_code };

    ghost view = { λ m. record { states = m.states.items; count = m.count; width = m.width } };
}

// Takes so many steps from a state of a run.
fn advance<L: Ledger>(state: &mut State, journal: &Journal, count: u32, steps: &mut Steps<L>)
    ensures state { (s : MachineState) (n : ℕ) → state.old ≡ state_number s journal.now n → state.new ≡ state_number s journal.now (n + count) }
    ensures counted { steps.new ≡ steps.old + count }
{
    rv_machine::advance(state, journal, count, steps);
}

// How the steps of a run are observed.
ghost use Rattle.std.specs.Prelude.{◌≡◌, ℕ, ◌+◌, ◌<◌, ◌≤◌, ◌^◌, ◌&&◌, ◌||◌, false, is_some};
ghost use Rattle.rv_machine.specs.Prelude.{state_number, Ends, GoesOn};
ghost use Rattle.run_timeline.specs.StepObservations.{breaks_at, is_hit, seen, writes_from, IsLastSeen};

use crate::stops::{Hit, Stops};
use input_journal::Journal;
use rv_machine::{Next, State, Steps, Stop, Watch, advance_until, advance_watched};
use std::sync::ledger::Ledger;

// Stops a run at a breakpoint, before a step that writes a watched byte, or both.
#[derive(Drop)]
struct Hits<'a, const BREAKS: bool, const WRITES: bool> {
    stops: &'a Stops,
}

impl<'a, const BREAKS: bool, const WRITES: bool> Stop for Hits<'a, BREAKS, WRITES> {
    ghost stops = { λ hits s journal. (BREAKS && breaks_at hits.stops.now s) || (WRITES && is_some (writes_from hits.stops.now journal s)) };

    ghost is_at = { λ hits s. BREAKS && breaks_at hits.stops.now s };

    #[inline(always)]
    fn is_at(&self, state: &State) -> bool {
        BREAKS && self.stops.breaks(state)
    }

    #[inline(always)]
    fn stops(&self, state: &State, journal: &Journal, next: &Next) -> bool {
        WRITES && self.stops.writes(state, journal, next).is_some()
    }
}

// Stops a run nowhere.
#[derive(Drop)]
pub(crate) struct Never;

impl Stop for Never {
    ghost stops = { λ _ _ _. false };

    ghost is_at = { λ _ _. false };

    #[inline(always)]
    fn is_at(&self, _state: &State) -> bool {
        false
    }

    #[inline(always)]
    fn stops(&self, _state: &State, _journal: &Journal, _next: &Next) -> bool {
        false
    }
}

// The first hit of a move backward among the steps observed so far, and its place. The next step is one from the place
// `at`.
#[derive(Drop)]
struct Last<'a> {
    stops: &'a Stops,
    at: u32,
    found: Option<(u32, Hit)>,
}

impl<'a> Watch for Last<'a> {
    ghost use Rattle.std.specs.Prelude.{◌+◌, ◌<◌, ◌^◌};
    ghost use Rattle.run_timeline.specs.LastWatcher.{IsNotedLast};

    ghost can_note = { λ last _ _. last.at + 1 < 2 ^ 32 };

    ghost noted = { IsNotedLast };

    #[inline(always)]
    fn note(&mut self, state: &State, journal: &Journal, next: &Next) {
        if let Some(which) = self.stops.writes(state, journal, next) {
            self.found = Some((self.at + 1, Hit::Watch(which)));
        } else if self.stops.breaks(state) {
            self.found = Some((self.at, Hit::Break));
        }
        self.at += 1;
    }
}

// Goes on by at most so many steps. It ends at the first stopped state, at a breakpoint, or before a step that writes a
// watched byte. It returns how many it took.
pub(crate) fn look_forward<L: Ledger>(
    work: &mut State,
    journal: &Journal,
    stops: &Stops,
    count: u32,
    steps: &mut Steps<L>,
) -> u32
    ensures within { result ≤ count }
    ensures state { work.new ≡ state_number work.old journal.now result }
    ensures counted { steps.new ≡ steps.old + result }
    ensures before { (k : ℕ) → k < result → GoesOn (is_hit stops.now) journal.now (state_number work.old journal.now k) }
    ensures end { result < count → Ends (is_hit stops.now) journal.now work.new }
{
    if stops.ranges.is_empty() {
        return advance_until(work, journal, count, steps, &Hits::<true, false> { stops });
    }
    if stops.addresses.is_empty() {
        return advance_until(work, journal, count, steps, &Hits::<false, true> { stops });
    }
    advance_until(work, journal, count, steps, &Hits::<true, true> { stops })
}

// Goes on by so many steps from a place. Returns what a move backward over them hits first, and where.
pub(crate) fn look_back<L: Ledger>(
    work: &mut State,
    journal: &Journal,
    stops: &Stops,
    from: u32,
    count: u32,
    steps: &mut Steps<L>,
) -> Option<(u32, Hit)>
    requires { from + count < 2 ^ 32 }
    ensures last { IsLastSeen (λ k. seen stops.now journal.now (from + k) (state_number work.old journal.now k)) count result }
    ensures state { work.new ≡ state_number work.old journal.now count }
    ensures counted { steps.new ≡ steps.old + count }
{
    let mut last = Last {
        stops,
        at: from,
        found: None,
    };
    advance_watched(work, journal, count, steps, &mut last);
    last.found
}

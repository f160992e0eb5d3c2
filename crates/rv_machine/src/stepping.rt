// One step of the machine.
ghost use Rattle.std.specs.Prelude.{◌≡◌, ◌+◌, ◌≤◌, ◌<◌, ◌↔◌, ℕ, Any, IsTrue, List, None, Some, cond, not};
ghost use Rattle.rv_pages.specs.declared.pages.TheConstants.{LAST_WORD};
ghost use Rattle.rv_pages.specs.Prelude.{bytes_at, page_numbers};
ghost use Rattle.rv_machine.specs.StateChanges.{addresses};
ghost use Rattle.rv_machine.specs.States.{state_number};
ghost use Rattle.rv_machine.specs.StepTable.{next, effect_at_pc, is_running, register_changed, written};
ghost use Rattle.rv_machine.specs.Output.{output};
ghost use Rattle.rv_machine.specs.Watchers.{AreNoted, CanNote, Ends, GoesOn, IsNext};

use crate::applying::apply;
use crate::changes::trap;
use crate::code_page::CodePage;
use crate::memo::Memo;
use crate::next::{Changes, Next};
use crate::span::Span;
use crate::state::State;
use crate::status::Status;
use crate::steps::Steps;
use crate::watch::{Nobody, Stop, Watch};
use input_journal::Journal;
use std::sync::ledger::Ledger;

// The causes of traps: the word at pc is not mapped, or is illegal.
const UNMAPPED: u8 = 1;

const ILLEGAL: u8 = 2;

/// Takes one step, with the recorded input. It takes no memory. A stopped state doesn't change, but the step counts.
pub fn step<L: Ledger>(state: &mut State, journal: &Journal, steps: &mut Steps<L>)
    ensures next { state.new ≡ next state.old journal.now }
    ensures counted { steps.new ≡ steps.old + 1 }
    ensures mapped { page_numbers state.new.memory ≡ page_numbers state.old.memory }
{
    advance(state, journal, 1, steps);
}

/// Takes so many steps, each like `step`.
pub fn advance<L: Ledger>(state: &mut State, journal: &Journal, count: u32, steps: &mut Steps<L>)
    ensures states { state.new ≡ state_number state.old journal.now count }
    ensures counted { steps.new ≡ steps.old + count }
    ensures mapped { page_numbers state.new.memory ≡ page_numbers state.old.memory }
{
    advance_watched(state, journal, count, steps, &mut Nobody);
}

/// Takes so many steps. A watcher looks at each before it is taken.
pub fn advance_watched<L: Ledger, W: Watch>(
    state: &mut State,
    journal: &Journal,
    count: u32,
    steps: &mut Steps<L>,
    watch: &mut W,
)
    requires { CanNote W.can_note W.noted state.old journal.now count watch.old }
    ensures states { state.new ≡ state_number state.old journal.now count }
    ensures counted { steps.new ≡ steps.old + count }
    ensures mapped { page_numbers state.new.memory ≡ page_numbers state.old.memory }
    ensures noted { AreNoted W.noted state.old journal.now count watch.old watch.new }
{
    steps.add(count);
    go_on(state, journal, count, &mut steps.memo, watch);
}

// Takes so many steps. All steps with one kind of watcher run in this single loop. The compiler inlines a step only if
// the program has one call of it. A call at each step costs a tenth of the time.
#[inline(never)]
fn go_on<W: Watch>(state: &mut State, journal: &Journal, count: u32, memo: &mut Memo, watch: &mut W)
    requires { CanNote W.can_note W.noted state.old journal.now count watch.old }
    ensures states { state.new ≡ state_number state.old journal.now count }
    ensures mapped { page_numbers state.new.memory ≡ page_numbers state.old.memory }
    ensures noted { AreNoted W.noted state.old journal.now count watch.old watch.new }
{
    let mut code = CodePage::none();
    for _ in 0..count {
        let next = Next::by(state, &mut code, memo);
        watch.note(state, journal, &next);
        take(state, journal, next);
    }
}

/// Takes at most so many steps, until the state stops or `stop` says so. It returns how many it took.
pub fn advance_until<L: Ledger, S: Stop>(
    state: &mut State,
    journal: &Journal,
    count: u32,
    steps: &mut Steps<L>,
    stop: &S,
) -> u32
    ensures within { result ≤ count }
    ensures states { state.new ≡ state_number state.old journal.now result }
    ensures counted { steps.new ≡ steps.old + result }
    ensures mapped { page_numbers state.new.memory ≡ page_numbers state.old.memory }
    ensures before { (k : ℕ) → k < result → GoesOn (S.stops stop.now) journal.now (state_number state.old journal.now k) }
    ensures end { result < count → Ends (S.stops stop.now) journal.now state.new }
{
    let taken = go_until(state, journal, count, &mut steps.memo, stop);
    steps.add(taken);
    taken
}

// Takes so many steps, or fewer if the run is stopped.
#[inline(never)]
fn go_until<S: Stop>(
    state: &mut State,
    journal: &Journal,
    count: u32,
    memo: &mut Memo,
    stop: &S,
) -> u32
    ensures within { result ≤ count }
    ensures states { state.new ≡ state_number state.old journal.now result }
    ensures mapped { page_numbers state.new.memory ≡ page_numbers state.old.memory }
    ensures before { (k : ℕ) → k < result → GoesOn (S.stops stop.now) journal.now (state_number state.old journal.now k) }
    ensures end { result < count → Ends (S.stops stop.now) journal.now state.new }
{
    let mut code = CodePage::none();
    for done in 0..count {
        if is_stopped(state) || stop.is_at(state) {
            return done;
        }
        let next = Next::by(state, &mut code, memo);
        if stop.stops(state, journal, &next) {
            return done;
        }
        take(state, journal, next);
    }
    count
}

// Whether a state doesn't run.
#[inline(always)]
fn is_stopped(state: &State) -> bool
    ensures { not result ≡ is_running state.now.status }
{
    match state.status {
        Status::Running => false,
        _ => true,
    }
}

// Takes the next step of a state, which is known.
#[inline(always)]
fn take(state: &mut State, journal: &Journal, step: Next)
    requires { IsNext step state.old }
    ensures next { state.new ≡ next state.old journal.now }
    ensures mapped { page_numbers state.new.memory ≡ page_numbers state.old.memory }
{
    match step.effect(state) {
        Some(effect) => apply(state, journal, effect),
        None => take_without_effect(state),
    }
}

// Takes a step without an effect. A stopped state stays as it is. Otherwise the word at pc is not mapped, or is
// illegal.
#[inline(never)]
fn take_without_effect(state: &mut State)
    requires { cond (is_running state.old.status) (effect_at_pc state.old) None ≡ None }
    ensures next { (journal : List (List ℕ)) → state.new ≡ next state.old journal }
    ensures mapped { page_numbers state.new.memory ≡ page_numbers state.old.memory }
{
    if is_stopped(state) {
        return;
    }
    match state.pages.load32(state.pc) {
        Some(_) => trap(state, ILLEGAL),
        None => trap(state, UNMAPPED),
    }
}

/// Whether the next step writes any of the four bytes from `word` on, even with an unchanged value.
pub fn wrote(state: &State, journal: &Journal, word: u32) -> bool
    requires { word ≤ LAST_WORD }
    ensures { IsTrue result ↔ Any (λ at. (word ≤ at) × (at < word + 4)) (written state.now journal.now) }
{
    let changes = next_changes(state, journal);
    meets(changes.at, changes.count, word)
}

/// Which register the next step may change, and which bytes it writes. It takes no memory.
pub fn next_changes(state: &State, journal: &Journal) -> Changes
    ensures register { result.register ≡ register_changed state.now }
    ensures few { result.register < 32 }
    ensures bytes { addresses result.at result.count ≡ written state.now journal.now }
{
    Next::of(state).changes(state, journal)
}

/// The bytes that the next step writes to the program's output. They are mapped and consecutive. There are none if it
/// writes nothing.
pub fn next_output(state: &State) -> Span
    ensures { bytes_at state.now.memory result.at result.count ≡ Some (output state.now) }
{
    Next::of(state).output(state)
}

// Whether so many addresses from `at` on overlap the four from `word` on, modulo 2 ^ 32. Then the first of the four is
// among them, or the first of them is among the four.
fn meets(at: u32, count: u32, word: u32) -> bool
    requires { word ≤ LAST_WORD }
    ensures { IsTrue result ↔ Any (λ a. (word ≤ a) × (a < word + 4)) (addresses at count) }
{
    count > 0 && (word.wrapping_sub(at) < count || at.wrapping_sub(word) < 4)
}

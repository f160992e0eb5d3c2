// A timeline over a run.
ghost use Rattle.std.specs.Prelude.{◌≡◌, ◌⊎◌, ℕ, ◌+◌, ◌*◌, ◌<◌, ◌≤◌, ⊤, max, length, IfOk, IfSome, MatchOption, Some, true};
ghost use Rattle.rv_pages.specs.Prelude.{page_numbers};
ghost use Rattle.input_journal.specs.Prelude.{IsRecorded};
ghost use Rattle.rv_machine.specs.Prelude.{IsMachineState, outputs};
ghost use Rattle.run_timeline.specs.declared.stops.Step.TheVariants.{Went};
ghost use Rattle.run_timeline.specs.Moves.{state as state_of, IsPlace, is_end as is_end_of, EndsForward, EndsBackward, CameForward, CameBackward, step_ahead, step_behind, steps_of, watched as watched_of};
ghost use Rattle.run_timeline.specs.MoveParts.{MatchPart};
ghost use Rattle.run_timeline.specs.TimelineState.{IsFew, marks_for as marks_of_budget, TimelineState, timeline_code};
ghost use Rattle.run_timeline.specs.TimelineFields.{timeline_state, IsTimeline};

use crate::stops::{Hit, Part, Step, Stops};
use crate::walk::{TRAIL, Walk};
use input_journal::Journal;
use rv_machine::{State, Steps};
use std::alloc::{AllocError, Global};
use std::marker::Model;
use std::sync::ledger::Ledger;
use unit_undo::Undo;

/// The bytes that a kept state takes for each of its pages, with the page's index.
pub const MARK_PAGE_BYTES: u64 = 4100;

/// The bytes that it takes beside its pages.
pub const MARK_REST_BYTES: u64 = 512;

// The most marks of a timeline.
const MOST_MARKS: u64 = 0x10_0000;

/// A run of the machine, and a place in it, which is the number of a state. It keeps some states of the run at equal
/// distances. As the run gets longer, every second one is dropped, and the distance doubles. Going to a place reached
/// before takes fewer steps than that distance; a search back also takes those that it looks at. Steps back one by one
/// are undone; the first one notes up to 1,024 steps for that. Only `begin` and `outputs_from` take memory.
#[derive(Drop)]
pub struct Timeline {
    walk: Walk,
    // The steps before the place that can be undone.
    undo: Undo,
}

impl Timeline {
    /// A timeline at the start of a run of at most so many steps. It keeps as many states as fit into so many bytes,
    /// each with all its pages. The system provides memory only for pages that are written.
    pub fn begin(
        alloc: Global,
        start: State,
        journal: Journal,
        budget_bytes: u64,
        most: u32,
    ) -> Result<Timeline, AllocError>
        ensures { IfOk result (λ t. t ≡ record {
          run = record { first = start; journal = journal; most = most };
          place = 0;
          reached = 0;
          room = marks_of_budget budget_bytes (length (page_numbers start.memory));
          trail = 0;
        }) }
    {
        let room = marks_for(budget_bytes, start.pages.count());
        let undo = Undo::begin(alloc, TRAIL, &journal)?;
        let walk = Walk::begin(alloc, start, journal, room, most)?;
        Ok(Timeline { walk, undo })
    }

    /// The number of the state at its place.
    pub fn place(&self) -> u32
        ensures { result ≡ self.now.place }
    {
        self.walk.place()
    }

    /// The greatest number of its places so far.
    pub fn reached(&self) -> u32
        ensures { result ≡ self.now.reached }
    {
        self.walk.reached()
    }

    /// The greatest possible number of a place.
    pub fn most(&self) -> u32
        ensures { result ≡ self.now.run.most }
    {
        self.walk.most()
    }

    /// The state at its place.
    pub fn state(&self) -> &State
        ensures { result.now ≡ state_of self.now.run self.now.place }
    {
        self.walk.state()
    }

    /// Does nothing. Its contract is a law: no state is stopped before the greatest place so far.
    pub fn are_places(&self)
        ensures places { IsPlace self.now.run self.now.reached }
        ensures known { self.now.place ≤ self.now.reached }
    {
        self.walk.are_places();
    }

    /// Does nothing. Its contract is a law: the run is one of a machine, over recorded input.
    pub fn is_machine_run(&self)
        ensures first { IsMachineState self.now.run.first }
        ensures recorded { IsRecorded self.now.run.journal }
    {
        self.walk.is_machine_run();
    }

    /// Goes to a place, or to the end of the run if that comes first.
    pub fn go_to<L: Ledger>(&mut self, place: u32, steps: &mut Steps<L>)
        requires { place ≤ self.old.run.most }
        ensures goes { (self.new.place ≡ place) ⊎ ((self.new.place < place) × (is_end_of self.old.run self.new.place ≡ true)) }
        ensures known { place ≤ self.old.reached → self.new.place ≡ place }
        ensures stays { self.new ≡ record self.old { place = self.new.place; reached = max self.old.reached self.new.place; trail = 0 } }
        ensures counted { (n : ℕ) × ((steps.new + self.old.reached ≤ steps.old + self.new.reached + n) × IsFew self.old n) }
    {
        self.undo.clear();
        self.walk.go_to(place, steps);
    }

    /// Goes on to the first hit, and returns it, or to the end of the run.
    pub fn run_forward<L: Ledger>(&mut self, stops: &Stops, steps: &mut Steps<L>) -> Option<Hit>
        ensures ends { EndsForward self.old.run stops.now self.old.place self.new.place result }
        ensures stays { self.new ≡ record self.old { place = self.new.place; reached = max self.old.reached self.new.place; trail = 0 } }
        ensures counted { steps.new + self.old.place ≡ steps.old + self.new.place }
    {
        self.undo.clear();
        self.walk.run_forward(stops, steps)
    }

    /// Begins a move forward: takes a step, if there is one and it writes no watched byte.
    pub fn begin_forward<L: Ledger>(&mut self, stops: &Stops, steps: &mut Steps<L>) -> Part
        ensures ends { MatchPart result (EndsForward self.old.run stops.now self.old.place self.new.place) (CameForward self.old.run stops.now self.old.place self.new.place) }
        ensures further { MatchPart result (λ _. ⊤) (self.new.place ≡ self.old.place + 1) }
        ensures stays { self.new ≡ record self.old { place = self.new.place; reached = max self.old.reached self.new.place; trail = 0 } }
        ensures counted { steps.new + self.old.place ≡ steps.old + self.new.place }
    {
        self.undo.clear();
        self.walk.begin_forward(stops, steps)
    }

    /// Continues a move forward that began elsewhere, up to the place of the next kept state.
    pub fn look_forward<L: Ledger>(&mut self, stops: &Stops, steps: &mut Steps<L>) -> Part
        ensures ends { (p : ℕ) → p < self.old.place → CameForward self.old.run stops.now p self.old.place →
            MatchPart result (EndsForward self.old.run stops.now p self.new.place) (CameForward self.old.run stops.now p self.new.place) }
        ensures further { MatchPart result (λ _. ⊤) (self.old.place < self.new.place) }
        ensures few { (n : ℕ) × ((self.new.place ≡ self.old.place + n) × IsFew self.old n) }
        ensures stays { self.new ≡ record self.old { place = self.new.place; reached = max self.old.reached self.new.place; trail = 0 } }
        ensures counted { steps.new + self.old.place ≡ steps.old + self.new.place }
    {
        self.undo.clear();
        self.walk.look_forward(stops, steps)
    }

    /// Continues a move backward that reached `end`, over the steps from the last earlier kept state. It returns the
    /// place of that state, and the first hit with its place. Afterwards it is at `end`.
    pub fn look_back<L: Ledger>(
        &mut self,
        end: u32,
        stops: &Stops,
        steps: &mut Steps<L>,
    ) -> (u32, Option<(u32, Hit)>)
        requires some { 0 < end }
        requires known { end ≤ self.old.reached }
        ensures from { result.0 < end }
        ensures near { IfSome result.1 (λ found. found.0 ≤ end) }
        ensures ends { (p : ℕ) → p ≤ self.old.reached → CameBackward self.old.run stops.now p end →
            MatchOption result.1 (CameBackward self.old.run stops.now p result.0) (λ found. EndsBackward self.old.run stops.now p found.0 (Some found.1)) }
        ensures stays { self.new ≡ record self.old { place = end; trail = 0 } }
        ensures few { (n : ℕ) × ((end ≡ result.0 + n) × IsFew self.old n) }
        ensures counted { steps.new + result.0 ≡ steps.old + end }
    {
        self.walk.are_places();
        self.undo.clear();
        self.walk.look_before(end, stops, steps)
    }

    /// The bytes that the steps from a place up to its own wrote to the program's output.
    pub fn outputs_from<L: Ledger>(
        &mut self,
        alloc: Global,
        from: u32,
        steps: &mut Steps<L>,
    ) -> Result<Vec<u8>, AllocError>
        requires { from ≤ self.old.place }
        ensures bytes { IfOk result (λ bytes. (n : ℕ) → self.old.place ≡ from + n → bytes.items ≡ outputs (state_of self.old.run from) self.old.run.journal n) }
        ensures stays { self.new ≡ self.old }
        ensures counted { (n : ℕ) × ((steps.new + from ≤ steps.old + self.old.place + n) × IsFew self.old n) }
    {
        self.walk.outputs_from(alloc, from, steps)
    }

    /// Goes back to the last hit, and returns it, or to the first place.
    pub fn run_back<L: Ledger>(&mut self, stops: &Stops, steps: &mut Steps<L>) -> Option<Hit>
        ensures ends { EndsBackward self.old.run stops.now self.old.place self.new.place result }
        ensures stays { self.new ≡ record self.old { place = self.new.place; trail = 0 } }
        ensures counted { (n : ℕ) × ((steps.new + self.new.place ≤ steps.old + self.old.place + 2 * n) × IsFew self.old n) }
    {
        self.undo.clear();
        self.walk.run_back(stops, steps)
    }

    /// Goes on by one step, if there is one and it writes no watched byte. It returns how that ended.
    pub fn step_forward<L: Ledger>(&mut self, stops: &Stops, steps: &mut Steps<L>) -> Step
        ensures value { result ≡ step_ahead self.old.run stops.now self.old.place }
        ensures goes { self.new.place ≡ self.old.place + steps_of result }
        ensures stays { self.new ≡ record self.old { place = self.new.place; reached = max self.old.reached self.new.place; trail = 0 } }
        ensures counted { steps.new ≡ steps.old + steps_of result }
    {
        self.undo.clear();
        self.walk.step_forward(stops, steps)
    }

    /// Goes back by one step, if there is one and it wrote no watched byte. It returns how that ended. Undoing a step
    /// takes no step of the machine.
    pub fn step_back<L: Ledger>(&mut self, stops: &Stops, steps: &mut Steps<L>) -> Step
        ensures value { result ≡ step_behind self.old.run stops.now self.old.place }
        ensures goes { self.new.place + steps_of result ≡ self.old.place }
        ensures stays { self.new ≡ record self.old { place = self.new.place; trail = self.new.trail } }
        ensures undone { 0 < self.old.trail → result ≡ Went → (steps.new ≡ steps.old) × (self.new.trail + 1 ≡ self.old.trail) }
        ensures traced { self.old.trail ≡ 0 → result ≡ Went → (steps.new ≡ steps.old + self.new.trail + 1) ⊎ (self.new.trail + 1 ≡ 1024) }
        ensures counted { (n : ℕ) × ((steps.new ≤ steps.old + n + 1) × IsFew self.old n) }
    {
        self.are_places();
        if self.place() == 0 {
            return Step::End;
        }
        self.prepare(steps);
        self.undo_step();
        match self.watched(stops) {
            None => Step::Went,
            Some(which) => {
                self.take_again(steps);
                Step::Watched(which)
            }
        }
    }

    // The first range with a byte that the next step writes.
    fn watched(&self, stops: &Stops) -> Option<usize>
        ensures { result ≡ watched_of self.now.run stops.now self.now.place }
    {
        self.walk.watched(stops)
    }

    // Notes the steps before the place, if none can be undone.
    fn prepare<L: Ledger>(&mut self, steps: &mut Steps<L>)
        requires { 0 < self.old.place }
        ensures ready { 0 < self.new.trail }
        ensures stays { self.new ≡ record self.old { trail = self.new.trail } }
        ensures kept { 0 < self.old.trail → (self.new.trail ≡ self.old.trail) × (steps.new ≡ steps.old) }
        ensures traced { self.old.trail ≡ 0 → (steps.new ≡ steps.old + self.new.trail) ⊎ (self.new.trail ≡ 1024) }
        ensures counted { (n : ℕ) × ((steps.new ≡ steps.old + n) × IsFew self.old n) }
    {
        if self.undo.count() > 0 {
            return;
        }
        self.walk.trace(&mut self.undo, steps);
    }

    // Goes back by the last noted step.
    fn undo_step(&mut self)
        requires { 0 < self.old.trail }
        ensures place { self.new.place + 1 ≡ self.old.place }
        ensures trail { self.new.trail + 1 ≡ self.old.trail }
        ensures stays { self.new ≡ record self.old { place = self.new.place; trail = self.new.trail } }
    {
        self.walk.go_back(&mut self.undo);
    }

    // Repeats a step that was taken before.
    fn take_again<L: Ledger>(&mut self, steps: &mut Steps<L>)
        requires { self.old.place < self.old.reached }
        ensures goes { self.new ≡ record self.old { place = self.old.place + 1; trail = 0 } }
        ensures counted { steps.new ≡ steps.old + 1 }
    {
        self.walk.are_places();
        self.undo.clear();
        let next = self.walk.place() + 1;
        self.walk.go_within(next, steps);
    }
}

impl Model for Timeline {
    ghost Value = { TimelineState };

    ghost coded = { timeline_code };

    ghost view = { timeline_state };

    ghost invariant = { IsTimeline };
}

// How many marks fit into so many bytes, if a state maps so many pages: at least two.
fn marks_for(budget_bytes: u64, pages: u32) -> u32
    ensures value { result ≡ marks_of_budget budget_bytes pages }
    ensures some { 2 ≤ result }
{
    let each = MARK_PAGE_BYTES * pages as u64 + MARK_REST_BYTES;
    (budget_bytes / each).clamp(2, MOST_MARKS) as u32
}

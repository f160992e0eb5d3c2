// A place in a run, and marks to go back to.
ghost use Rattle.std.specs.Prelude.{◌≡◌, ℕ, ◌+◌, ◌*◌, ◌^◌, ◌<◌, ◌≤◌, ◌⊎◌, ◌++◌, max, [], length, Option, IfOk, IsTrue, IsFalse, false, true};
ghost use Rattle.std.specs.Option.{option_map, option_or};
ghost use Rattle.input_journal.specs.Prelude.{IsRecorded};
ghost use Rattle.rv_machine.specs.Prelude.{IsMachineState, outputs, is_running, Ends, GoesOn};
ghost use Rattle.unit_undo.specs.Prelude.{IsMadeFor};
ghost use Rattle.run_timeline.specs.declared.stops.Hit.TheVariants.{Watch};
ghost use Rattle.run_timeline.specs.Moves.{state as state_of, IsPlace, is_end as is_end_of, broken, watched as watched_of};
ghost use Rattle.run_timeline.specs.StepObservations.{is_hit, seen, IsLastSeen};
ghost use Rattle.run_timeline.specs.UndoTrail.{Trails};
ghost use Rattle.run_timeline.specs.WalkState.{IsFew, WalkState, walk_code};
ghost use Rattle.run_timeline.specs.WalkFields.{walk_state, IsWalk};

use crate::collector::Collector;
use crate::marks::Marks;
use crate::observing::{Never, look_back, look_forward};
use crate::stops::{Hit, Stops};
use input_journal::Journal;
use rv_machine::{Next, State, Status, Steps, advance, advance_until, advance_watched};
use std::alloc::{AllocError, Global};
use std::marker::Model;
use std::sync::ledger::Ledger;
use unit_undo::Undo;

/// The most noted steps, which can be undone one after the other.
pub(crate) const TRAIL: u32 = 1024;

/// A run, and a place in it. It keeps marks: states at equal distances over the way that the run has reached.
#[derive(Drop)]
pub(crate) struct Walk {
    first: State,
    journal: Journal,
    marks: Marks,
    // The state at the place.
    work: State,
    place: u32,
    // The greatest place so far.
    reached: u32,
    most: u32,
}

impl Walk {
    /// A walk at the first state, with at most so many marks.
    pub(crate) fn begin(
        alloc: Global,
        first: State,
        journal: Journal,
        room: u32,
        most: u32,
    ) -> Result<Walk, AllocError>
        requires { 2 ≤ room }
        ensures { IfOk result (λ w. w ≡ record { run = record { first = first; journal = journal; most = most }; place = 0; reached = 0; room = room }) }
    {
        let marks = Marks::begin(alloc, &first, room)?;
        let work = first.clone()?;
        Ok(Walk {
            first,
            journal,
            marks,
            work,
            place: 0,
            reached: 0,
            most,
        })
    }

    /// The number of the state at its place.
    pub(crate) fn place(&self) -> u32
        ensures value { result ≡ self.now.place }
        ensures known { result ≤ self.now.reached }
    {
        self.place
    }

    /// The greatest place so far.
    pub(crate) fn reached(&self) -> u32
        ensures value { result ≡ self.now.reached }
        ensures within { result ≤ self.now.run.most }
    {
        self.reached
    }

    /// The greatest possible place.
    pub(crate) fn most(&self) -> u32
        ensures { result ≡ self.now.run.most }
    {
        self.most
    }

    /// The state at its place.
    pub(crate) fn state(&self) -> &State
        ensures { result.now ≡ state_of self.now.run self.now.place }
    {
        &self.work
    }

    /// Does nothing. Its contract is a law: no state is stopped before the greatest place so far.
    pub(crate) fn are_places(&self)
        ensures places { IsPlace self.now.run self.now.reached }
        ensures known { self.now.place ≤ self.now.reached }
        ensures small { self.now.run.most < 2 ^ 32 }
    {
        let _most = self.most;
    }

    /// Does nothing. Its contract is a law: the run is one of a machine, over recorded input.
    pub(crate) fn is_machine_run(&self)
        ensures first { IsMachineState self.now.run.first }
        ensures recorded { IsRecorded self.now.run.journal }
    {
        self.first.is_machine_state();
        self.journal.is_recorded();
    }

    /// Whether the run ends at its place: the state is stopped, or the run has its most steps.
    pub(crate) fn is_end(&self) -> bool
        ensures { result ≡ is_end_of self.now.run self.now.place }
    {
        match self.work.status {
            Status::Running => self.place == self.most,
            _ => true,
        }
    }

    /// The first range with a byte that the next step writes.
    pub(crate) fn watched(&self, stops: &Stops) -> Option<usize>
        ensures { result ≡ watched_of self.now.run stops.now self.now.place }
    {
        if self.is_end() {
            return None;
        }
        stops.writes(&self.work, &self.journal, &Next::of(&self.work))
    }

    // The hit of a move forward at its place, if the move began elsewhere.
    pub(crate) fn hit(&self, stops: &Stops) -> Option<Hit>
        ensures { result ≡ option_or (broken self.now.run stops.now self.now.place) (option_map Watch (watched_of self.now.run stops.now self.now.place)) }
    {
        if stops.breaks(&self.work) {
            return Some(Hit::Break);
        }
        match self.watched(stops) {
            Some(which) => Some(Hit::Watch(which)),
            None => None,
        }
    }

    // Goes to the last mark up to a place that was reached.
    fn go_to_mark(&mut self, place: u32)
        requires { place ≤ self.old.reached }
        ensures near { self.new.place ≤ place }
        ensures few { (n : ℕ) × ((place ≡ self.new.place + n) × ((n + 1) * self.old.room ≤ max self.old.room (2 * self.old.reached))) }
        ensures stays { self.new ≡ record self.old { place = self.new.place } }
    {
        self.first.is_machine_state();
        self.journal.is_recorded();
        let (mark, at) = self.marks.last_to(place);
        mark.give(&mut self.work);
        self.place = at;
    }

    // Whether its place is before a place that was reached, with no mark between them.
    fn is_near(&self, place: u32) -> bool
        requires { place ≤ self.now.reached }
        ensures behind { IsTrue result → self.now.place ≤ place }
        ensures few { IsTrue result → (n : ℕ) × ((place ≡ self.now.place + n) × IsFew self.now n) }
    {
        if place < self.place {
            return false;
        }
        self.marks.last_to(place).1 <= self.place
    }

    // Goes to the last mark up to a place, unless it is already nearer before that place.
    fn come_near(&mut self, place: u32)
        requires { place ≤ self.old.reached }
        ensures near { self.new.place ≤ place }
        ensures few { (n : ℕ) × ((place ≡ self.new.place + n) × IsFew self.old n) }
        ensures stays { self.new ≡ record self.old { place = self.new.place } }
    {
        if self.is_near(place) {
            return;
        }
        self.go_to_mark(place);
    }

    /// Goes on to a place that was reached.
    pub(crate) fn go_within<L: Ledger>(&mut self, place: u32, steps: &mut Steps<L>)
        requires behind { self.old.place ≤ place }
        requires known { place ≤ self.old.reached }
        ensures goes { self.new ≡ record self.old { place = place } }
        ensures counted { steps.new + self.old.place ≡ steps.old + place }
    {
        advance(&mut self.work, &self.journal, place - self.place, steps);
        self.place = place;
    }

    /// Goes to a place that was reached.
    pub(crate) fn return_to<L: Ledger>(&mut self, place: u32, steps: &mut Steps<L>)
        requires { place ≤ self.old.reached }
        ensures goes { self.new ≡ record self.old { place = place } }
        ensures counted { (n : ℕ) × ((steps.new ≡ steps.old + n) × (n ≤ place) × IsFew self.old n) }
    {
        self.come_near(place);
        self.go_within(place, steps);
    }

    // Goes on to a place, to an earlier mark, or to the first state that is stopped.
    pub(crate) fn go_towards<L: Ledger>(&mut self, place: u32, steps: &mut Steps<L>)
        requires behind { self.old.place < place }
        requires within { place ≤ self.old.run.most }
        requires runs { is_running (state_of self.old.run self.old.place).status ≡ true }
        ensures further { self.old.place < self.new.place }
        ensures at_most { self.new.place ≤ place }
        ensures stays { self.new ≡ record self.old { place = self.new.place; reached = max self.old.reached self.new.place } }
        ensures counted { steps.new + self.old.place ≡ steps.old + self.new.place }
    {
        let end = self.marks.end_towards(place);
        let count = end - self.place;
        let taken = advance_until(&mut self.work, &self.journal, count, steps, &Never);
        self.place += taken;
        self.reached = self.reached.max(self.place);
        self.marks.pass(&self.work, self.place);
    }

    // Goes on to the next mark, the last place, or the first state where a move forward ends. It returns whether it
    // found such a state before the mark.
    pub(crate) fn look_towards<L: Ledger>(&mut self, stops: &Stops, steps: &mut Steps<L>) -> bool
        requires { self.old.place < self.old.run.most }
        ensures within { (self.old.place ≤ self.new.place) × (self.new.place ≤ self.old.run.most) }
        ensures before { (k : ℕ) → self.old.place ≤ k → k < self.new.place → GoesOn (is_hit stops.now) self.old.run.journal (state_of self.old.run k) }
        ensures ends { IsTrue result → Ends (is_hit stops.now) self.old.run.journal (state_of self.old.run self.new.place) }
        ensures further { IsFalse result → self.old.place < self.new.place }
        ensures few { (n : ℕ) × ((self.new.place ≡ self.old.place + n) × IsFew self.old n) }
        ensures stays { self.new ≡ record self.old { place = self.new.place; reached = max self.old.reached self.new.place } }
        ensures counted { steps.new + self.old.place ≡ steps.old + self.new.place }
    {
        let end = self.marks.end_after(self.place, self.most);
        let count = end - self.place;
        let taken = look_forward(&mut self.work, &self.journal, stops, count, steps);
        self.place += taken;
        self.reached = self.reached.max(self.place);
        self.marks.pass(&self.work, self.place);
        taken < count
    }

    // Goes on to a place that was reached. Returns what a move backward over these steps hits first, and where.
    fn look_to<L: Ledger>(
        &mut self,
        end: u32,
        stops: &Stops,
        steps: &mut Steps<L>,
    ) -> Option<(u32, Hit)>
        requires behind { self.old.place ≤ end }
        requires known { end ≤ self.old.reached }
        ensures last { (n : ℕ) → end ≡ self.old.place + n →
            IsLastSeen (λ k. seen stops.now self.old.run.journal (self.old.place + k) (state_of self.old.run (self.old.place + k))) n result }
        ensures goes { self.new ≡ record self.old { place = end } }
        ensures counted { steps.new + self.old.place ≡ steps.old + end }
    {
        let from = self.place;
        let last = look_back(
            &mut self.work,
            &self.journal,
            stops,
            from,
            end - from,
            steps,
        );
        self.place = end;
        last
    }

    // Goes from the last mark before a place to that place. It returns the place of the mark. It also returns what a
    // move backward from there hits first, and where.
    pub(crate) fn look_before<L: Ledger>(
        &mut self,
        end: u32,
        stops: &Stops,
        steps: &mut Steps<L>,
    ) -> (u32, Option<(u32, Hit)>)
        requires some { 0 < end }
        requires known { end ≤ self.old.reached }
        ensures from { result.0 < end }
        ensures few { (n : ℕ) × ((end ≡ result.0 + n) × IsFew self.old n) }
        ensures last { (n : ℕ) → end ≡ result.0 + n →
            IsLastSeen (λ k. seen stops.now self.old.run.journal (result.0 + k) (state_of self.old.run (result.0 + k))) n result.1 }
        ensures goes { self.new ≡ record self.old { place = end } }
        ensures counted { steps.new + result.0 ≡ steps.old + end }
    {
        self.go_to_mark(end - 1);
        let from = self.place();
        (from, self.look_to(end, stops, steps))
    }

    // Goes on to a place that was reached, and notes each step.
    fn note_to<L: Ledger>(&mut self, place: u32, undo: &mut Undo, steps: &mut Steps<L>)
        requires behind { self.old.place ≤ place }
        requires known { place ≤ self.old.reached }
        requires empty { undo.old.entries ≡ [] }
        requires unit { place ≤ self.old.place + undo.old.unit }
        requires made { IsMadeFor self.old.run.journal undo.old }
        ensures goes { self.new ≡ record self.old { place = place } }
        ensures counted { steps.new + self.old.place ≡ steps.old + place }
        ensures trail { Trails undo.new.entries self.old.run place }
        ensures count { length undo.new.entries + self.old.place ≡ place }
        ensures same { undo.new ≡ record undo.old { entries = undo.new.entries } }
    {
        advance_watched(
            &mut self.work,
            &self.journal,
            place - self.place,
            steps,
            undo,
        );
        self.place = place;
    }

    /// Notes the steps before the place, from the last earlier mark on, as far as there is room.
    pub(crate) fn trace<L: Ledger>(&mut self, undo: &mut Undo, steps: &mut Steps<L>)
        requires some { 0 < self.old.place }
        requires empty { undo.old.entries ≡ [] }
        requires unit { undo.old.unit ≡ 1024 }
        requires made { IsMadeFor self.old.run.journal undo.old }
        ensures stays { self.new ≡ self.old }
        ensures trail { Trails undo.new.entries self.old.run self.old.place }
        ensures some { 0 < length undo.new.entries }
        ensures counted { (n : ℕ) × ((steps.new ≡ steps.old + n) × IsFew self.old n × ((n ≡ length undo.new.entries) ⊎ (length undo.new.entries ≡ 1024))) }
        ensures same { undo.new ≡ record undo.old { entries = undo.new.entries } }
    {
        let end = self.place();
        self.go_to_mark(end - 1);
        let start = self.place().max(end.saturating_sub(TRAIL));
        self.go_within(start, steps);
        self.note_to(end, undo, steps);
    }

    /// The bytes that the steps from a place up to its own wrote to the output.
    pub(crate) fn outputs_from<L: Ledger>(
        &mut self,
        alloc: Global,
        from: u32,
        steps: &mut Steps<L>,
    ) -> Result<Vec<u8>, AllocError>
        requires { from ≤ self.old.place }
        ensures bytes { IfOk result (λ bytes. (n : ℕ) → self.old.place ≡ from + n → bytes.items ≡ outputs (state_of self.old.run from) self.old.run.journal n) }
        ensures stays { self.new ≡ self.old }
        ensures counted { (n : ℕ) × ((steps.new + from ≤ steps.old + self.old.place + n) × IsFew self.old n) }
    {
        let end = self.place();
        self.return_to(from, steps);
        let mut collector = Collector::new(alloc);
        self.collect_to(end, &mut collector, steps);
        collector.finish()
    }

    // Goes on to a place that was reached, and collects what the steps write.
    fn collect_to<L: Ledger>(&mut self, place: u32, collector: &mut Collector, steps: &mut Steps<L>)
        requires behind { self.old.place ≤ place }
        requires known { place ≤ self.old.reached }
        ensures goes { self.new ≡ record self.old { place = place } }
        ensures counted { steps.new + self.old.place ≡ steps.old + place }
        ensures bytes { (n : ℕ) → place ≡ self.old.place + n → collector.new.failed ≡ false →
            (collector.old.failed ≡ false) × (collector.new.bytes.items ≡ collector.old.bytes.items ++ outputs (state_of self.old.run self.old.place) self.old.run.journal n) }
    {
        advance_watched(
            &mut self.work,
            &self.journal,
            place - self.place,
            steps,
            collector,
        );
        self.place = place;
    }

    /// Goes back by one step that was noted.
    pub(crate) fn go_back(&mut self, undo: &mut Undo)
        requires some { 0 < length undo.old.entries }
        requires trail { Trails undo.old.entries self.old.run self.old.place }
        ensures place { self.new.place + 1 ≡ self.old.place }
        ensures stays { self.new ≡ record self.old { place = self.new.place } }
        ensures trail { Trails undo.new.entries self.old.run self.new.place }
        ensures count { length undo.new.entries + 1 ≡ length undo.old.entries }
        ensures same { undo.new ≡ record undo.old { entries = undo.new.entries } }
    {
        undo.back(&mut self.work);
        self.place -= 1;
    }
}

impl Model for Walk {
    ghost Value = { WalkState };

    ghost coded = { walk_code };

    ghost view = { walk_state };

    ghost invariant = { IsWalk };
}

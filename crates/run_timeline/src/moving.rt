// Moves over a run.
ghost use Rattle.std.specs.Prelude.{◌≡◌, ◌⊎◌, ℕ, ◌+◌, ◌*◌, ◌<◌, ◌≤◌, ⊤, max, true};
ghost use Rattle.run_timeline.specs.Moves.{is_end as is_end_of, EndsForward, EndsBackward, CameForward, step_ahead, steps_of};
ghost use Rattle.run_timeline.specs.MoveParts.{MatchPart};
ghost use Rattle.run_timeline.specs.WalkState.{IsFew};

use crate::stops::{Hit, Part, Step, Stops};
use crate::walk::Walk;
use rv_machine::Steps;
use std::sync::ledger::Ledger;

impl Walk {
    /// Goes to a place, or to the end of the run if that comes first.
    pub(crate) fn go_to<L: Ledger>(&mut self, place: u32, steps: &mut Steps<L>)
        requires { place ≤ self.old.run.most }
        ensures goes { (self.new.place ≡ place) ⊎ ((self.new.place < place) × (is_end_of self.old.run self.new.place ≡ true)) }
        ensures known { place ≤ self.old.reached → self.new.place ≡ place }
        ensures stays { self.new ≡ record self.old { place = self.new.place; reached = max self.old.reached self.new.place } }
        ensures counted { (n : ℕ) × ((steps.new + self.old.reached ≤ steps.old + self.new.reached + n) × IsFew self.old n) }
    {
        let near = place.min(self.reached());
        self.return_to(near, steps);
        while self.place() < place {
            if self.is_end() {
                return;
            }
            self.go_towards(place, steps);
        }
    }

    /// Goes on to the first hit, and returns it, or to the end of the run.
    pub(crate) fn run_forward<L: Ledger>(
        &mut self,
        stops: &Stops,
        steps: &mut Steps<L>,
    ) -> Option<Hit>
        ensures ends { EndsForward self.old.run stops.now self.old.place self.new.place result }
        ensures stays { self.new ≡ record self.old { place = self.new.place; reached = max self.old.reached self.new.place } }
        ensures counted { steps.new + self.old.place ≡ steps.old + self.new.place }
    {
        if let Part::Ended(hit) = self.begin_forward(stops, steps) {
            return hit;
        }
        loop {
            if let Part::Ended(hit) = self.look_forward(stops, steps) {
                return hit;
            }
        }
    }

    /// Begins a move forward: takes a step, if there is one and it writes no watched byte.
    pub(crate) fn begin_forward<L: Ledger>(&mut self, stops: &Stops, steps: &mut Steps<L>) -> Part
        ensures ends { MatchPart result (EndsForward self.old.run stops.now self.old.place self.new.place) (CameForward self.old.run stops.now self.old.place self.new.place) }
        ensures further { MatchPart result (λ _. ⊤) (self.new.place ≡ self.old.place + 1) }
        ensures stays { self.new ≡ record self.old { place = self.new.place; reached = max self.old.reached self.new.place } }
        ensures counted { steps.new + self.old.place ≡ steps.old + self.new.place }
    {
        self.are_places();
        if self.is_end() {
            return Part::Ended(None);
        }
        if let Some(which) = self.watched(stops) {
            return Part::Ended(Some(Hit::Watch(which)));
        }
        let next = self.place() + 1;
        self.go_towards(next, steps);
        Part::GoesOn
    }

    /// Continues a move that began elsewhere, up to the next mark.
    pub(crate) fn look_forward<L: Ledger>(&mut self, stops: &Stops, steps: &mut Steps<L>) -> Part
        ensures ends { (p : ℕ) → p < self.old.place → CameForward self.old.run stops.now p self.old.place →
            MatchPart result (EndsForward self.old.run stops.now p self.new.place) (CameForward self.old.run stops.now p self.new.place) }
        ensures further { MatchPart result (λ _. ⊤) (self.old.place < self.new.place) }
        ensures within { (self.old.place ≤ self.new.place) × (self.new.place ≤ self.old.run.most) }
        ensures few { (n : ℕ) × ((self.new.place ≡ self.old.place + n) × IsFew self.old n) }
        ensures stays { self.new ≡ record self.old { place = self.new.place; reached = max self.old.reached self.new.place } }
        ensures counted { steps.new + self.old.place ≡ steps.old + self.new.place }
    {
        self.are_places();
        if self.place() < self.most() && !self.look_towards(stops, steps) {
            return Part::GoesOn;
        }
        Part::Ended(self.hit(stops))
    }

    /// Goes back to the last hit, and returns it, or to the first place.
    pub(crate) fn run_back<L: Ledger>(&mut self, stops: &Stops, steps: &mut Steps<L>) -> Option<Hit>
        ensures ends { EndsBackward self.old.run stops.now self.old.place self.new.place result }
        ensures stays { self.new ≡ record self.old { place = self.new.place } }
        ensures counted { (n : ℕ) × ((steps.new + self.new.place ≤ steps.old + self.old.place + 2 * n) × IsFew self.old n) }
    {
        self.are_places();
        let mut end = self.place();
        while end > 0 {
            let (from, last) = self.look_before(end, stops, steps);
            if let Some((at, hit)) = last {
                self.return_to(at, steps);
                return Some(hit);
            }
            end = from;
        }
        self.return_to(0, steps);
        None
    }

    /// Goes on by one step, if there is one and it writes no watched byte. It returns how that ended.
    pub(crate) fn step_forward<L: Ledger>(&mut self, stops: &Stops, steps: &mut Steps<L>) -> Step
        ensures value { result ≡ step_ahead self.old.run stops.now self.old.place }
        ensures goes { self.new.place ≡ self.old.place + steps_of result }
        ensures stays { self.new ≡ record self.old { place = self.new.place; reached = max self.old.reached self.new.place } }
        ensures counted { steps.new ≡ steps.old + steps_of result }
    {
        self.are_places();
        if self.is_end() {
            return Step::End;
        }
        if let Some(which) = self.watched(stops) {
            return Step::Watched(which);
        }
        let next = self.place() + 1;
        self.go_towards(next, steps);
        Step::Went
    }
}

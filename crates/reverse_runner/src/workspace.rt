// What a session works with: its desk, and its tape.
ghost use Rattle.std.specs.Prelude.{◌≡◌, ◌+◌, ◌<◌, ◌≤◌, ◌^◌, ◌∷◌, ℕ, [], length, Err, IfOk, OnOk, OnErr};
ghost use Rattle.std.specs.Vec.{vec_capacity};
ghost use Rattle.std.specs.List.{AllByRecursion};
ghost use Rattle.level_book.specs.Prelude.{slots_of};
ghost use Rattle.rv_machine.specs.Prelude.{state_number};
ghost use Rattle.unit_undo.specs.Prelude.{begun as begun_undo, IsMadeFor, LeadsBack, states_below};
ghost use Rattle.unit_digests.specs.Prelude.{states_of, AreDigests, IsKnown, HasPages};
ghost use Rattle.image_store.specs.Prelude.{no_pairs_on};
ghost use Rattle.reverse_runner.specs.Prelude.{numbers_from, VisitorAfter, HandsOut, SamePages};

use crate::desk::Desk;
use crate::fault::RunFault;
use crate::known_state::KnownState;
use crate::visitor::{Visitor, hand_out};
use input_journal::Journal;
use level_book::Book;
use plan_types::NoGate;
use rv_machine::{State, Steps};
use std::alloc::{AllocError, Global};
use std::sync::ledger::Ledger;
use std::thread::Threads;
use unit_digests::Digesters;
use unit_undo::Undo;

/// A desk, and the tape. The tape has a unit: the state after it, and the undo list that leads back over its states.
#[derive(Drop)]
pub(crate) struct Workspace {
    pub desk: Desk,
    pub tape: KnownState,
    pub undo: Undo,
    // The digests that are known of the states on the tape, in the order of the run.
    pub known: Vec<Option<[u8; 32]>>,
}

impl Workspace {
    ghost use Rattle.reverse_runner.specs.DeskFields.{Fits};
    ghost use Rattle.reverse_runner.specs.Workspaces.{IsInOrder, HasTape, tape_in};

    /// A workspace with a state in work, and no images. It takes all memory that it ever needs.
    pub fn begin(
        alloc: Global,
        start: State,
        journal: &Journal,
        book: &Book,
        steps: u32,
        unit: u32,
    ) -> Result<Workspace, AllocError>
        requires { (1 ≤ unit) × (unit ≤ 1024) }
        ensures undo { IfOk result (λ w. w.undo ≡ begun_undo unit journal.now) }
        ensures work { IfOk result (λ w. w.desk.work ≡ start) }
        ensures tape { IfOk result (λ w. w.tape ≡ start) }
        ensures store { IfOk result (λ w. w.desk.store ≡ no_pairs_on (slots_of book.now) steps) }
        ensures fits { IfOk result IsInOrder }
    {
        let tape = KnownState::new(start.clone()?);
        let desk = Desk::begin(alloc, start, book, steps)?;
        Workspace::with_no_tape(alloc, desk, tape, journal, unit)
    }

    // A workspace with this desk and an empty tape, before this state.
    fn with_no_tape(
        alloc: Global,
        desk: Desk,
        tape: KnownState,
        journal: &Journal,
        unit: u32,
    ) -> Result<Workspace, AllocError>
        requires unit { (1 ≤ unit) × (unit ≤ 1024) }
        requires pages { SamePages tape desk.work }
        requires fits { Fits desk }
        ensures undo { IfOk result (λ w. w.undo ≡ begun_undo unit journal.now) }
        ensures desk { IfOk result (λ w. w.desk ≡ desk) }
        ensures tape { IfOk result (λ w. w.tape ≡ tape) }
        ensures order { IfOk result IsInOrder }
    {
        let undo = Undo::begin(alloc, unit, journal)?;
        let known = Vec::with_capacity(alloc, unit as usize)?;
        Ok(Workspace {
            desk,
            tape,
            undo,
            known,
        })
    }

    /// Takes the machine steps of a unit, and puts the states before them on the tape.
    pub fn advance_on_tape<L: Ledger>(
        &mut self,
        journal: &Journal,
        count: u32,
        steps: &mut Steps<L>,
    )
        requires pages { SamePages self.old.tape self.old.desk.work }
        requires made { IsMadeFor journal.now self.old.undo }
        requires few { count ≤ self.old.undo.unit }
        requires some { 1 ≤ vec_capacity self.old.known }
        ensures work { self.new.desk.work ≡ state_number self.old.desk.work journal.now count }
        ensures pages { SamePages self.old.desk.work self.new.desk.work }
        ensures tape { self.new.tape ≡ self.new.desk.work }
        ensures back { LeadsBack self.new.undo.entries self.new.tape (states_below self.old.desk.work journal.now count) }
        ensures known { AreDigests self.new.known.items (states_of self.new.undo.entries self.new.tape) }
        ensures room { vec_capacity self.old.known ≤ vec_capacity self.new.known }
        ensures stays { (self.new.undo.unit ≡ self.old.undo.unit) × (self.new.undo.room ≡ self.old.undo.room)
            × (self.new.desk.store ≡ self.old.desk.store) × (self.new.desk.buffer ≡ self.old.desk.buffer) }
        ensures counted { steps.new ≡ steps.old + count }
    {
        know_first(self.desk.work.known(), &mut self.known);
        self.desk
            .work
            .advance_noting(journal, count, steps, &mut self.undo);
        self.tape.copy_from(&self.desk.work);
    }

    /// Gives the states on the tape to the visitor, from the last to the first, and empties the tape. The first has
    /// this number.
    pub fn hand_back<V: Visitor>(
        &mut self,
        first: u32,
        visitor: &mut V,
        journal: &Journal,
    ) -> Result<(), RunFault>
        requires few { first + length self.old.undo.entries < 2 ^ 32 }
        requires tape { HasTape self.old }
        ensures hands { HandsOut V.got V.missed journal.now (numbers_from first (length self.old.undo.entries)) (tape_in self.old).states
            result visitor.old visitor.new }
        ensures empty { OnOk result (self.new.undo.entries ≡ []) }
        ensures tape { HasTape self.new }
        ensures same { self.new.known ≡ self.old.known }
        ensures undo { (self.new.undo.unit ≡ self.old.undo.unit) × (self.new.undo.room ≡ self.old.undo.room) }
        ensures pages { SamePages self.new.tape self.old.tape }
        ensures desk { self.new.desk ≡ self.old.desk }
        ensures fault { OnErr result (result ≡ Err RunFault.Visitor) }
        ensures seen { VisitorAfter V.Visitor result visitor.old visitor.new }
    {
        while self.undo.count() > 0 {
            self.tape.back(&mut self.undo, self.known.as_slice());
            hand_out(visitor, first + self.undo.count(), &self.tape, journal)?;
        }
        Ok(())
    }

    /// Takes the digests of the states on the tape, with workers in parallel. If there are workers, all digests are
    /// known afterwards.
    pub fn digest_tape<R: Threads + Sync>(&mut self, rt: &R, digesters: &mut Digesters)
        requires fits { IsInOrder self.old }
        requires pages { AllByRecursion (HasPages self.old.desk.work) digesters.old }
        ensures fits { IsInOrder self.new }
        ensures known { 1 ≤ length digesters.old → (n : ℕ) → n < length self.new.undo.entries → IsKnown self.new.known.items n }
        ensures work { self.new.desk.work ≡ self.old.desk.work }
        ensures tape { self.new.tape ≡ self.old.tape }
        ensures undo { self.new.undo ≡ self.old.undo }
        ensures store { self.new.desk.store ≡ self.old.desk.store }
        ensures buffer { self.new.desk.buffer ≡ self.old.desk.buffer }
        ensures pages { digesters.new ≡ digesters.old }
    {
        self.undo.is_short();
        digesters.digest(rt, &NoGate, self.tape.state(), &self.undo, &mut self.known);
    }
}

// Keeps only the digest of the first state on a tape, if it is known.
fn know_first(first: Option<[u8; 32]>, known: &mut Vec<Option<[u8; 32]>>)
    requires { 1 ≤ vec_capacity known.old }
    ensures known { known.new.items ≡ first ∷ [] }
    ensures room { vec_capacity known.old ≤ vec_capacity known.new }
{
    known.clear();
    known.push(first).unwrap();
}

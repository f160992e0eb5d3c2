// A console: a place in a marked run, and how an order is answered there.
ghost use Rattle.std.specs.Prelude.{◌≡◌, ◌≢◌, ◌<◌, ◌≤◌, ◌↔◌, ℕ, List, true, false, length, max, Option, Err, IfOk, OnErr, IsErrOf};
ghost use Rattle.plan_types.specs.declared.limits.TheConstants.{MOST_STEPS};
ghost use Rattle.level_book.specs.Prelude.{slots_of, total_room};
ghost use Rattle.rv_machine.specs.Prelude.{MachineState, IsMachineState, state_number};
ghost use Rattle.keepers.specs.Prelude.{Images};
ghost use Rattle.reverse_runner.specs.Prelude.{VisitorAfter, KeepersAre, told_by, calls_to, HaveRoom, image_room, rooms_by, AreRoomy, slot_counts};
ghost use Rattle.reverse_console.specs.Answer.{IsAnswer, IsOrder};
ghost use Rattle.reverse_console.specs.ConsoleState.{plan_of, source_of, ConsoleState, console_code};
ghost use Rattle.reverse_console.specs.Costs.{PutsMarks, looking, BreaksLooking};
ghost use Rattle.reverse_console.specs.Marks.{span};
ghost use Rattle.reverse_console.specs.MarkInvariant.{IsReady, source, Gets, Looks};
ghost use Rattle.reverse_console.specs.OrderResults.{IsPerformed, IsPerformedIn, LeavesConsole, LeavesKeepers};
ghost use Rattle.reverse_console.specs.StateSources.{ComesFrom, IsAnswerSeen};
ghost use Rattle.reverse_console.specs.MarksOfRun.{Stands, MarksTell, KeepsMarks};
ghost use Rattle.reverse_console.specs.declared.order.Order.{Order as AnOrder};
ghost use Rattle.reverse_console.specs.ConsoleFields.{console_state, IsConsole};

use crate::marked_run::MarkedRun;
use crate::marking::{go, set_marks};
use crate::marks::Marks;
use crate::order::{Order, Sought};
use crate::seeking::{first_after, last_before};
use input_journal::Journal;
use keepers::Keeper;
use reverse_runner::{Desk, RunFault, Visitor};
use rv_machine::Steps;
use std::alloc::Global;
use std::marker::Model;
use std::sync::ledger::Ledger;

/// A run, a place in it, and its marks.
#[derive(Drop)]
pub struct Console {
    marks: Marks,
    desk: Desk,
    journal: Journal,
    place: u32,
    ended: bool,
}

impl Console {
    /// A console at state 0.
    pub fn begin<K: Keeper, L: Ledger>(
        alloc: Global,
        run: MarkedRun,
        keepers: &mut Vec<K>,
        steps: &mut Steps<L>,
    ) -> Result<Console, RunFault>
        requires count { run.count ≤ MOST_STEPS }
        requires slots { 1 ≤ total_room run.book (max run.count 1) }
        requires room { HaveRoom (max run.count 1) (slots_of run.book) (slot_counts K.Storage keepers.old.items) }

        // It is at state 0, and represents the run over keepers that claim their content.
        ensures begun { IfOk result (λ c. (c.plan ≡ plan_of run) × (c.journal ≡ run.journal) × (c.place ≡ 0) × (c.ended ≡ false)) }
        ensures stands { MarksTell (plan_of run) (told_by K.Storage keepers.old.items) →
            IfOk result (λ c. Stands run.start c (told_by K.Storage keepers.new.items)) }

        // It keeps the length and digest of each mark's image, over any keepers.
        ensures marks { IfOk result (λ c. KeepsMarks run.start (source_of c (told_by K.Storage keepers.new.items))) }

        // What it takes: each mark is put on its level.
        ensures puts { PutsMarks (plan_of run) result steps.old steps.new (calls_to K.Storage keepers.old.items) (calls_to K.Storage keepers.new.items) }

        // Over keepers with room for the images it runs out of memory only before anything else is done.
        ensures roomy { AreRoomy (image_room run.start) (length (slots_of run.book)) (rooms_by K.Storage keepers.old.items) →
            result ≡ Err RunFault.Memory → (keepers.new ≡ keepers.old) × (steps.new ≡ steps.old) }

        // What it leaves of the keepers. Those past the levels of the book are unchanged.
        ensures kept { KeepersAre K.Storage (λ k. k < length (slots_of run.book)) result keepers.old.items keepers.new.items }
    {
        let MarkedRun {
            start,
            journal,
            count,
            book,
        } = run;
        let marks = Marks::new(book, count);
        marks.are_roomy();
        marks.have_room();
        let Ok(mut desk) = Desk::begin(alloc, start, marks.book(), marks.span()) else {
            return Err(RunFault::Memory);
        };
        set_marks(&mut desk, &marks, &journal, keepers, steps)?;
        Ok(Console {
            marks,
            desk,
            journal,
            place: 0,
            ended: false,
        })
    }

    /// The number of the state where it is.
    pub fn place(&self) -> u32
        ensures { result ≡ self.now.place }
    {
        self.place
    }

    /// Answers an order: goes to its new place, if there is one, and gives the visitor the state there.
    pub fn perform<K: Keeper, V: Visitor>(
        &mut self,
        order: &Order,
        keepers: &mut Vec<K>,
        visitor: &mut V,
        steps: &mut Steps<impl Ledger>,
    ) -> Result<bool, RunFault>
        requires order { self.old.ended ≡ false → IsOrder self.old.plan.count order.now }
        requires room { self.old.ended ≡ false → HaveRoom (span self.old.plan) self.old.plan.slots (slot_counts K.Storage keepers.old.items) }

        // A console that has ended does nothing.
        ensures ended { IsErrOf result RunFault.Ended ↔ (self.old.ended ≡ true) }
        ensures inert { result ≡ Err RunFault.Ended → (self.new ≡ self.old) × (keepers.new ≡ keepers.old) × (visitor.new ≡ visitor.old)
            × (steps.new ≡ steps.old) }

        // The answer and what it took, by the fetched bytes.
        ensures performed { IsPerformed V.got V.missed (source_of self.old (told_by K.Storage keepers.old.items)) self.old.place self.new.place order.now
            result visitor.old visitor.new steps.old steps.new (calls_to K.Storage keepers.old.items) (calls_to K.Storage keepers.new.items) }

        // The answer in the run, if the console represents one.
        ensures in_run { (first : MachineState) → IsMachineState first → Stands first self.old (told_by K.Storage keepers.old.items) →
            IsPerformedIn V.got V.missed first self.old self.new order.now result visitor.old visitor.new (told_by K.Storage keepers.new.items) }

        // The console afterwards. A refusal ends it.
        ensures leaves { LeavesConsole result self.old self.new }
        ensures over { OnErr result (self.new.ended ≡ true) }

        // The visitor was called only for the state of an answer.
        ensures seen { VisitorAfter V.Visitor result visitor.old visitor.new }

        // Over keepers with room for the images no order runs out of memory.
        ensures roomy { AreRoomy (image_room self.old.work) (length self.old.plan.slots) (rooms_by K.Storage keepers.old.items) →
            result ≢ Err RunFault.Memory }

        // What it leaves of the keepers.
        ensures keepers { LeavesKeepers K.Storage (length self.old.plan.slots) result keepers.old.items keepers.new.items }
    {
        if self.ended {
            return Err(RunFault::Ended);
        }
        self.marks.are_roomy();
        self.marks.have_room();
        self.journal.is_recorded();
        let outcome = answer(
            &mut self.desk,
            &self.marks,
            &self.journal,
            &mut self.place,
            order,
            keepers,
            visitor,
            steps,
        );
        self.ended = outcome.is_err();
        outcome
    }

    /// Does nothing. Its contract is a law. If the console represents a run, states from marks are the run's with their
    /// numbers. The answers seen are the run's.
    pub fn sees_its_run(&self)
        ensures states { (first : MachineState) (told : ℕ → Option Images) → IsMachineState first → Stands first self.now told →
            (i n : ℕ) (s : MachineState) → ComesFrom (source_of self.now told) i n s → s ≡ state_number first self.now.journal n }
        ensures answers { (first : MachineState) (told : ℕ → Option Images) → IsMachineState first → Stands first self.now told →
            (place : ℕ) (order : AnOrder) (answer : Option ℕ) → IsAnswerSeen (source_of self.now told) place order answer →
            IsAnswer first self.now.journal self.now.plan.count place order answer }
    {
        self.marks.are_roomy();
        self.marks.have_room();
        self.journal.is_recorded();
    }
}

impl Model for Console {
    ghost Value = { ConsoleState };

    ghost coded = { console_code };

    ghost view = { console_state };

    ghost invariant = { IsConsole };
}

// Finds the new place of an order, and goes there, if there is one.
fn answer<K: Keeper, V: Visitor, L: Ledger>(
    desk: &mut Desk,
    marks: &Marks,
    journal: &Journal,
    place: &mut u32,
    order: &Order,
    keepers: &mut Vec<K>,
    visitor: &mut V,
    steps: &mut Steps<L>,
) -> Result<bool, RunFault>
    requires within { place.old ≤ marks.now.count }
    requires order { IsOrder marks.now.count order.now }
    requires ready { IsReady marks.now desk.old (slot_counts K.Storage keepers.old.items) }
    ensures performed { IsPerformed V.got V.missed (source marks.now journal.now desk.old (told_by K.Storage keepers.old.items)) place.old place.new order.now
        result visitor.old visitor.new steps.old steps.new (calls_to K.Storage keepers.old.items) (calls_to K.Storage keepers.new.items) }
    ensures within { place.new ≤ marks.now.count }
    ensures stays { OnErr result (place.new ≡ place.old) }
    ensures gets { (list : List ℕ) × Gets K.Storage marks.now journal.now list
        result desk.old desk.new keepers.old.items keepers.new.items }
    ensures seen { VisitorAfter V.Visitor result visitor.old visitor.new }
{
    marks.have_room();
    let found = new_place(desk, marks, journal, *place, order, keepers, steps)?;
    match found {
        Some(n) => {
            go(desk, marks, journal, n, keepers, visitor, steps)?;
            *place = n;
            Ok(true)
        }
        None => Ok(false),
    }
}

// The new place of an order, if there is one.
fn new_place<K: Keeper, L: Ledger>(
    desk: &mut Desk,
    marks: &Marks,
    journal: &Journal,
    place: u32,
    order: &Order,
    keepers: &mut Vec<K>,
    steps: &mut Steps<L>,
) -> Result<Option<u32>, RunFault>
    requires within { place ≤ marks.now.count }
    requires order { IsOrder marks.now.count order.now }
    requires ready { IsReady marks.now desk.old (slot_counts K.Storage keepers.old.items) }
    ensures seen { IfOk result (IsAnswerSeen (source marks.now journal.now desk.old (told_by K.Storage keepers.old.items)) place order.now) }
    ensures looks { Looks K.Storage marks.now journal.now
        (looking marks.now place order.now) (BreaksLooking marks.now place order.now) result desk.old desk.new keepers.old.items keepers.new.items
        steps.old steps.new }
{
    match *order {
        Order::Back(k) => Ok(Some(place.saturating_sub(k))),
        Order::Step(k) => Ok(Some(place.saturating_add(k).min(marks.steps()))),
        Order::Goto(k) => Ok(Some(k)),
        Order::BackTo(address) => {
            let sought = Sought::Pc(address);
            last_before(desk, marks, journal, &sought, place, keepers, steps)
        }
        Order::RunTo(_) if place == marks.steps() => Ok(None),
        Order::RunTo(address) => {
            first_after(desk, marks, journal, address, place, keepers, steps)
        }
        Order::BackChange(word) => {
            let sought = Sought::Change(word);
            last_before(desk, marks, journal, &sought, place, keepers, steps)
        }
        Order::BackWrite(word) => {
            let sought = Sought::Write(word);
            last_before(desk, marks, journal, &sought, place, keepers, steps)
        }
    }
}

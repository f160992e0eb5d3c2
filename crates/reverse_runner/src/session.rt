// A session: a run that the actions of a schedule go over.
ghost use Rattle.std.specs.Prelude.{◌≡◌, ◌*◌, ◌<◌, ◌≤◌, ◌↔◌, ℕ, true, false, length, Option, Some, Err, IfOk, OnOk, IsErrOf, IsSome, Contains};
ghost use Rattle.std.specs.FinMap as finmap;
ghost use Rattle.std.specs.List.{AllByRecursion};
ghost use Rattle.plan_types.specs.declared.limits.TheConstants.{MOST_STEPS};
ghost use Rattle.level_book.specs.Prelude.{slots_of, rule, levels_named};
ghost use Rattle.unit_digests.specs.Prelude.{HasPages};
ghost use Rattle.keepers.specs.Prelude.{Images};
ghost use Rattle.reverse_runner.specs.Prelude.{ActionEnds, HasReason, IsSafe, Stays, VisitorAfter, KeepersAre, told_by, calls_to, HaveRoom, slot_counts, AreAlone, handed_by, states_out, HandsOut, rooms_by, levels_of, holdings_of, begun, SessionAfter, StandsAt};
ghost use Rattle.reverse_runner.specs.SessionState.{SessionState, session_code};
ghost use Rattle.reverse_runner.specs.SessionFields.{session_state, IsSession};

use crate::acting::act;
use crate::fault::RunFault;
use crate::visitor::Visitor;
use crate::workspace::Workspace;
use input_journal::Journal;
use keepers::Keeper;
use level_book::Book;
use plan_types::Action;
use rv_machine::{State, Steps};
use schedule_rules::Config;
use std::alloc::{AllocError, Global};
use std::marker::Model;
use std::sync::ledger::Ledger;
use std::thread::Threads;
use unit_digests::Digesters;

/// A run of the machine that the actions of a schedule go over.
#[derive(Drop)]
pub struct Session {
    config: Config,
    // How many steps of the machine a step of the schedule has.
    unit: u32,
    space: Workspace,
    journal: Journal,
    done: u64,
    ended: bool,
}

impl Session {
    /// A session at the start of a run: a state, recorded input, a number of steps, and a book. It takes all memory
    /// that the session ever needs, except the keepers' own.
    pub fn begin(
        alloc: Global,
        start: State,
        journal: Journal,
        steps: u32,
        unit: u32,
        book: Book,
    ) -> Result<Session, AllocError>
        requires steps { steps ≤ MOST_STEPS }
        requires unit { (1 ≤ unit) × (unit ≤ 1024) }
        requires few { unit * steps ≤ MOST_STEPS }
        ensures begun { IfOk result (λ session. session ≡ begun start journal unit steps (slots_of book)) }
        // It is at its start over all keepers that claim their content. Empty keepers have no other image.
        ensures stands { IfOk result (λ session. (told : ℕ → Option Images) → ((k : ℕ) → k < length (slots_of book) → IsSome (told k)) →
            StandsAt start session told) }
        ensures alone { IfOk result (λ session. (told : ℕ → Option Images) → ((k : ℕ) → k < length (slots_of book) → told k ≡ Some finmap.empty) →
            AreAlone (levels_of session told)) }
    {
        let config = Config::new(alloc, steps, &book)?;
        let space = Workspace::begin(alloc, start, &journal, &book, steps, unit)?;
        Ok(Session {
            config,
            unit,
            space,
            journal,
            done: 0,
            ended: false,
        })
    }

    /// The configuration of the session.
    pub fn config(&self) -> &Config
        ensures { result.now ≡ self.now.situation }
    {
        &self.config
    }

    /// The machine steps in a step of the schedule. The number of the last state fits a count of steps.
    pub fn unit(&self) -> u32
        ensures value { result ≡ self.now.unit }
        ensures few { self.now.ended ≡ false → result * self.now.situation.steps ≤ MOST_STEPS }
    {
        self.unit
    }

    /// How many actions were performed. The count stops at the end of its type.
    pub fn done(&self) -> u64
        ensures { result ≡ self.now.done }
    {
        self.done
    }

    /// Takes the digests of the states on the tape, with workers in parallel, so that their lines need not. It does
    /// nothing else: contracts don't mention which digests are known.
    pub fn digest_tape<R: Threads + Sync>(&mut self, rt: &R, digesters: &mut Digesters)
        requires { AllByRecursion (HasPages self.old.work) digesters.old }
        ensures session { self.new ≡ self.old }
        ensures pages { digesters.new ≡ digesters.old }
    {
        self.space.digest_tape(rt, digesters);
    }

    /// Performs an allowed action, over keepers with room for its images. There is one for each level of the book, in
    /// order. Over keepers with a room of `max_image` bytes it takes no memory.
    pub fn perform<K: Keeper, V: Visitor, L: Ledger>(
        &mut self,
        action: &Action,
        keepers: &mut Vec<K>,
        visitor: &mut V,
        steps: &mut Steps<L>,
    ) -> Result<(), RunFault>
        requires allowed { self.old.ended ≡ false → rule self.old.situation.steps self.old.situation.slots self.old.situation.at action.now ≡ 0 }
        requires room { self.old.ended ≡ false → HaveRoom self.old.situation.steps self.old.situation.slots (slot_counts K.Storage keepers.old.items) }

        // A session that has ended does nothing.
        ensures ended { IsErrOf result RunFault.Ended ↔ (self.old.ended ≡ true) }
        ensures inert { result ≡ Err RunFault.Ended →
            (self.new ≡ self.old) × (keepers.new ≡ keepers.old) × (visitor.new ≡ visitor.old) × (steps.new ≡ steps.old) }

        // What was done to the configuration, the states and the levels, by the fetched bytes. A refusal ends the session.
        ensures session { SessionAfter result self.old action.now self.new }
        ensures does { self.old.ended ≡ false → ActionEnds result self.old.unit self.old.journal action.now
            (holdings_of self.old (told_by K.Storage keepers.old.items)) (holdings_of self.new (told_by K.Storage keepers.new.items)) steps.old steps.new
            (calls_to K.Storage keepers.old.items) (calls_to K.Storage keepers.new.items) }
        ensures hands { HandsOut V.got V.missed self.old.journal (handed_by self.old.unit self.old.situation.steps action.now)
            (states_out action.now self.old.work self.old.tape.states) result visitor.old visitor.new }

        // If the session was at its configuration before, it is at its new one.
        ensures stays { OnOk result (Stays self.old (told_by K.Storage keepers.old.items) self.new (told_by K.Storage keepers.new.items)) }

        // The cause of each refusal, and which refusals can't happen.
        ensures caused { HasReason result action.now (holdings_of self.old (told_by K.Storage keepers.old.items)) (told_by K.Storage keepers.new.items) }
        ensures spared { IsSafe result self.old.journal self.old.unit self.old.situation.at (holdings_of self.old (told_by K.Storage keepers.old.items))
            (length self.old.situation.slots) (rooms_by K.Storage keepers.old.items) }
        ensures seen { VisitorAfter V.Visitor result visitor.old visitor.new }

        // What it leaves of the keepers. Those of levels that the action doesn't name are unchanged.
        ensures kept { KeepersAre K.Storage (λ k. Contains (levels_named action.now) k) result keepers.old.items keepers.new.items }
    {
        if self.ended {
            return Err(RunFault::Ended);
        }
        self.config.is_sound();
        self.journal.is_recorded();
        let outcome = act(
            &mut self.space,
            &self.config,
            self.unit,
            &self.journal,
            action,
            keepers,
            visitor,
            steps,
        );
        match outcome {
            Ok(()) => {
                self.config.take(action);
                self.done = self.done.saturating_add(1);
            }
            Err(_) => self.ended = true,
        }
        outcome
    }
}

impl Model for Session {
    ghost Value = { SessionState };

    ghost coded = { session_code };

    ghost view = { session_state };

    ghost invariant = { IsSession };
}

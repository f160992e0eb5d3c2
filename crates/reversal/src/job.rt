// What an accepted call is to do.
ghost use Rattle.std.specs.Prelude.{◌≡◌, ◌≢◌, ℕ, [], ◌∷◌, length, Option};
ghost use Rattle.std.specs.List.{AllByRecursion};
ghost use Rattle.level_book.specs.Prelude.{slots_of};
ghost use Rattle.unit_digests.specs.Prelude.{HasPages};
ghost use Rattle.keepers.specs.Prelude.{Images};
ghost use Rattle.reverse_runner.specs.Prelude.{HaveRoom, slot_counts, levels_of, AreAlone};
ghost use Rattle.reverse_runner.specs.declared.fault.RunFault.TheVariants as fault_is;
ghost use Rattle.reversal.specs.Prelude.{perform, write, Moment, beside, AllEmpty, left_of, EndsShowing, course_of, Begins, executed_run, run_from, job_of, IsExecutable, CanBeDone, KeepersHaveRoom, IsBegun, Does, DoesBegun, fault_ending};

use crate::actions::Actions;
use crate::asking::Asking;
use crate::console::ConsoleRun;
use crate::cost::CostReport;
use crate::demo::Demonstration;
use crate::finding::Finding;
use crate::listing::Listing;
use crate::planning::Plan;
use endings::Outcome;
use input_journal::Journal;
use keepers::{Keeper, Sink};
use level_book::Book;
use plan_types::{Action, Line};
use reverse_runner::{LineWriter, RunFault, Session};
use rv_machine::{State, Steps};
use std::alloc::Global;
use std::sync::ledger::Ledger;
use std::thread::Threads;
use unit_digests::Digesters;

/// What is to be done.
#[derive(Drop)]
pub enum Job {
    /// To perform the actions of a list over a run.
    Perform(Execution),
    /// To answer a question about a run.
    Ask(Asking),
    /// To find the last state of a run with a digest.
    Find(Finding),
    /// To write a text in one piece.
    Write(Line),
    /// To write bytes in one piece.
    Bytes(Vec<u8>),
    /// To write what a list costs.
    Report(CostReport),
    /// To write a plan.
    Plan(Plan),
    /// To write the lines of words.
    List(Listing),
    /// To move about in a run by orders.
    Console(ConsoleRun),
    /// To run a program made from a number, and to write a summary.
    Demonstrate(Demonstration),
}

/// Some actions, and their run. The run has a first state, recorded input, a number of steps, and a book. It also has
/// the instructions in a step, and the workers for the digests of a unit's lines.
#[derive(Drop)]
pub struct Execution {
    pub start: State,
    pub journal: Journal,
    pub unit: u32,
    pub workers: u32,
    pub steps: u32,
    pub book: Book,
    pub actions: Actions,
}

impl Job {
    /// The run of a job begins in a machine state, with recorded input. A list over it is valid.
    pub fn begins(&self)
        requires { CanBeDone self.now }
        ensures { Begins (job_of self.now) }
    {
        match self {
            Job::Perform(execution) => {
                execution.start.is_machine_state();
                execution.journal.is_recorded();
            }
            Job::Ask(asking) => {
                asking.over.start.is_machine_state();
                asking.over.journal.is_recorded();
            }
            Job::Console(console) => {
                console.run.start.is_machine_state();
                console.run.journal.is_recorded();
            }
            Job::Find(_) => {}
            Job::Write(_) => {}
            Job::Bytes(_) => {}
            Job::Report(_) => {}
            Job::Plan(_) => {}
            Job::List(_) => {}
            Job::Demonstrate(_) => {}
        }
    }

    /// Does the job, over keepers with room for its images, and returns how it ended. If memory runs out before the
    /// first action, nothing was done. Over keepers with a room of `max_image` bytes that holds for every run.
    pub fn work<R: Threads + Sync, K: Keeper, O: Sink, L: Ledger>(
        self,
        rt: &R,
        alloc: Global,
        keepers: &mut Vec<K>,
        out: &mut O,
        counter: &mut Steps<L>,
    ) -> Outcome
        requires can_be_done { CanBeDone self }
        requires room { KeepersHaveRoom self (slot_counts K.Storage keepers.old.items) }
        ensures { Does O.Sink K.Storage (job_of self) result out.old out.new keepers.old keepers.new counter.old counter.new }
    {
        match self {
            Job::Perform(execution) => execution.perform(rt, alloc, keepers, out, counter),
            Job::Ask(asking) => asking.answer(alloc, keepers, out, counter),
            Job::Find(finding) => finding.find(rt, alloc, out, counter),
            Job::Write(text) => write_bytes(text.bytes(), out),
            Job::Bytes(bytes) => write_bytes(&bytes, out),
            Job::Report(report) => report.write(out),
            Job::Plan(plan) => plan.write(out),
            Job::List(listing) => listing.write(out),
            Job::Console(console) => console.answer_orders(alloc, keepers, out, counter),
            Job::Demonstrate(demonstration) => demonstration.show(alloc, out, counter),
        }
    }
}

impl Execution {
    // Performs the list from the first state on.
    fn perform<R: Threads + Sync, K: Keeper, O: Sink, L: Ledger>(
        self,
        rt: &R,
        alloc: Global,
        keepers: &mut Vec<K>,
        out: &mut O,
        counter: &mut Steps<L>,
    ) -> Outcome
        requires can_be_done { IsExecutable self }
        requires room { HaveRoom self.steps (slots_of self.book) (slot_counts K.Storage keepers.old.items) }
        ensures { Does O.Sink K.Storage (perform (executed_run self)) result out.old out.new keepers.old keepers.new counter.old counter.new }
    {
        let Execution {
            start,
            journal,
            unit,
            workers,
            steps,
            book,
            mut actions,
        } = self;
        start.is_machine_state();
        let Ok(digesters) = Digesters::begin(alloc, &start, unit, workers) else {
            return Outcome::Memory;
        };
        match Session::begin(alloc, start, journal, steps, unit, book) {
            Err(_) => Outcome::Memory,
            Ok(mut session) => {
                perform_all(
                    rt,
                    digesters,
                    &mut session,
                    &mut actions,
                    keepers,
                    out,
                    counter,
                )
            }
        }
    }
}

// Writes bytes in one piece.
fn write_bytes<O: Sink>(bytes: &[u8], out: &mut O) -> Outcome
    ensures { (other : Moment) (steps : ℕ) → EndsShowing (course_of (write (bytes.now ∷ []))) result
        (beside O.Sink other out.old steps)
        (beside O.Sink other out.new steps) }
{
    match out.write(bytes) {
        Ok(()) => Outcome::Done,
        Err(_) => Outcome::Sink { place: 0 },
    }
}

// Performs the remaining actions, a valid list, from the start.
fn perform_all<R: Threads + Sync, K: Keeper, O: Sink, L: Ledger>(
    rt: &R,
    mut digesters: Digesters,
    session: &mut Session,
    actions: &mut Actions,
    keepers: &mut Vec<K>,
    out: &mut O,
    counter: &mut Steps<L>,
) -> Outcome
    requires begun { IsBegun session.old (left_of actions.old) (slot_counts K.Storage keepers.old.items) }
    requires alone { (told : ℕ → Option Images) → AllEmpty (length session.old.situation.slots) told → AreAlone (levels_of session.old told) }
    requires pages { AllByRecursion (HasPages session.old.work) digesters }
    ensures { DoesBegun O.Sink K.Storage (perform (run_from session.old (left_of actions.old))) result out.old out.new
        keepers.old.items keepers.new.items counter.old counter.new }
{
    let mut writer = LineWriter::new(out);
    let mut place = 0;
    while let Some(action) = actions.next() {
        place += 1;
        digest_lines(rt, session, &action, &mut digesters);
        match session.perform(&action, keepers, &mut writer, counter) {
            Ok(()) => {}
            Err(fault) => return fault_ending(place, fault),
        }
    }
    Outcome::Done
}

// Takes the digests of the lines of a Reverse, before it is performed.
fn digest_lines<R: Threads + Sync>(
    rt: &R,
    session: &mut Session,
    action: &Action,
    digesters: &mut Digesters,
)
    requires { AllByRecursion (HasPages session.old.work) digesters.old }
    ensures session { session.new ≡ session.old }
    ensures pages { digesters.new ≡ digesters.old }
{
    if let Action::Reverse { .. } = *action {
        session.digest_tape(rt, digesters);
    }
}

/// How a call ends if its session refused the action, or its console the order, at this place for this fault.
pub fn fault_ending(place: u64, fault: RunFault) -> Outcome
    requires over { fault ≢ fault_is.Ended }
    ensures { result ≡ fault_ending place fault }
{
    match fault {
        RunFault::Keeper(level) => Outcome::Keeper { place, level },
        RunFault::Damaged { level, put, got } => Outcome::Damaged {
            place,
            level,
            put,
            got,
        },
        RunFault::Visitor => Outcome::Sink { place },
        RunFault::Memory => Outcome::Memory,
        RunFault::Ended => unreachable!(),
    }
}

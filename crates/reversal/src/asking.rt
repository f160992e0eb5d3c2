// A question about a run, and how it is answered.
ghost use Rattle.std.specs.Prelude.{◌≡◌, ◌≢◌, ◌≤◌, ◌<◌, ◌+◌, ◌*◌, IfOk, IfErr};
ghost use Rattle.plan_types.specs.declared.limits.TheConstants.{MOST_STEPS};
ghost use Rattle.level_book.specs.Prelude.{slots_of};
ghost use Rattle.reverse_runner.specs.Prelude.{HaveRoom, slot_counts};
ghost use Rattle.reverse_runner.specs.declared.fault.RunFault.TheVariants as fault_is;
ghost use Rattle.requests.specs.declared.question.Question.TheVariants as about;
ghost use Rattle.requests.specs.Prelude.{question_bound, IsWithin};
ghost use Rattle.reversal.specs.Prelude.{ask, run_over, run_from, CanBeAsked, WritesAnswer, Does, DoesBegun, IsBegun, fault_ending};

use crate::job::fault_ending;
use endings::Outcome;
use input_journal::Journal;
use keepers::{Keeper, Sink};
use level_book::Book;
use plan_types::{Action, Line};
use requests::Question;
use reverse_queries::{last_change, last_write, state_at};
use reverse_runner::{LineWriter, RunFault, Session};
use rv_machine::{State, Steps};
use std::alloc::Global;
use std::sync::ledger::Ledger;

/// What a list is performed over, and the list. That is the first state, the recorded input, the instructions in a
/// step, the steps, and the book.
#[derive(Drop)]
pub struct Over {
    pub start: State,
    pub journal: Journal,
    pub unit: u32,
    pub steps: u32,
    pub book: Book,
    pub list: Vec<Action>,
}

/// A question, and the run that it is about.
#[derive(Drop)]
pub struct Asking {
    pub question: Question,
    pub over: Over,
}

impl Asking {
    /// Performs the list as far as the answer needs, and writes the answer.
    pub fn answer<K: Keeper, O: Sink, L: Ledger>(
        self,
        alloc: Global,
        keepers: &mut Vec<K>,
        out: &mut O,
        counter: &mut Steps<L>,
    ) -> Outcome
        requires can_be_asked { CanBeAsked self }
        requires room { HaveRoom self.over.steps (slots_of self.over.book) (slot_counts K.Storage keepers.old.items) }
        ensures { Does O.Sink K.Storage (ask self.question (run_over self.over)) result out.old out.new keepers.old keepers.new counter.old counter.new }
    {
        let question = self.question;
        let Over {
            start,
            journal,
            unit,
            steps,
            book,
            list,
        } = self.over;
        start.is_machine_state();
        let Ok(mut session) = Session::begin(alloc, start, journal, steps, unit, book) else {
            return Outcome::Memory;
        };
        answer_from(question, &mut session, &list, keepers, out, counter)
    }
}

// Answers a question by a session that has just begun.
fn answer_from<K: Keeper, O: Sink, L: Ledger>(
    question: Question,
    session: &mut Session,
    list: &[Action],
    keepers: &mut Vec<K>,
    out: &mut O,
    counter: &mut Steps<L>,
) -> Outcome
    requires begun { IsBegun session.old list.now (slot_counts K.Storage keepers.old.items) }
    requires small { session.old.unit * session.old.situation.steps ≤ MOST_STEPS }
    requires within { IsWithin (question_bound (session.old.unit * session.old.situation.steps) question) }
    ensures { DoesBegun O.Sink K.Storage (ask question (run_from session.old list.now)) result out.old out.new
        keepers.old.items keepers.new.items counter.old counter.new }
{
    match question {
        Question::State(place) => show_state(place as u32, session, list, keepers, out, counter),
        Question::LastWrite(address) => {
            let found = last_write(session, list, keepers, address, counter);
            tell(found, session, out)
        }
        Question::LastChange(address) => {
            let found = last_change(session, list, keepers, address, counter);
            tell(found, session, out)
        }
    }
}

// Writes the line of the state with a number.
fn show_state<K: Keeper, O: Sink, L: Ledger>(
    place: u32,
    session: &mut Session,
    list: &[Action],
    keepers: &mut Vec<K>,
    out: &mut O,
    counter: &mut Steps<L>,
) -> Outcome
    requires begun { IsBegun session.old list.now (slot_counts K.Storage keepers.old.items) }
    requires place { place ≤ session.old.unit * session.old.situation.steps }
    ensures { DoesBegun O.Sink K.Storage (ask (about.State place) (run_from session.old list.now)) result out.old out.new
        keepers.old.items keepers.new.items counter.old counter.new }
{
    let mut writer = LineWriter::new(out);
    match state_at(session, list, keepers, place, &mut writer, counter) {
        Ok(()) => Outcome::Done,
        Err(fault) => refused(session, fault),
    }
}

// Writes the number that a search found, or that there is none. If it was refused, the call ends by its fault.
fn tell<O: Sink>(found: Result<Option<u32>, RunFault>, session: &Session, out: &mut O) -> Outcome
    requires { IfErr found (λ fault. (fault ≢ fault_is.Ended) × (session.now.done < 18446744073709551615)) }
    ensures answered { IfOk found (λ answer. WritesAnswer O.Sink answer result out.old out.new) }
    ensures refused { IfErr found (λ fault. (result ≡ fault_ending (session.now.done + 1) fault) × (out.new ≡ out.old)) }
{
    match found {
        Ok(answer) => write_answer(answer, out),
        Err(fault) => refused(session, fault),
    }
}

// How a call ends if its session refused an action for this fault. The earlier actions were done.
fn refused(session: &Session, fault: RunFault) -> Outcome
    requires over { fault ≢ fault_is.Ended }
    requires counts { session.now.done < 18446744073709551615 }
    ensures { result ≡ fault_ending (session.now.done + 1) fault }
{
    fault_ending(session.done() + 1, fault)
}

/// Writes the number of a step or of a state, or that there is none.
pub fn write_answer<O: Sink>(answer: Option<u32>, out: &mut O) -> Outcome
    ensures { WritesAnswer O.Sink answer result out.old out.new }
{
    let mut line = Line::new();
    match answer {
        Some(step) => {
            line.push_decimal(u64::from(step));
            line.push(b"\n");
        }
        None => line.push(b"none\n"),
    }
    match out.write(line.bytes()) {
        Ok(()) => Outcome::Done,
        Err(_) => Outcome::Sink { place: 0 },
    }
}

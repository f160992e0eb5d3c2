// A plan's text with its certificate. Revolve's list for a book: a run by it, or its text.
ghost use Rattle.std.specs.Prelude.{◌≡◌, ◌≢◌, ◌⊎◌, ◌↔◌, ℕ, ◌+◌, ◌≤◌, ◌++◌, List, [], ◌∷◌, map, take, drop, true, false, Option, IsTrue, IfOk, IfErr, OnOk};
ghost use Rattle.std.specs.List.{AllByRecursion};
ghost use Rattle.std.specs.Vec.{vec_len, vec_capacity};
ghost use Rattle.plan_types.specs.declared.action.Action.{Action};
ghost use Rattle.plan_types.specs.declared.limits.TheConstants.{MOST_STEPS};
ghost use Rattle.level_book.specs.Prelude.{names_of, total_room};
ghost use Rattle.action_text.specs.Prelude.{HasSpelling};
ghost use Rattle.revolve_gen.specs.Prelude.{HasPlan, revolve_list};
ghost use Rattle.endings.specs.Prelude.{no_memory, no_plan};
ghost use Rattle.requests.specs.Prelude.{worker_count, made};
ghost use Rattle.reversal.specs.Prelude.{perform, write, Moment, beside, bytes_of, DecidesOver, EndsShowing, course_of, DecidesPlanRevolve, left_of, job_of, certificate_pieces, pieces_of, IsWritable, CanBeDone, HasWorkers, KeepersHaveRoom, text_of, IsDecided, RunFits, line_of_action, list_pieces};

use crate::actions::Actions;
use crate::decision::{beginning_of, book_in, keep, unit_of, workers_of};
use crate::job::{Execution, Job};
use action_text::print_action;
use bound_cert::certify_revolve;
use cert_text::{Certificate, print_certificate};
use endings::Outcome;
use keepers::Sink;
use level_book::Book;
use plan_types::Line;
use requests::{Loaded, Options};
use revolve_gen::{GenFault, Revolve};
use std::alloc::{AllocError, Global};

// The lines of a plan in one write, and their most bytes.
const LINES: usize = 64;

const PIECE: usize = 5_184;

/// The decision on a run whose list is made, by what was read for it and the keepers' slots.
pub fn decide_made(
    alloc: Global,
    options: &Options,
    steps: u32,
    loaded: &mut Loaded,
    counts: &[u32],
) -> Result<Job, Outcome>
    requires run { RunFits options.now steps }
    requires workers { (1 ≤ worker_count options.now) × (worker_count options.now ≤ 64) }
    ensures decided { IsDecided
        (DecidesOver perform options.now steps loaded.old.program.items (text_of loaded.old.journal) loaded.old.book.items None counts.now)
        counts.now result }
    ensures workers { IfOk result (HasWorkers (worker_count options.now)) }
{
    let book = book_in(alloc, &loaded.book)?;
    keep(steps, &book, counts)?;
    let revolve = revolve_for(alloc, steps, &book)?;
    let (start, journal) = beginning_of(alloc, options, &loaded.program, loaded.journal.take())?;
    Ok(Job::Perform(Execution {
        start,
        journal,
        unit: unit_of(options),
        workers: workers_of(options),
        steps,
        book,
        actions: Actions::Streamed(revolve),
    }))
}

/// The decision on a plan of Revolve by its book: the texts of its list and certificate.
pub fn decide_revolve(alloc: Global, steps: u32, book: &[u8]) -> Result<Job, Outcome>
    requires steps { steps ≤ MOST_STEPS }
    ensures { (counts : List ℕ) → IsDecided (DecidesPlanRevolve steps book.now) counts result }
{
    let book = book_in(alloc, book)?;
    let revolve = revolve_for(alloc, steps, &book)?;
    let certificate = certify_revolve(steps, &book);
    let job = plan_job(alloc, Actions::Streamed(revolve), book, Some(certificate))?;
    Ok(job)
}

/// The text of some actions over the levels of a book in pieces, and the text of their certificate, if any.
pub fn plan_job(
    alloc: Global,
    actions: Actions,
    book: Book,
    certificate: Option<Certificate>,
) -> Result<Job, AllocError>
    requires { AllByRecursion (HasSpelling (names_of book)) (left_of actions) }
    ensures job { IfOk result (λ job. job_of job ≡ write (list_pieces (names_of book) (left_of actions) ++ certificate_pieces certificate)) }
    ensures can_be_done { IfOk result CanBeDone }
    ensures room { IfOk result (λ job. (counts : List ℕ) → KeepersHaveRoom job counts) }
{
    let piece = Vec::with_capacity(alloc, PIECE)?;
    Ok(Job::Plan(Plan {
        actions,
        book,
        certificate,
        piece,
    }))
}

// The list of Revolve for so many steps and a book.
fn revolve_for(alloc: Global, steps: u32, book: &Book) -> Result<Revolve, Outcome>
    requires { steps ≤ MOST_STEPS }
    ensures list { IfOk result (λ r. r ≡ revolve_list steps book.now) }
    ensures plan { OnOk result (HasPlan steps (total_room book.now steps)) }
    ensures refused { IfErr result (λ e. (e ≡ no_memory)
        ⊎ ((HasPlan steps (total_room book.now steps) → ⊥) × (e ≡ no_plan steps (total_room book.now steps) 1))) }
{
    match Revolve::new(alloc, steps, book) {
        Ok(revolve) => Ok(revolve),
        Err(GenFault::NoPlan(_)) => Err(Outcome::NoPlan {
            steps,
            room: book.total_room(steps),
            rule: 1,
        }),
        Err(GenFault::Memory) => Err(Outcome::Memory),
    }
}

/// A list over the levels of a book, and its certificate, if any. The piece has the lines that are written next.
#[derive(Drop)]
pub struct Plan {
    pub actions: Actions,
    pub book: Book,
    pub certificate: Option<Certificate>,
    pub piece: Vec<u8>,
}

impl Plan {
    /// Writes the text of the list, in pieces of sixty-four lines. Then it writes that of the certificate, if there is
    /// one.
    pub fn write<O: Sink>(mut self, out: &mut O) -> Outcome
        requires { IsWritable self }
        ensures { (other : Moment) (steps : ℕ) → EndsShowing (course_of (write (pieces_of self))) result
            (beside O.Sink other out.old steps)
            (beside O.Sink other out.new steps) }
    {
        self.write_all(out)
    }

    // Writes the pieces of the list, and then the certificate's text, if there is one.
    fn write_all<O: Sink>(&mut self, out: &mut O) -> Outcome
        requires { IsWritable self.old }
        ensures { (other : Moment) (steps : ℕ) → EndsShowing (course_of (write (pieces_of self.old))) result
            (beside O.Sink other out.old steps)
            (beside O.Sink other out.new steps) }
    {
        while self.next_piece() {
            match out.write(&self.piece) {
                Ok(()) => {}
                Err(_) => return Outcome::Sink { place: 0 },
            }
        }
        let Some(certificate) = &self.certificate else {
            return Outcome::Done;
        };
        match print_certificate(certificate, out) {
            Ok(()) => Outcome::Done,
            Err(_) => Outcome::Sink { place: 0 },
        }
    }

    // Replaces the piece by the lines of the next actions, and returns whether there are any.
    fn next_piece(&mut self) -> bool
        requires spelled { AllByRecursion (HasSpelling (names_of self.old.book)) (left_of self.old.actions) }
        requires reserved { 5184 ≤ vec_capacity self.old.piece }
        ensures some { IsTrue result ↔ (left_of self.old.actions ≢ []) }
        ensures piece { self.new.piece.items ≡ bytes_of (take 64 (map (line_of_action (names_of self.old.book)) (left_of self.old.actions))) }
        ensures left { left_of self.new.actions ≡ drop 64 (left_of self.old.actions) }
        ensures kept { (self.new.book ≡ self.old.book) × (self.new.certificate ≡ self.old.certificate) }
        ensures capacity { 5184 ≤ vec_capacity self.new.piece }
    {
        self.piece.clear();
        let mut line = Line::new();
        let mut count = 0;
        while count < LINES && self.push_line(&mut line) {
            count += 1;
        }
        count > 0
    }

    // Adds the line of the next action to the piece, and returns whether there is one. It makes the line in `line`.
    fn push_line(&mut self, line: &mut Line) -> bool
        requires spelled { AllByRecursion (HasSpelling (names_of self.old.book)) (left_of self.old.actions) }
        requires reserved { vec_len self.old.piece + 81 ≤ vec_capacity self.old.piece }
        ensures more { result ≡ true → (action : Action) × (left_of self.old.actions ≡ action ∷ left_of self.new.actions)
            × (self.new.piece.items ≡ self.old.piece.items ++ line_of_action (names_of self.old.book) action) }
        ensures none { result ≡ false → (left_of self.old.actions ≡ []) × (left_of self.new.actions ≡ []) × (self.new.piece ≡ self.old.piece) }
        ensures kept { (self.new.book ≡ self.old.book) × (self.new.certificate ≡ self.old.certificate) }
        ensures short { vec_len self.new.piece ≤ vec_len self.old.piece + 81 }
        ensures capacity { vec_capacity self.old.piece ≤ vec_capacity self.new.piece }
    {
        let Some(action) = self.actions.next() else {
            return false;
        };
        print_action(&action, &self.book, line);
        line.push(b"\n");
        self.piece.extend_from_slice(line.bytes()).unwrap();
        true
    }
}

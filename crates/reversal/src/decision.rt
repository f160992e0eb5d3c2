// The decision on a request by its inputs: a job, or a refusal.
ghost use Rattle.std.specs.Prelude.{◌≡◌, ◌⊎◌, ℕ, ◌*◌, ◌≤◌, ◌++◌, List, length, codes, decimal, IfOk, IfErr, OnOk};
ghost use Rattle.std.specs.List.{AllByRecursion};
ghost use Rattle.plan_types.specs.declared.limits.TheConstants.{MOST_STEPS};
ghost use Rattle.level_book.specs.Prelude.{slots_of, names_of, IsBookText, Valid, BrokenAt};
ghost use Rattle.action_text.specs.Prelude.{IsSchedule, HasFirstFault};
ghost use Rattle.reverse_runner.specs.Prelude.{HaveRoom};
ghost use Rattle.endings.specs.Prelude.{no_memory, bad_program, bad_journal, bad_book, bad_text, invalid};
ghost use Rattle.requests.specs.Prelude.{run as run_command, ask as ask_command, says_raw, stack_pages, worker_count, unit_count, question_bound, numbers, IsWithin, request_of, as_run_backward, as_ask, IsWithinLimits, contents_of};
ghost use Rattle.reversal.specs.Prelude.{refuse, Keep, HasBookFault, IsStartOf, HasProgramFault, AreItemsOf, HasJournalFault, DecidesLoaded, DecidesCheck, perform, run_over, job_of, IsOver, CanBeDone, HasWorkers, KeepersHaveRoom, IsRefusal, IsUnbegun, IsUnjudged, text_of, IsDecided, IsDecidedOver, RunFits};

use crate::actions::{Actions, Listed};
use crate::asking::{Asking, Over};
use crate::asm::decide_asm;
use crate::certifying::decide_certify;
use crate::console::decide_console;
use crate::cost::decide_cost;
use crate::demo::decide_demo;
use crate::finding::decide_find;
use crate::job::{Execution, Job};
use crate::listing::decide_disasm;
use crate::periodic::decide_periodic;
use crate::plan_kinds::decide_plan;
use crate::planning::decide_made;
use action_text::read_actions;
use elf_load::load_start;
use endings::Outcome;
use input_journal::{Journal, read_recorded};
use level_book::{Book, read_book};
use plan_types::{Action, Line};
use requests::{Ask, Command, Loaded, Options, Request, RunBackward, Schedule};
use rv_machine::State;
use schedule_rules::{Verdict, check};
use std::alloc::Global;
use std::thread::Threads;

/// The decision on a request by what was read for it and the numbers of the keepers' slots. The request's numbers are
/// within their bounds.
pub fn decide<R: Threads + Sync>(
    rt: &R,
    alloc: Global,
    request: &Request<'_>,
    loaded: &mut Loaded,
    counts: &[u32],
) -> Result<Job, Outcome>
    requires numbers { AllByRecursion IsWithin (numbers (request_of request.now)) }
    requires inputs { IsWithinLimits (contents_of loaded.old) }
    ensures { IsDecided
        (DecidesLoaded (request_of request.now).options (request_of request.now).command (contents_of loaded.old) counts.now)
        counts.now result }
{
    let options = &request.options;
    match &request.command {
        Command::Run(backward) => decide_run(alloc, options, backward, loaded, counts),
        Command::Ask(ask) => decide_ask(alloc, options, ask, loaded, counts),
        Command::Plan(plan) => decide_plan(rt, alloc, workers_of(options), plan, &loaded.book),
        Command::PlanPeriodic(plan) => decide_periodic(alloc, plan, &loaded.book),
        Command::Check(check) => {
            decide_check(alloc, check.steps as u32, &loaded.book, &loaded.schedule)
        }
        Command::Certify(certify) => {
            let steps = certify.steps as u32;
            decide_certify(
                alloc,
                steps,
                &loaded.book,
                &loaded.schedule,
                &loaded.certificate,
            )
        }
        Command::Cost(cost) => {
            decide_cost(alloc, cost.steps as u32, &loaded.book, &loaded.schedule)
        }
        Command::Find(find) => decide_find(alloc, options, find, loaded),
        Command::Asm(_) => decide_asm(alloc, &loaded.source),
        Command::Disasm(_) => decide_disasm(alloc, &loaded.words),
        Command::Console(console) => {
            decide_console(alloc, options, console.steps as u32, loaded, counts)
        }
        Command::Demo(demo) => decide_demo(alloc, demo),
    }
}

// The decision on a run backward.
fn decide_run(
    alloc: Global,
    options: &Options,
    backward: &RunBackward<'_>,
    loaded: &mut Loaded,
    counts: &[u32],
) -> Result<Job, Outcome>
    requires run { RunFits options.now backward.now.run.steps }
    requires workers { (1 ≤ worker_count options.now) × (worker_count options.now ≤ 64) }
    requires inputs { IsWithinLimits (contents_of loaded.old) }
    ensures decided { IsDecided
        (DecidesLoaded options.now (run_command (as_run_backward backward.now)) (contents_of loaded.old) counts.now)
        counts.now result }
    ensures workers { IfOk result (HasWorkers (worker_count options.now)) }
{
    let steps = backward.run.steps as u32;
    match backward.schedule {
        Schedule::Named(_) => {
            let over = decide_over(alloc, options, steps, loaded, counts)?;
            Ok(execution(over, workers_of(options)))
        }
        Schedule::Made => decide_made(alloc, options, steps, loaded, counts),
    }
}

// The job of performing a list, with so many workers.
fn execution(over: Over, workers: u32) -> Job
    ensures job { job_of result ≡ perform (run_over over) }
    ensures can_be_done { IsOver over → CanBeDone result }
    ensures workers { HasWorkers workers result }
    ensures room { (counts : List ℕ) → HaveRoom over.steps (slots_of over.book) counts → KeepersHaveRoom result counts }
{
    Job::Perform(Execution {
        start: over.start,
        journal: over.journal,
        unit: over.unit,
        workers,
        steps: over.steps,
        book: over.book,
        actions: Actions::Listed(Listed::new(over.list)),
    })
}

// The decision on a question about a run.
fn decide_ask(
    alloc: Global,
    options: &Options,
    ask: &Ask<'_>,
    loaded: &mut Loaded,
    counts: &[u32],
) -> Result<Job, Outcome>
    requires run { RunFits options.now ask.now.run.steps }
    requires question { IsWithin (question_bound (unit_count options.now * ask.now.run.steps) ask.now.question) }
    requires inputs { IsWithinLimits (contents_of loaded.old) }
    ensures { IsDecided (DecidesLoaded options.now (ask_command (as_ask ask.now)) (contents_of loaded.old) counts.now) counts.now result }
{
    let steps = ask.run.steps as u32;
    let over = decide_over(alloc, options, steps, loaded, counts)?;
    let question = ask.question;
    Ok(Job::Ask(Asking { question, over }))
}

// What a list is performed over, by what was read for a run whose schedule has a name.
fn decide_over(
    alloc: Global,
    options: &Options,
    steps: u32,
    loaded: &mut Loaded,
    counts: &[u32],
) -> Result<Over, Outcome>
    requires run { RunFits options.now steps }
    requires inputs { IsWithinLimits (contents_of loaded.old) }
    ensures { IsDecidedOver options.now steps (contents_of loaded.old) counts.now result }
{
    let book = book_in(alloc, &loaded.book)?;
    keep(steps, &book, counts)?;
    let (start, journal) = beginning_of(alloc, options, &loaded.program, loaded.journal.take())?;
    let list = list_in(alloc, &loaded.schedule, &book)?;
    judge(alloc, &list, steps, &book)?;
    Ok(Over {
        start,
        journal,
        unit: unit_of(options),
        steps,
        book,
        list,
    })
}

// The decision on a request to check a schedule.
fn decide_check(alloc: Global, steps: u32, book: &[u8], schedule: &[u8]) -> Result<Job, Outcome>
    requires steps { steps ≤ MOST_STEPS }
    requires short { length schedule.now ≤ 536870912 }
    ensures { (counts : List ℕ) → IsDecided (DecidesCheck steps book.now schedule.now) counts result }
{
    let (_, list) = valid_in(alloc, steps, book, schedule)?;
    Ok(Job::Write(valid_line(list.len())))
}

// The text for a valid list of so many actions.
fn valid_line(count: usize) -> Line
    ensures { result ≡ codes "valid " ++ decimal count ++ codes "\n" }
{
    let mut line = Line::new();
    line.push(b"valid ");
    line.push_decimal(count as u64);
    line.push(b"\n");
    line
}

// The book that bytes mean, and the list that those of a schedule mean over it, which is valid.
pub(crate) fn valid_in(
    alloc: Global,
    steps: u32,
    book: &[u8],
    schedule: &[u8],
) -> Result<(Book, Vec<Action>), Outcome>
    requires steps { steps ≤ MOST_STEPS }
    requires short { length schedule.now ≤ 536870912 }
    ensures book { IfOk result (λ found. IsBookText book.now found.0) }
    ensures list { IfOk result (λ found. IsSchedule (names_of found.0) schedule.now found.1.items) }
    ensures valid { IfOk result (λ found. Valid steps (slots_of found.0) found.1.items) }
    ensures refused { IfErr result (IsUnjudged steps book.now schedule.now) }
{
    let book = book_in(alloc, book)?;
    let list = list_in(alloc, schedule, &book)?;
    judge(alloc, &list, steps, &book)?;
    Ok((book, list))
}

// The book that bytes mean.
pub(crate) fn book_in(alloc: Global, bytes: &[u8]) -> Result<Book, Outcome>
    ensures found { IfOk result (IsBookText bytes.now) }
    ensures refused { IfErr result (IsRefusal (HasBookFault bytes.now) bad_book) }
{
    Ok(read_book(alloc, bytes)?)
}

// Requires a keeper for each level, with as many slots as a run of so many steps can use.
pub(crate) fn keep(steps: u32, book: &Book, counts: &[u32]) -> Result<(), Outcome>
    ensures room { OnOk result (HaveRoom steps (slots_of book.now) counts.now) }
    ensures refused { IfErr result (λ e. Keep steps (slots_of book.now) counts.now (refuse e) ⊥) }
{
    let levels = book.levels();
    if counts.len() < levels as usize {
        return Err(Outcome::FewKeepers {
            levels,
            keepers: counts.len() as u64,
        });
    }
    for level in 0..levels {
        let slots = counts[level as usize];
        if slots < book.room(level, steps) {
            return Err(Outcome::SmallKeeper { level, slots });
        }
    }
    Ok(())
}

// The start state of a program, and its recorded input.
pub(crate) fn beginning_of(
    alloc: Global,
    options: &Options,
    program: &[u8],
    journal: Option<Vec<u8>>,
) -> Result<(State, Journal), Outcome>
    requires { (1 ≤ stack_pages options.now) × (stack_pages options.now ≤ 1024) }
    ensures start { IfOk result (λ found. IsStartOf (says_raw options.now) (stack_pages options.now) program.now found.0) }
    ensures items { IfOk result (λ found. AreItemsOf (text_of journal) found.1) }
    ensures refused { IfErr result (IsUnbegun options.now program.now (text_of journal)) }
{
    let start = start_of(alloc, options, program)?;
    let journal = journal_in(alloc, journal)?;
    Ok((start, journal))
}

// The start state of a program.
fn start_of(alloc: Global, options: &Options, bytes: &[u8]) -> Result<State, Outcome>
    requires { (1 ≤ stack_pages options.now) × (stack_pages options.now ≤ 1024) }
    ensures found { IfOk result (IsStartOf (says_raw options.now) (stack_pages options.now) bytes.now) }
    ensures refused { IfErr result (IsRefusal (HasProgramFault (says_raw options.now) (stack_pages options.now) bytes.now) bad_program) }
{
    let stack = options.stack_pages() as u32;
    Ok(load_start(alloc, options.says_raw(), bytes, stack)?)
}

// How many instructions a step of a schedule has.
pub(crate) fn unit_of(options: &Options) -> u32
    requires { unit_count options.now ≤ 1024 }
    ensures { result ≡ unit_count options.now }
{
    options.unit_count() as u32
}

// The number of workers that the options ask for.
pub(crate) fn workers_of(options: &Options) -> u32
    requires { worker_count options.now ≤ 64 }
    ensures { result ≡ worker_count options.now }
{
    options.worker_count() as u32
}

// The recorded input, which keeps the bytes of its journal; none where there is no journal.
fn journal_in(alloc: Global, bytes: Option<Vec<u8>>) -> Result<Journal, Outcome>
    ensures found { IfOk result (AreItemsOf (text_of bytes)) }
    ensures refused { IfErr result (IsRefusal (HasJournalFault (text_of bytes)) bad_journal) }
{
    Ok(read_recorded(alloc, bytes)?)
}

// The list that the bytes of a schedule mean over the levels of a book.
fn list_in(alloc: Global, bytes: &[u8], book: &Book) -> Result<Vec<Action>, Outcome>
    requires { length bytes.now ≤ 536870912 }
    ensures found { IfOk result (λ list. IsSchedule (names_of book.now) bytes.now list.items) }
    ensures refused { IfErr result (IsRefusal (HasFirstFault (names_of book.now) bytes.now) bad_text) }
{
    match read_actions(alloc, bytes, book) {
        Ok(list) => Ok(list),
        Err(fault) => Err(Outcome::bad_text(fault)),
    }
}

// Judges a list.
fn judge(alloc: Global, list: &[Action], steps: u32, book: &Book) -> Result<(), Outcome>
    requires { steps ≤ MOST_STEPS }
    ensures valid { OnOk result (Valid steps (slots_of book.now) list.now) }
    ensures broken { IfErr result (λ e. (e ≡ no_memory) ⊎ ((place : ℕ) × (rule : ℕ) × (level : ℕ) × (e ≡ invalid place level rule)
        × BrokenAt steps (slots_of book.now) list.now place rule level × (Valid steps (slots_of book.now) list.now → ⊥))) }
{
    match check(alloc, list, steps, book)? {
        Verdict::Valid => Ok(()),
        Verdict::Broken { place, rule, level } => Err(Outcome::Invalid { place, level, rule }),
    }
}

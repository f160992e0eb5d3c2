// What the words ask for: options and a command, as a value that borrows the names.
ghost use Rattle.std.specs.Prelude.{◌≤◌, map, IfSome, IfNone, MatchOption};
ghost use Rattle.std.specs.List.{AllByRecursion, flat_map};
ghost use Rattle.line_texts.specs.Prelude.{GivesSome};
ghost use Rattle.requests.specs.Request.{Request as ARequest, Says};
ghost use Rattle.requests.specs.Bounds.{numbers, option_numbers, command_numbers, IsWithin, RefusesFirst};
ghost use Rattle.requests.specs.ChoiceParser.{options_at, as_choice};
ghost use Rattle.requests.specs.RequestModel.{run_numbers, asked_numbers, request_read, as_command, request_of};

use crate::bounds::{
    INSTRUCTIONS, LEVEL, PERIOD, SEED, SLOTS, STACK_PAGES, STEPS, UNIT, WORKERS, first_outside,
    plan_limit, question_bound,
};
use crate::kind::PlanKind;
use crate::options::{Choice, Options, next_option, read_options};
use crate::question::Question;
use crate::reading::read_command;
use crate::schedule::Schedule;
use endings::Outcome;

/// What the words ask for.
#[derive(Drop)]
pub struct Request<'a> {
    pub options: Options<'a>,
    pub command: Command<'a>,
}

/// A command, with the names of its inputs and its numbers.
#[derive(Clone, Copy)]
pub enum Command<'a> {
    /// To run a program backward.
    Run(RunBackward<'a>),
    /// To write a list that is made during the call.
    Plan(PlanFor<'a>),
    /// To write the periodic list.
    PlanPeriodic(PlanPeriodic<'a>),
    /// To judge a schedule.
    Check(ScheduleFor<'a>),
    /// To show by a certificate that a schedule is the least of all valid ones, or of its class.
    Certify(Certify<'a>),
    /// To print what a schedule costs.
    Cost(ScheduleFor<'a>),
    /// To ask something of a run.
    Ask(Ask<'a>),
    /// To find the last state of a run with a digest.
    Find(Find<'a>),
    /// To write the instruction words that a source means.
    Asm(Asm<'a>),
    /// To write the line of each word of a raw program.
    Disasm(Disasm<'a>),
    /// To move about in a run by the orders of a script.
    Console(Console<'a>),
    /// To run a program made from a number.
    Demo(Demo),
}

/// A run of a program that a list goes over, of so many steps. Without a journal there is no recorded input.
#[derive(Clone, Copy)]
pub struct Run<'a> {
    pub program: &'a [u8],
    pub journal: Option<&'a [u8]>,
    pub book: &'a [u8],
    pub steps: u64,
}

/// To run a program backward by a schedule.
#[derive(Clone, Copy)]
pub struct RunBackward<'a> {
    pub run: Run<'a>,
    pub schedule: Schedule<'a>,
}

/// To write a list of this kind for a book and so many steps.
#[derive(Clone, Copy)]
pub struct PlanFor<'a> {
    pub kind: PlanKind,
    pub book: &'a [u8],
    pub steps: u64,
}

/// To write the periodic list for a book and so many steps. The slow level gets an image every `period` steps.
#[derive(Clone, Copy)]
pub struct PlanPeriodic<'a> {
    pub book: &'a [u8],
    pub steps: u64,
    pub period: u64,
}

/// A schedule for a book and so many steps: to judge it, or to print what it costs.
#[derive(Clone, Copy)]
pub struct ScheduleFor<'a> {
    pub book: &'a [u8],
    pub schedule: &'a [u8],
    pub steps: u64,
}

/// To show by a certificate that a schedule is the least, for a book and so many steps.
#[derive(Clone, Copy)]
pub struct Certify<'a> {
    pub book: &'a [u8],
    pub schedule: &'a [u8],
    pub certificate: &'a [u8],
    pub steps: u64,
}

/// To ask something of a run, by the schedule with this name.
#[derive(Clone, Copy)]
pub struct Ask<'a> {
    pub question: Question,
    pub run: Run<'a>,
    pub schedule: &'a [u8],
}

/// To find the last state of a run over so many steps whose image has this SHA-256.
#[derive(Clone, Copy)]
pub struct Find<'a> {
    pub program: &'a [u8],
    pub journal: Option<&'a [u8]>,
    pub steps: u64,
    pub digest: [u8; 32],
}

/// To write the instruction words that a source means.
#[derive(Clone, Copy)]
pub struct Asm<'a> {
    pub source: &'a [u8],
}

/// To write the line of each word of a raw program.
#[derive(Clone, Copy)]
pub struct Disasm<'a> {
    pub program: &'a [u8],
}

/// To move about in a run of so many instructions by the orders of a script. The levels of a book keep images at marks.
#[derive(Clone, Copy)]
pub struct Console<'a> {
    pub program: &'a [u8],
    pub journal: Option<&'a [u8]>,
    pub book: &'a [u8],
    pub script: &'a [u8],
    pub steps: u64,
}

/// To run a program made from a number backward, by Revolve's list for so many steps and slots.
#[derive(Clone, Copy)]
pub struct Demo {
    pub number: u64,
    pub steps: u64,
    pub slots: u64,
}

impl Request<'_> {
    /// How a call ends for the request's first number out of bounds.
    pub fn refusal(&self) -> Option<Outcome>
        ensures { MatchOption result (AllByRecursion IsWithin (numbers (request_of self.now))) (RefusesFirst (numbers (request_of self.now))) }
    {
        match options_refusal(self.options.words()) {
            Some(refusal) => Some(refusal),
            None => self.command.refusal(self.options.unit_count()),
        }
    }
}

// How a call ends for the first number out of bounds in the options.
fn options_refusal(words: &[Vec<u8>]) -> Option<Outcome>
    ensures { MatchOption result (AllByRecursion IsWithin (flat_map option_numbers (options_at (map (λ w. w.items) words.now))))
        (RefusesFirst (flat_map option_numbers (options_at (map (λ w. w.items) words.now)))) }
{
    let mut rest = words;
    while let Some((choice, behind)) = next_option(rest) {
        if let Some(refusal) = choice.refusal() {
            return Some(refusal);
        }
        rest = behind;
    }
    None
}

impl Choice<'_> {
    // How a call ends if the number of this option is out of bounds.
    fn refusal(&self) -> Option<Outcome>
        ensures { MatchOption result (AllByRecursion IsWithin (option_numbers (as_choice self.now))) (RefusesFirst (option_numbers (as_choice self.now))) }
    {
        match self {
            Choice::Raw => None,
            Choice::Stack(pages) => first_outside(&[STACK_PAGES.of(*pages)]),
            Choice::Workers(count) => first_outside(&[WORKERS.of(*count)]),
            Choice::Unit(count) => first_outside(&[UNIT.of(*count)]),
            Choice::Files(level, _) => first_outside(&[LEVEL.of(*level)]),
        }
    }
}

impl Command<'_> {
    // How a call ends for a command's first number out of bounds. Its steps are units of so many instructions.
    fn refusal(&self, unit: u64) -> Option<Outcome>
        requires { unit ≤ 1024 }
        ensures { MatchOption result (AllByRecursion IsWithin (command_numbers unit (as_command self.now)))
            (RefusesFirst (command_numbers unit (as_command self.now))) }
    {
        match self {
            Command::Run(backward) => run_refusal(unit, backward.run.steps),
            Command::Plan(plan) => first_outside(&[plan_limit(plan.kind).of(plan.steps)]),
            Command::PlanPeriodic(plan) => {
                first_outside(&[STEPS.of(plan.steps), PERIOD.of(plan.period)])
            }
            Command::Check(check) => first_outside(&[STEPS.of(check.steps)]),
            Command::Certify(certify) => first_outside(&[STEPS.of(certify.steps)]),
            Command::Cost(cost) => first_outside(&[STEPS.of(cost.steps)]),
            Command::Ask(ask) => question_refusal(unit, ask.run.steps, ask.question),
            Command::Find(find) => first_outside(&[STEPS.of(find.steps)]),
            Command::Asm(_) | Command::Disasm(_) => None,
            Command::Console(console) => first_outside(&[STEPS.of(console.steps)]),
            Command::Demo(demo) => first_outside(&[
                SEED.of(demo.number),
                STEPS.of(demo.steps),
                SLOTS.of(demo.slots),
            ]),
        }
    }
}

// How a call ends if the steps of a run are out of bounds. Each is a unit.
fn run_refusal(unit: u64, steps: u64) -> Option<Outcome>
    requires { unit ≤ 1024 }
    ensures { MatchOption result (AllByRecursion IsWithin (run_numbers unit steps)) (RefusesFirst (run_numbers unit steps)) }
{
    match first_outside(&[STEPS.of(steps)]) {
        Some(refusal) => Some(refusal),
        None => first_outside(&[INSTRUCTIONS.of(unit * steps)]),
    }
}

// How a call ends if the numbers of a question about such a run are out of bounds.
fn question_refusal(unit: u64, steps: u64, question: Question) -> Option<Outcome>
    requires { unit ≤ 1024 }
    ensures { MatchOption result (AllByRecursion IsWithin (asked_numbers unit steps question)) (RefusesFirst (asked_numbers unit steps question)) }
{
    match first_outside(&[STEPS.of(steps)]) {
        Some(refusal) => Some(refusal),
        None => {
            let last = unit * steps;
            first_outside(&[question_bound(last, question), INSTRUCTIONS.of(last)])
        }
    }
}

/// The request that the words mean, if any.
pub fn read_request(list: &[Vec<u8>]) -> Option<Request<'_>>
    ensures found { IfSome result (λ r. Says (map (λ w. w.items) list.now) (request_of r)) }
    ensures none { IfNone result ((r : ARequest) → Says (map (λ w. w.items) list.now) r → ⊥) }
{
    request_in(list)
}

#[tactic(auto, unfolding(crate::specs::RequestModel::request_read))]
fn request_in(list: &[Vec<u8>]) -> Option<Request<'_>>
    ensures { GivesSome request_of result (request_read (map (λ w. w.items) list.now)) }
{
    let (options, words) = read_options(list);
    if !options.are_single() {
        return None;
    }
    let command = read_command(words)?;
    Some(Request { options, command })
}

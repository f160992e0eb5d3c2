// The numbers of a request, and their limits.
ghost use Rattle.std.specs.Prelude.{◌≡◌, ◌↔◌, MatchOption, IsTrue};
ghost use Rattle.std.specs.List.{AllByRecursion};
ghost use Rattle.requests.specs.Operands.{within, question_bound};
ghost use Rattle.requests.specs.Request.{plan_limit};
ghost use Rattle.requests.specs.Bounds.{IsWithin, out_of_bounds, RefusesFirst};

use crate::kind::PlanKind;
use crate::question::Question;
use endings::Outcome;
use plan_types::{MOST_SLOTS, MOST_STEPS};

/// The least and greatest accepted values of a number, and the number of its rule.
#[derive(Clone, Copy)]
pub struct Limit {
    pub least: u64,
    pub greatest: u64,
    pub rule: u16,
}

// A limit by its least and greatest accepted values.
macro_rules! limit {
    ($least:literal..=$greatest:expr, rule $rule:literal) => {
        Limit {
            least: $least,
            greatest: $greatest,
            rule: $rule,
        }
    };
}

/// Of the pages of the stack.
pub(crate) const STACK_PAGES: Limit = limit!(1..=1024, rule 4);

/// Of the number of workers.
pub(crate) const WORKERS: Limit = limit!(1..=64, rule 3);

/// Of the instructions in a step of a schedule.
pub(crate) const UNIT: Limit = limit!(1..=1024, rule 12);

/// Of the number of a level with files.
pub(crate) const LEVEL: Limit = limit!(0..=3, rule 5);

/// Of the number of steps.
pub(crate) const STEPS: Limit = limit!(0..=MOST_STEPS as u64, rule 1);

/// Of the number of steps of a plan by DiskRevolve.
const DISK_STEPS: Limit = limit!(0..=8192, rule 1);

/// Of the number of steps of a plan by H-Revolve.
const NESTED_STEPS: Limit = limit!(0..=2048, rule 1);

/// Of the number of instructions in a run that a list goes over.
pub(crate) const INSTRUCTIONS: Limit = limit!(0..=MOST_STEPS as u64, rule 13);

/// Of a period.
pub(crate) const PERIOD: Limit = limit!(1..=MOST_STEPS as u64, rule 2);

/// Of the slots of a demonstration.
pub(crate) const SLOTS: Limit = limit!(0..=MOST_SLOTS as u64, rule 10);

/// Of the number that a program is made from.
pub(crate) const SEED: Limit = limit!(0..=u32::MAX as u64, rule 11);

/// Of the address of a word.
const ADDRESS: Limit = limit!(0..=0xffff_fffc, rule 7);

impl Limit {
    /// A number with these bounds.
    pub(crate) fn of(self, number: u64) -> Bounded
        ensures { result ≡ within self number }
    {
        Bounded {
            number,
            least: self.least,
            greatest: self.greatest,
            rule: self.rule,
        }
    }
}

/// The limit of the number of a plan's steps.
pub(crate) fn plan_limit(kind: PlanKind) -> Limit
    ensures { result ≡ plan_limit kind }
{
    match kind {
        PlanKind::Revolve | PlanKind::Multistage => STEPS,
        PlanKind::Disk => DISK_STEPS,
        PlanKind::Hrevolve => NESTED_STEPS,
    }
}

/// The number of a question about a run whose last state has this number.
pub(crate) fn question_bound(last: u64, question: Question) -> Bounded
    ensures { result ≡ question_bound last question }
{
    match question {
        Question::State(place) => limit!(0..=last, rule 6).of(place),
        Question::LastWrite(address) | Question::LastChange(address) => {
            ADDRESS.of(u64::from(address))
        }
    }
}

/// A number of a request, its least and greatest accepted values, and the number of its rule.
#[derive(Clone, Copy)]
pub struct Bounded {
    pub number: u64,
    pub least: u64,
    pub greatest: u64,
    pub rule: u16,
}

impl Bounded {
    fn is_within(&self) -> bool
        ensures { IsTrue result ↔ IsWithin self.now }
    {
        self.least <= self.number && self.number <= self.greatest
    }

    // How a call ends for this number.
    fn refusal(&self) -> Outcome
        ensures { result ≡ out_of_bounds self.now }
    {
        let passed = if self.number < self.least {
            self.least
        } else {
            self.greatest
        };
        Outcome::Limit {
            number: self.number,
            bound: passed,
            rule: self.rule,
        }
    }
}

/// How a call ends for the first of these numbers that is out of bounds.
pub fn first_outside(numbers: &[Bounded]) -> Option<Outcome>
    ensures { MatchOption result (AllByRecursion IsWithin numbers.now) (RefusesFirst numbers.now) }
{
    for bounded in numbers {
        if !bounded.is_within() {
            return Some(bounded.refusal());
        }
    }
    None
}

// Whether a whole list is valid.
ghost use Rattle.std.specs.Prelude.{◌≡◌, ◌≤◌, ℕ, IfOk};
ghost use Rattle.plan_types.specs.declared.limits.TheConstants.{MOST_STEPS};
ghost use Rattle.level_book.specs.Prelude.{slots_of};
ghost use Rattle.schedule_rules.specs.VerdictMeaning.{Judges};

use crate::config::{Broken, Config};
use level_book::Book;
use plan_types::Action;
use std::alloc::{AllocError, Global};

/// The verdict on a whole list.
#[derive(Clone, Copy, PartialEq, Eq)]
pub enum Verdict {
    /// It reverses the computation.
    Valid,
    /// The action at this place, counted from 1, is the first that breaks a rule. This rule is the lowest that it
    /// breaks. The level is set for rule 4, and 0 otherwise. A list that ends without EndReverse breaks rule 16 one
    /// past its end.
    Broken { place: u64, rule: u8, level: u8 },
}

/// Judges a list from the start, for a number of steps and a book. It takes memory for one bit a position and level.
pub fn check(alloc: Global, list: &[Action], steps: u32, book: &Book) -> Result<Verdict, AllocError>
    requires { steps ≤ MOST_STEPS }
    ensures { IfOk result (Judges steps (slots_of book.now) list.now) }
{
    let mut config = Config::new(alloc, steps, book)?;
    for (i, action) in list.iter().enumerate() {
        if let Err(broken) = config.judge(action) {
            return Ok(broken_at(i as u64 + 1, broken));
        }
        config.take(action);
    }
    if config.ended() {
        Ok(Verdict::Valid)
    } else {
        Ok(Verdict::Broken {
            place: list.len() as u64 + 1,
            rule: 16,
            level: 0,
        })
    }
}

// The verdict on a list whose action at this place breaks a rule.
fn broken_at(place: u64, broken: Broken) -> Verdict
    ensures { (number level : ℕ) → broken ≡ Broken.Rule number level → result ≡ Verdict.Broken place number level }
{
    match broken {
        Broken::Rule { rule, level } => Verdict::Broken { place, rule, level },
    }
}

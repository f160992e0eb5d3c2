// Whether a list is in the nested class.
ghost use Rattle.std.specs.Prelude.{◌↔◌, ◌≤◌, [], ◌∷◌, IfOk, IsTrue, MatchOption};
ghost use Rattle.plan_types.specs.declared.limits.TheConstants.{MOST_STEPS};
ghost use Rattle.level_book.specs.Prelude.{slots_of, Nested, IsNestedFrom, KeepsFaster};
ghost use Rattle.class_rules.specs.Stacks.{images_of, IsStack};

use crate::stack::Stack;
use level_book::Book;
use plan_types::{Action, Dest, Keep};
use schedule_rules::{Verdict, check};
use std::alloc::{AllocError, Global};

/// Whether the list is in the nested class for so many steps and this book. Then it is valid. It takes memory for the
/// held images, and for one bit a position and level.
pub fn in_nested(
    alloc: Global,
    list: &[Action],
    steps: u32,
    book: &Book,
) -> Result<bool, AllocError>
    requires { steps ≤ MOST_STEPS }
    ensures { IfOk result (λ is. IsTrue is ↔ Nested steps (slots_of book.now) list.now) }
{
    match check(alloc, list, steps, book)? {
        Verdict::Valid => is_stacked(alloc, list, steps),
        Verdict::Broken { .. } => Ok(false),
    }
}

// Whether the actions are nested, starting with no held image.
fn is_stacked(alloc: Global, list: &[Action], steps: u32) -> Result<bool, AllocError>
    ensures { IfOk result (λ is. IsTrue is ↔ IsNestedFrom steps [] list.now) }
{
    let mut images = Stack::new(alloc);
    let mut left = steps;
    for i in 0..list.len() {
        match step(&mut images, left, list[i], &list[i + 1..])? {
            Some(after) => left = after,
            None => return Ok(false),
        }
    }
    Ok(true)
}

// The steps left to be reversed after an action. None if it isn't nested before the rest.
fn step(
    images: &mut Stack,
    left: u32,
    action: Action,
    rest: &[Action],
) -> Result<Option<u32>, AllocError>
    requires { IsStack images.old }
    ensures held { IfOk result (λ _. IsStack images.new) }
    ensures nested { IfOk result (λ after. MatchOption after (IsNestedFrom left (images_of images.old) (action ∷ rest.now) →
        ⊥) (λ l. IsNestedFrom left (images_of images.old) (action ∷ rest.now) ↔ IsNestedFrom l (images_of images.new) rest.now)) }
{
    match action {
        Action::Forward { from, keep, .. } => match keep {
            Keep::Nothing => Ok(Some(left)),
            Keep::Tape => Ok(Some(left)),
            Keep::Store(level) => {
                if !images.goes_on_top(from, level) {
                    return Ok(None);
                }
                images.push(from, level)?;
                Ok(Some(left))
            }
        },
        Action::Reverse { to, .. } => Ok(Some(to)),
        Action::Copy { n, from, dest } => match dest {
            Dest::Work => {
                if !images.is_newest(n, from) {
                    return Ok(None);
                }
                Ok(Some(left))
            }
            Dest::Level(_) => Ok(None),
        },
        Action::Move { n, from, dest } => match dest {
            Dest::Work => {
                if !images.is_newest(n, from) || n < left && !keeps_faster(n, from, rest) {
                    return Ok(None);
                }
                images.pop();
                Ok(Some(left))
            }
            Dest::Level(_) => Ok(None),
        },
        Action::EndForward => Ok(Some(left)),
        Action::EndReverse => Ok(Some(left)),
    }
}

// Whether the next action is a Forward that tapes this state, or stores it on a faster level.
fn keeps_faster(n: u32, level: u8, rest: &[Action]) -> bool
    ensures { IsTrue result ↔ KeepsFaster n level rest.now }
{
    match rest.first() {
        Some(
            Action::Forward {
                from,
                keep: Keep::Tape,
                ..
            },
        ) => *from == n,
        Some(
            Action::Forward {
                from,
                keep: Keep::Store(faster),
                ..
            },
        ) => *from == n && *faster < level,
        _ => false,
    }
}

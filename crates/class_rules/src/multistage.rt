// Whether a list is in the multistage class.
ghost use Rattle.std.specs.Prelude.{◌≡◌, ◌↔◌, ℕ, ◌+◌, ◌≤◌, max, false, length, MatchOption, IfOk, IsTrue, vec_len};
ghost use Rattle.plan_types.specs.declared.limits.TheConstants.{MOST_STEPS};
ghost use Rattle.level_book.specs.Prelude.{slots_of};
ghost use Rattle.revolve_gen.specs.Prelude.{placed, IsMultistage, HasPlaces};
ghost use Rattle.class_rules.specs.PlaceLevels.{HasPlaceLevels};
ghost use Rattle.class_rules.specs.LevelInference.{level_named, Agrees, AreTheLevels, Fit};

use level_book::{Book, Slots};
use plan_types::{Action, Keep};
use revolve_gen::{Revolve, StackStep, on_level};
use std::alloc::{AllocError, Global};

/// Whether the list is in the multistage class for so many steps and this book. It takes memory for the slots of the book.
pub fn in_multistage(
    alloc: Global,
    list: &[Action],
    steps: u32,
    book: &Book,
) -> Result<bool, AllocError>
    requires { steps ≤ MOST_STEPS }
    ensures { IfOk result (λ is. IsTrue is ↔ IsMultistage steps book.now list.now) }
{
    let levels = place_levels(alloc, list, steps, book)?;
    Ok(levels.is_some())
}

/// The level of each place, where the list is in the multistage class for these steps and this book. None otherwise. It
/// takes memory for the slots of the book.
pub fn place_levels(
    alloc: Global,
    list: &[Action],
    steps: u32,
    book: &Book,
) -> Result<Option<Vec<u8>>, AllocError>
    requires { steps ≤ MOST_STEPS }
    ensures { IfOk result (λ found. MatchOption found (IsMultistage steps book.now list.now →
        ⊥) (λ levels. HasPlaceLevels steps book.now list.now levels.items)) }
{
    let slots = book.total_room(steps);
    if book.levels() != 2 || steps >= 2 && slots == 0 {
        return Ok(None);
    }
    let room = Vec::with_capacity(alloc, slots as usize)?;
    let Some(levels) = levels_of(alloc, list, Revolve::over(steps, book, room))? else {
        return Ok(None);
    };
    if !fit(&levels, book) {
        return Ok(None);
    }
    Ok(Some(levels))
}

// The level of each place, if the list is this one of Revolve with any levels of its places.
fn levels_of(
    alloc: Global,
    list: &[Action],
    mut expected: Revolve,
) -> Result<Option<Vec<u8>>, AllocError>
    ensures { IfOk result (λ found. MatchOption found ((level : ℕ → ℕ) → list.now ≡ placed level 0 expected →
        ⊥) (λ levels. AreTheLevels expected list.now levels.items)) }
{
    let mut levels = Vec::new(alloc);
    let mut held = 0;
    for action in list {
        let Some(model) = expected.next() else {
            return Ok(None);
        };
        let level = level_named(action);
        if !is_same(on_level(level, model), action) {
            return Ok(None);
        }
        let step = StackStep::of(&model);
        if !stays(step) && !note(&mut levels, step.place(held), level)? {
            return Ok(None);
        }
        held = step.held_after(held);
    }
    if expected.next().is_some() {
        return Ok(None);
    }
    Ok(Some(levels))
}

fn is_same(model: Action, action: &Action) -> bool
    ensures { IsTrue result ↔ (model ≡ action.now) }
{
    model == *action
}

// Whether an action doesn't change the stack.
fn stays(step: StackStep) -> bool
    ensures { IsTrue result ↔ (step ≡ StackStep.Stay) }
{
    matches!(step, StackStep::Stay)
}

// The level on which an action writes or reads its image, 0 where it has none.
fn level_named(action: &Action) -> u8
    ensures { result ≡ level_named action.now }
{
    match action {
        Action::Forward { keep, .. } => match keep {
            Keep::Store(level) => *level,
            Keep::Nothing => 0,
            Keep::Tape => 0,
        },
        Action::Copy { from, .. } => *from,
        Action::Move { from, .. } => *from,
        Action::Reverse { .. } => 0,
        Action::EndForward => 0,
        Action::EndReverse => 0,
    }
}

// Whether a place has this level; the next place gets it.
fn note(levels: &mut Vec<u8>, place: usize, level: u8) -> Result<bool, AllocError>
    requires { place ≤ vec_len levels.old }
    ensures many { IfOk result (λ is. IsTrue is → vec_len levels.new ≡ max (vec_len levels.old) (place + 1)) }
    ensures same { IfOk result (λ is. IsTrue is → (of : ℕ → ℕ) → Agrees levels.new.items of ↔ (Agrees levels.old.items of × (of place ≡ level))) }
    ensures other { IfOk result (λ is. is ≡ false → (of : ℕ → ℕ) → Agrees levels.old.items of → of place ≡ level → ⊥) }
{
    if place == levels.len() {
        levels.push(level)?;
        return Ok(true);
    }
    Ok(levels[place] == level)
}

// Whether there are two levels, and each has slots for its places.
fn fit(levels: &[u8], book: &Book) -> bool
    requires { length book.now.levels ≡ 2 }
    ensures { IsTrue result ↔ Fit (slots_of book.now) levels.now }
{
    let mut fast = 0;
    let mut slow = 0;
    for level in levels {
        if *level == 0 {
            fast += 1;
        } else if *level == 1 {
            slow += 1;
        } else {
            return false;
        }
    }
    has_places(book.level(0).slots, fast) && has_places(book.level(1).slots, slow)
}

// Whether a level has slots for so many places.
fn has_places(slots: Slots, places: usize) -> bool
    ensures { IsTrue result ↔ HasPlaces slots places }
{
    match slots {
        Slots::Count(slots) => places <= slots as usize,
        Slots::Unlimited => true,
    }
}

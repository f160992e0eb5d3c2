// One action, and what is to be written after it.
ghost use Rattle.std.specs.Prelude.{◌≡◌, ℕ, ◌+◌, ◌<◌, ◌≤◌, ◌-◌, [], ◌∷◌, ◌++◌, length, vec_capacity, MatchOption, IfSome};
ghost use Rattle.plan_types.specs.declared.limits.TheConstants.{MOST_SLOTS, MOST_STEPS};
ghost use Rattle.binomials.specs.Prelude.{split, IsSplit};
ghost use Rattle.revolve_gen.specs.Places.{level_at};
ghost use Rattle.revolve_gen.specs.Part.{stretch};
ghost use Rattle.revolve_gen.specs.Plans.{HasPlan};
ghost use Rattle.revolve_gen.specs.Remainder.{owed, IsOwing};

use crate::places::Places;
use crate::stretch::{Phase, Stretch};
use binomials::split;
use plan_types::{Action, Dest, Keep};

// What is to be written of a stretch, if nothing is held.
pub(crate) fn first_phase(start: u32, steps: u32, first: bool) -> Phase
    requires { start + steps ≤ MOST_STEPS }
    ensures written { (level : ℕ → ℕ) (room : ℕ) → owed level room result [] ≡ stretch level first start steps room }
    ensures owing { (room : ℕ) → room ≤ MOST_SLOTS → HasPlan steps room → IsOwing room result [] }
{
    if steps > 0 {
        return Phase::Fresh {
            start,
            steps,
            first,
        };
    }
    if first {
        return Phase::Empty;
    }
    Phase::Back
}

// Splits a stretch of two or more steps, and holds the part up to the split. It returns that part's steps.
fn hold_front(room: u32, stack: &mut Vec<Stretch>, start: u32, steps: u32) -> u32
    requires some { 2 ≤ steps }
    requires short { steps ≤ MOST_STEPS }
    requires place { length stack.old.items < room }
    requires reserved { room ≤ vec_capacity stack.old }
    ensures value { result ≡ split steps (room - length stack.old.items) }
    ensures within { IsSplit steps (room - length stack.old.items) result }
    ensures pushed { stack.new.items ≡ stack.old.items ++ record { start = start; steps = result } ∷ [] }
    ensures capacity { vec_capacity stack.new ≡ vec_capacity stack.old }
{
    let front = split(steps, room - stack.len() as u32);
    stack.push_reserved(Stretch {
        start,
        steps: front,
    });
    front
}

// The first action of a stretch whose start is in work.
pub(crate) fn fresh_action(
    places: &Places,
    room: u32,
    stack: &mut Vec<Stretch>,
    start: u32,
    steps: u32,
    first: bool,
) -> (Action, Phase)
    requires owing { IsOwing room (Phase.Fresh start steps first) stack.old.items }
    requires reserved { room ≤ vec_capacity stack.old }
    ensures written { owed (level_at places.now) room (Phase.Fresh start steps first) stack.old.items ≡ result.0 ∷ owed (level_at places.now) room
        result.1 stack.new.items }
    ensures owing { IsOwing room result.1 stack.new.items }
    ensures capacity { vec_capacity stack.new ≡ vec_capacity stack.old }
{
    if steps == 1 {
        let phase = if first {
            Phase::Last { start }
        } else {
            Phase::Taped { start }
        };
        return (
            Action::Forward {
                from: start,
                to: start + 1,
                keep: Keep::Tape,
            },
            phase,
        );
    }
    let level = places.level(stack.len() as u32);
    let ahead = hold_front(room, stack, start, steps);
    (
        Action::Forward {
            from: start,
            to: start + ahead,
            keep: Keep::Store(level),
        },
        Phase::Fresh {
            start: start + ahead,
            steps: steps - ahead,
            first,
        },
    )
}

// The first action of the newest held stretch, if one is held.
pub(crate) fn held_action(
    places: &Places,
    room: u32,
    stack: &mut Vec<Stretch>,
) -> Option<(Action, Phase)>
    requires owing { IsOwing room Phase.Back stack.old.items }
    requires reserved { room ≤ vec_capacity stack.old }
    ensures written { MatchOption result (owed (level_at places.now) room Phase.Back stack.old.items ≡ []) (λ r.
        owed (level_at places.now) room Phase.Back stack.old.items ≡ r.0 ∷ owed (level_at places.now) room r.1 stack.new.items) }
    ensures owing { IfSome result (λ r. IsOwing room r.1 stack.new.items) }
    ensures capacity { vec_capacity stack.new ≡ vec_capacity stack.old }
    ensures kept { result ≡ None → stack.new.items ≡ stack.old.items }
{
    let Some(newest) = stack.pop() else {
        return None;
    };
    let level = places.level(stack.len() as u32);
    let start = newest.start;
    if newest.steps == 1 {
        let action = Action::Move {
            n: start,
            from: level,
            dest: Dest::Work,
        };
        let phase = Phase::Fresh {
            start,
            steps: 1,
            first: false,
        };
        return Some((action, phase));
    }
    let ahead = hold_front(room, stack, start, newest.steps);
    Some((
        Action::Copy {
            n: start,
            from: level,
            dest: Dest::Work,
        },
        Phase::Ahead {
            start,
            split: start + ahead,
            end: start + newest.steps,
        },
    ))
}

// The next action, and what is to be written after it.
pub(crate) fn next_action(
    places: &Places,
    room: u32,
    stack: &mut Vec<Stretch>,
    phase: Phase,
) -> Option<(Action, Phase)>
    requires owing { IsOwing room phase stack.old.items }
    requires reserved { room ≤ vec_capacity stack.old }
    ensures written { MatchOption result (owed (level_at places.now) room phase stack.old.items ≡ []) (λ r.
        owed (level_at places.now) room phase stack.old.items ≡ r.0 ∷ owed (level_at places.now) room r.1 stack.new.items) }
    ensures owing { IfSome result (λ r. IsOwing room r.1 stack.new.items) }
    ensures capacity { vec_capacity stack.new ≡ vec_capacity stack.old }
    ensures kept { result ≡ None → stack.new.items ≡ stack.old.items }
{
    match phase {
        Phase::Empty => Some((Action::EndForward, Phase::Back)),
        Phase::Fresh {
            start,
            steps,
            first,
        } => Some(fresh_action(places, room, stack, start, steps, first)),
        Phase::Ahead { start, split, end } => Some((
            Action::Forward {
                from: start,
                to: split,
                keep: Keep::Nothing,
            },
            Phase::Fresh {
                start: split,
                steps: end - split,
                first: false,
            },
        )),
        Phase::Last { start } => Some((Action::EndForward, Phase::Taped { start })),
        Phase::Taped { start } => Some((
            Action::Reverse {
                from: start + 1,
                to: start,
            },
            Phase::Back,
        )),
        Phase::Back => held_action(places, room, stack),
    }
}

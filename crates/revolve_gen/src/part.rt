// The written actions of one stretch, one at a time.
ghost use Rattle.std.specs.Prelude.{◌≡◌, ◌+◌, ◌≤◌, [], ◌∷◌, MatchOption, vec_capacity};
ghost use Rattle.plan_types.specs.declared.limits.TheConstants.{MOST_SLOTS, MOST_STEPS};
ghost use Rattle.level_book.specs.declared.book.Slots.TheVariants.{Unlimited};
ghost use Rattle.level_book.specs.Prelude.{slots_of};
ghost use Rattle.revolve_gen.specs.Places.{level_at};
ghost use Rattle.revolve_gen.specs.Part.{stretch, Coming};
ghost use Rattle.revolve_gen.specs.Plans.{HasPlan};
ghost use Rattle.revolve_gen.specs.Remainder.{owed, IsOwing};

use crate::phases::{first_phase, next_action};
use crate::places::Places;
use crate::stretch::{Phase, Stretch};
use level_book::Book;
use plan_types::Action;
use std::marker::Model;

/// The actions of a stretch still to come. It holds no list. It computes each action from a stack with an entry for
/// each held image. One stream serves many stretches, one after the other.
#[derive(Drop)]
pub struct StretchStream {
    places: Places,
    room: u32,
    stack: Vec<Stretch>,
    phase: Phase,
}

impl StretchStream {
    /// A stream without a stretch, with so many slots of a book's levels. Its stack uses the reserved room.
    pub fn over(book: &Book, slots: u32, mut room: Vec<Stretch>) -> StretchStream
        requires small { slots ≤ MOST_SLOTS }
        requires reserved { slots ≤ vec_capacity room }
        ensures { result ≡ record { levels = slots_of book.now; slots = slots; actions = [] } }
    {
        room.clear();
        StretchStream {
            places: Places::of(book),
            room: slots,
            stack: room,
            phase: Phase::Back,
        }
    }

    /// A stream without a stretch, with all slots on the fastest level. Its stack uses the reserved room.
    pub fn on_fastest(slots: u32, mut room: Vec<Stretch>) -> StretchStream
        requires small { slots ≤ MOST_SLOTS }
        requires reserved { slots ≤ vec_capacity room }
        ensures { result ≡ record { levels = Unlimited ∷ []; slots = slots; actions = [] } }
    {
        room.clear();
        StretchStream {
            places: Places::fastest(),
            room: slots,
            stack: room,
            phase: Phase::Back,
        }
    }

    /// Begins a stretch, and drops the rest of an earlier one. It takes no memory.
    pub fn begin(&mut self, start: u32, steps: u32, first: bool)
        requires plan { HasPlan steps self.old.slots }
        requires short { start + steps ≤ MOST_STEPS }
        ensures { self.new ≡ record self.old { actions = stretch (level_at self.old.levels) first start steps self.old.slots } }
    {
        self.stack.clear();
        self.phase = first_phase(start, steps, first);
    }

    /// The next action of the stretch, and None after the last. It takes no memory.
    #[inline(always)]
    pub fn next(&mut self) -> Option<Action>
        ensures next { MatchOption result ((self.old.actions ≡ []) × (self.new.actions ≡ [])) (λ action. self.old.actions ≡ action ∷ self.new.actions) }
        ensures same { (self.new.levels ≡ self.old.levels) × (self.new.slots ≡ self.old.slots) }
    {
        let (action, phase) = next_action(&self.places, self.room, &mut self.stack, self.phase)?;
        self.phase = phase;
        Some(action)
    }
}

impl Model for StretchStream {
    ghost Value = { Coming };

    ghost view = { λ s. record { levels = s.places; slots = s.room; actions = owed (level_at s.places) s.room s.phase s.stack.items } };

    ghost invariant = { λ s. IsOwing s.room s.phase s.stack.items × (s.room ≤ vec_capacity s.stack) };
}

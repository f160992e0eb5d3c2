// The multistage plan, one action at a time.
ghost use Rattle.std.specs.Prelude.{◌≡◌, ◌≤◌, [], ◌∷◌, length, MatchOption, IfOk, IfErr, ◌+◌, ◌<◌, ◌^◌, slice_index};
ghost use Rattle.plan_types.specs.declared.limits.TheConstants.{MOST_STEPS};
ghost use Rattle.revolve_gen.specs.Prelude.{IsMultistage};
ghost use Rattle.revolve_gen.specs.Stack.{placed};
ghost use Rattle.multistage_gen.specs.Plan.{IsPlaced, Plan};
ghost use Rattle.multistage_gen.specs.MultistageList.{IsMultistageList, IsFault};

use crate::numbers::revolve_places;
use crate::placing::placed_action;
use crate::planning::{planned_levels, savings_by};
use level_book::Book;
use plan_types::Action;
use revolve_gen::{GenFault, Planned, Revolve};
use std::alloc::Global;
use std::marker::Model;

/// A multistage plan: its places, and the actions of its list still to come. It holds no list. Each action comes from
/// the stream of Revolve and the level of its place.
#[derive(Drop)]
pub struct Multistage {
    levels: Vec<u8>,
    savings: Vec<u64>,
    revolve: Revolve,
    held: usize,
}

impl Multistage {
    /// The plan for so many steps over the two levels of a book. The traffic of each place comes from the counts of the
    /// stretches, without a list. It keeps its places and the stack of the stream, each within the slots.
    pub fn begin(alloc: Global, steps: u32, book: &Book) -> Planned<Multistage>
        requires { steps ≤ MOST_STEPS }
        ensures list { IfOk result (λ plan. IsMultistageList steps book.now plan.actions) }
        ensures class { IfOk result (λ plan. IsMultistage steps book.now plan.actions) }
        ensures places { IfOk result (IsPlaced steps book.now) }
        ensures refused { IfErr result (IsFault steps book.now) }
    {
        if book.levels() != 2 {
            return Err(GenFault::NoPlan(2));
        }
        let revolve = Revolve::new(alloc, steps, book)?;
        let traffic = revolve_places(alloc, steps, book.total_room(steps))?;
        let levels = planned_levels(alloc, &traffic, steps, book)?;
        let savings = savings_by(alloc, &traffic, book)?;
        Ok(Multistage {
            levels,
            savings,
            revolve,
            held: 0,
        })
    }

    /// The next action, and None after the last. It takes no memory.
    pub fn next(&mut self) -> Option<Action>
        ensures next { MatchOption result ((self.old.actions ≡ []) × (self.new.actions ≡ [])) (λ action. self.old.actions ≡ action ∷ self.new.actions) }
        ensures same { (self.new.levels ≡ self.old.levels) × (self.new.savings ≡ self.old.savings) }
    {
        let action = self.revolve.next()?;
        let (placed, held) = placed_action(&self.levels, self.held, action);
        self.held = held;
        Some(placed)
    }

    /// The level of each place.
    pub fn levels(&self) -> &[u8]
        ensures { result.now ≡ self.now.levels }
    {
        &self.levels
    }

    /// How much less each place's images cost on the faster level than on the slower one.
    pub fn savings(&self) -> &[u64]
        ensures savings { result.now ≡ self.now.savings }
        ensures each { length result.now ≡ length self.now.levels }
    {
        &self.savings
    }
}

impl Model for Multistage {
    ghost Value = { Plan };

    ghost view = { λ m. record { levels = m.levels.items; savings = m.savings.items; actions = placed (slice_index m.levels.items) m.held m.revolve } };

    ghost invariant = { λ m. (length m.savings.items ≡ length m.levels.items) × (m.held + length m.revolve < 2 ^ 64) };
}

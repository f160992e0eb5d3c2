// The periodic list, one action at a time and as a whole.
ghost use Rattle.std.specs.Prelude.{◌≡◌, ◌≤◌, [], ◌∷◌, MatchOption, IfOk, IfErr, OnOk, List, ◌++◌};
ghost use Rattle.plan_types.specs.declared.limits.TheConstants.{MOST_STEPS};
ghost use Rattle.plan_types.specs.declared.action.Action.{Action};
ghost use Rattle.disk_gen.specs.Plans.{HasPeriodicPlan, IsFault};
ghost use Rattle.disk_gen.specs.Remainder.{owed_behind, IsOwing};
ghost use Rattle.disk_gen.specs.PeriodicList.{periodic_list};

use crate::phase::{Phase, next_behind};
use crate::plans::planned_images;
use level_book::Book;
use plan_types::Action;
use revolve_gen::{Planned, StretchStream};
use std::alloc::Global;
use std::marker::Model;

/// The actions of a periodic list still to come. It holds no list. It works out each action from a stack with an entry
/// for each image on the faster level.
#[derive(Drop)]
pub struct Periodic {
    period: u32,
    last: u32,
    stretch: StretchStream,
    phase: Phase,
}

impl Periodic {
    /// The list for so many steps, with an image on level 1 every `period` steps. Its stack has room for an entry for
    /// each slot of level 0.
    pub fn new(alloc: Global, steps: u32, period: u32, book: &Book) -> Planned<Periodic>
        requires short { steps ≤ MOST_STEPS }
        requires some { 1 ≤ period }
        requires small { period ≤ MOST_STEPS }
        ensures list { IfOk result (λ p. p ≡ periodic_list steps period book.now) }
        ensures plan { OnOk result (HasPeriodicPlan steps period book.now) }
        ensures refused { IfErr result (IsFault steps period book.now) }
    {
        let images = planned_images(steps, period, book)?;
        let slots = book.room(0, steps);
        let room = Vec::with_capacity(alloc, slots as usize)?;
        let mut stretch = StretchStream::on_fastest(slots, room);
        let last = steps - images * period;
        if images > 0 {
            let phase = Phase::Ahead {
                held: 0,
                left: images,
            };
            return Ok(Periodic {
                period,
                last,
                stretch,
                phase,
            });
        }
        stretch.begin(0, steps, true);
        Ok(Periodic {
            period,
            last,
            stretch,
            phase: Phase::Back { held: 0 },
        })
    }

    /// The next action, and None after the last. It takes no memory.
    #[tactic(auto, using(crate::proofs::RemainderSteps::owed_next, crate::proofs::RemainderSteps::owing_same))]
    pub fn next(&mut self) -> Option<Action>
        ensures { MatchOption result ((self.old ≡ []) × (self.new ≡ [])) (λ action. self.old ≡ action ∷ self.new) }
    {
        if let Some(action) = self.stretch.next() {
            return Some(action);
        }
        let (action, phase) = next_behind(self.period, self.last, &mut self.stretch, self.phase)?;
        self.phase = phase;
        Some(action)
    }
}

impl Model for Periodic {
    ghost Value = { List Action };

    ghost view = { λ p. p.stretch.actions ++ owed_behind p.period p.last p.stretch.slots p.phase };

    ghost invariant = { λ p. IsOwing p.period p.last p.stretch.levels p.stretch.slots p.phase };
}

/// The whole list.
pub fn periodic_list(alloc: Global, steps: u32, period: u32, book: &Book) -> Planned<Vec<Action>>
    requires short { steps ≤ MOST_STEPS }
    requires some { 1 ≤ period }
    requires small { period ≤ MOST_STEPS }
    ensures list { IfOk result (λ list. list.items ≡ periodic_list steps period book.now) }
    ensures plan { OnOk result (HasPeriodicPlan steps period book.now) }
    ensures refused { IfErr result (IsFault steps period book.now) }
{
    let mut stream = Periodic::new(alloc, steps, period, book)?;
    // Four actions a step, and two for no steps.
    let mut list = Vec::with_capacity(alloc, (4 * steps as usize).max(2))?;
    while let Some(action) = stream.next() {
        list.push(action)?;
    }
    Ok(list)
}

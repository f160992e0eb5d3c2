// The written list, one action at a time.
ghost use Rattle.std.specs.Prelude.{◌≡◌, ◌≤◌, [], ◌∷◌, MatchOption, IfOk, IfErr, OnOk, vec_len, vec_capacity, List, ◌++◌, cond};
ghost use Rattle.plan_types.specs.declared.limits.TheConstants.{MOST_STEPS};
ghost use Rattle.plan_types.specs.declared.action.Action.{Action};
ghost use Rattle.plan_types.specs.declared.action.Action.TheVariants.{EndReverse};
ghost use Rattle.level_book.specs.Prelude.{total_room};
ghost use Rattle.revolve_gen.specs.RevolveList.{revolve_list};
ghost use Rattle.revolve_gen.specs.Plans.{HasPlan, IsFault};

use crate::fault::{GenFault, Planned};
use crate::part::StretchStream;
use crate::stretch::Stretch;
use level_book::Book;
use plan_types::Action;
use std::alloc::Global;
use std::marker::Model;

/// The actions of a list still to come. It holds no list. It computes each action from a stack with an entry for each
/// held image.
#[derive(Drop)]
pub struct Revolve {
    stretch: StretchStream,
    ended: bool,
}

impl Revolve {
    /// The list for so many steps. Its stack uses the reserved room. It takes no memory.
    #[tactic(auto, using(crate::proofs::RemainderSteps::whole_stretch))]
    pub fn over(steps: u32, book: &Book, room: Vec<Stretch>) -> Revolve
        requires short { steps ≤ MOST_STEPS }
        requires plan { HasPlan steps (total_room book.now steps) }
        requires empty { vec_len room ≡ 0 }
        requires reserved { total_room book.now steps ≤ vec_capacity room }
        ensures { result ≡ revolve_list steps book.now }
    {
        let mut stretch = StretchStream::over(book, book.total_room(steps), room);
        stretch.begin(0, steps, true);
        Revolve {
            stretch,
            ended: false,
        }
    }

    /// The list for so many steps. Its stack has room for an entry for each slot.
    pub fn new(alloc: Global, steps: u32, book: &Book) -> Planned<Revolve>
        requires { steps ≤ MOST_STEPS }
        ensures list { IfOk result (λ r. r ≡ revolve_list steps book.now) }
        ensures plan { OnOk result (HasPlan steps (total_room book.now steps)) }
        ensures refused { IfErr result (IsFault steps (total_room book.now steps)) }
    {
        let slots = book.total_room(steps);
        if steps >= 2 && slots == 0 {
            return Err(GenFault::NoPlan(1));
        }
        let room = Vec::with_capacity(alloc, slots as usize)?;
        Ok(Revolve::over(steps, book, room))
    }

    /// The next action, and None after the last. It takes no memory.
    #[inline(always)]
    pub fn next(&mut self) -> Option<Action>
        ensures { MatchOption result ((self.old ≡ []) × (self.new ≡ [])) (λ action. self.old ≡ action ∷ self.new) }
    {
        if let Some(action) = self.stretch.next() {
            return Some(action);
        }
        if self.ended {
            return None;
        }
        self.ended = true;
        Some(Action::EndReverse)
    }
}

impl Model for Revolve {
    ghost Value = { List Action };

    ghost view = { λ r. r.stretch.actions ++ cond r.ended [] (EndReverse ∷ []) };
}

/// The whole list.
pub fn revolve_list(alloc: Global, steps: u32, book: &Book) -> Planned<Vec<Action>>
    requires { steps ≤ MOST_STEPS }
    ensures list { IfOk result (λ list. list.items ≡ revolve_list steps book.now) }
    ensures plan { OnOk result (HasPlan steps (total_room book.now steps)) }
    ensures refused { IfErr result (IsFault steps (total_room book.now steps)) }
{
    let mut stream = Revolve::new(alloc, steps, book)?;
    // Four actions a step, and two for no steps.
    let mut list = Vec::with_capacity(alloc, (4 * steps as usize).max(2))?;
    while let Some(action) = stream.next() {
        list.push(action)?;
    }
    Ok(list)
}

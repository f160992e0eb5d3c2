// The actions of a list, one after the other.
ghost use Rattle.std.specs.Prelude.{◌≡◌, [], ◌∷◌, MatchOption};
ghost use Rattle.reversal.specs.Prelude.{left_of};

use disk_gen::Periodic;
use multistage_gen::Multistage;
use plan_types::Action;
use revolve_gen::Revolve;
use std::marker::Model;

/// Where the actions come from.
#[derive(Drop)]
pub enum Actions {
    /// From a list in memory.
    Listed(Listed),
    /// From the stream of Revolve, which computes each when it is needed.
    Streamed(Revolve),
    /// From the stream of a periodic list, which computes each when it is needed.
    Periodic(Periodic),
    /// From a multistage plan, which computes each when it is needed.
    Multistage(Multistage),
}

impl Actions {
    /// The next action, and None after the last. It takes no memory.
    #[inline(always)]
    pub fn next(&mut self) -> Option<Action>
        ensures { MatchOption result ((left_of self.old ≡ []) × (left_of self.new ≡ [])) (λ action. left_of self.old ≡ action ∷ left_of self.new) }
    {
        match self {
            Actions::Listed(listed) => listed.next(),
            Actions::Streamed(revolve) => revolve.next(),
            Actions::Periodic(periodic) => periodic.next(),
            Actions::Multistage(plan) => plan.next(),
        }
    }
}

/// The actions of a list still to come.
#[derive(Drop)]
pub struct Listed {
    list: Vec<Action>,
    at: usize,
}

impl Listed {
    /// All actions of a list.
    pub fn new(list: Vec<Action>) -> Listed
        ensures { result ≡ list.items }
    {
        Listed { list, at: 0 }
    }

    // The next action.
    fn next(&mut self) -> Option<Action>
        ensures { MatchOption result ((self.old ≡ []) × (self.new ≡ [])) (λ action. self.old ≡ action ∷ self.new) }
    {
        let action = *self.list.get(self.at)?;
        self.at += 1;
        Some(action)
    }
}

impl Model for Listed {
    ghost use Rattle.std.specs.Prelude.{◌≤◌, List, length, drop};
    ghost use Rattle.plan_types.specs.declared.action.Action.{Action};

    ghost Value = { List Action };

    ghost view = { λ l. drop l.at l.list.items };

    ghost invariant = { λ l. l.at ≤ length l.list.items };
}

// Counting the actions of a list.
ghost use Rattle.std.specs.Prelude.{◌≡◌, ℕ, ◌+◌, ◌*◌, ◌^◌, ◌<◌, ◌≤◌, length, slice_index, cond};
ghost use Rattle.std.specs.List.{AllByRecursion};
ghost use Rattle.plan_types.specs.declared.limits.TheConstants.{MOST_ACTIONS, MOST_COST};
ghost use Rattle.level_book.specs.Prelude.{steps_of, is_taped, is_reversed, is_write, is_read, forward, taped, reversed, writes, reads};
ghost use Rattle.cost_fold.specs.CountableActions.{CanBeTallied};
ghost use Rattle.cost_fold.specs.CountsOf.{HasRoomForOne, all_of};

use crate::counts::Counts;
use plan_types::{Action, Dest, Keep};

// The counts of the actions so far.
#[derive(Clone, Copy, Default)]
struct SoFar {
    forward: u64,
    taped: u64,
    reversed: u64,
    writes: [u64; 4],
    reads: [u64; 4],
}

/// Counts what a list does, in one pass. It takes no memory.
pub fn tally(list: &[Action]) -> Counts
    requires few { length list.now ≤ MOST_ACTIONS }
    requires plain { AllByRecursion CanBeTallied list.now }
    ensures forward { result.forward ≡ forward list.now }
    ensures taped { result.taped ≡ taped list.now }
    ensures reversed { result.reversed ≡ reversed list.now }
    ensures writes { (k : ℕ) → k < 4 → slice_index result.writes k ≡ writes k list.now }
    ensures reads { (k : ℕ) → k < 4 → slice_index result.reads k ≡ reads k list.now }

    // At the greatest cost for each count, the sum fits in 64 bits.
    ensures bounded { all_of result * MOST_COST < 2 ^ 64 }
{
    let mut so_far = SoFar::default();
    for action in list {
        so_far.add(action);
    }
    Counts {
        forward: so_far.forward,
        taped: so_far.taped,
        reversed: so_far.reversed,
        writes: so_far.writes,
        reads: so_far.reads,
    }
}

impl SoFar {
    // Counts one action more.
    fn add(&mut self, action: &Action)
        requires plain { CanBeTallied action.now }
        requires room { HasRoomForOne self.old }
        ensures forward { self.new.forward ≡ self.old.forward + steps_of action.now }
        ensures taped { self.new.taped ≡ self.old.taped + cond (is_taped action.now) 1 0 }
        ensures reversed { self.new.reversed ≡ self.old.reversed + cond (is_reversed action.now) 1 0 }
        ensures writes { (k : ℕ) → k < 4 → slice_index self.new.writes k ≡ slice_index self.old.writes k + cond (is_write k action.now) 1 0 }
        ensures levels { (length self.new.writes ≡ length self.old.writes) × (length self.new.reads ≡ length self.old.reads) }
        ensures reads { (k : ℕ) → k < 4 → slice_index self.new.reads k ≡ slice_index self.old.reads k + cond (is_read k action.now) 1 0 }
    {
        match *action {
            Action::Forward { from, to, keep } => {
                self.forward += u64::from(to - from);
                match keep {
                    Keep::Nothing => {}
                    Keep::Store(level) => self.writes[level as usize] += 1,
                    Keep::Tape => self.taped += 1,
                }
            }
            Action::Reverse { .. } => self.reversed += 1,
            Action::Copy { from, dest, .. } | Action::Move { from, dest, .. } => {
                self.reads[from as usize] += 1;
                if let Dest::Level(level) = dest {
                    self.writes[level as usize] += 1;
                }
            }
            Action::EndForward | Action::EndReverse => {}
        }
    }
}

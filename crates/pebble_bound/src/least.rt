// The least number of forward steps.
ghost use Rattle.std.specs.Prelude.{◌≡◌, ◌+◌, ◌≤◌, ◌↔◌, List, Some, IsNone, IsSomeAnd};
ghost use Rattle.plan_types.specs.declared.action.Action.{Action};
ghost use Rattle.plan_types.specs.declared.limits.TheConstants.{MOST_STEPS};
ghost use Rattle.level_book.specs.Prelude.{BookCosts, forward};
ghost use Rattle.binomials.specs.Prelude.{least_advances};
ghost use Rattle.pebble_bound.specs.Laws.{IsValidWithin};

use binomials::least_advances;

/// The least number of forward steps of all valid lists for so many steps and slots. None where no list is valid: two
/// or more steps without a slot. It takes no memory.
pub fn least_forward(steps: u32, slots: u32) -> Option<u64>
    requires { steps ≤ MOST_STEPS }
    ensures none { IsNone result ↔ ((slots ≡ 0) × (2 ≤ steps)) }
    ensures at_most_one { steps ≤ 1 → result ≡ Some steps }
    ensures value { 1 ≤ steps → 1 ≤ slots → result ≡ Some (steps + least_advances steps slots) }

    // No valid list takes fewer. None says that no list is valid.
    ensures least { (book : BookCosts) (list : List Action) → IsValidWithin steps book slots list → IsSomeAnd result (λ n. n ≤ forward list) }
{
    if steps <= 1 {
        return Some(u64::from(steps));
    }
    if slots == 0 {
        return None;
    }
    Some(u64::from(steps) + least_advances(steps, slots))
}

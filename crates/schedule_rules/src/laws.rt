// Laws over the definitions of moves, rules and valid lists. Each function does nothing; its contract is the law.
ghost use Rattle.std.specs.Prelude.{ℕ, ◌<◌, List, length};
ghost use Rattle.plan_types.specs.declared.action.Action.{Action};
ghost use Rattle.level_book.specs.declared.book.Slots.{Slots};
ghost use Rattle.level_book.specs.Prelude.{Configuration, Valid};
ghost use Rattle.schedule_rules.specs.Laws.{RulesAreMoves, MovesAreUnique, ReachedIsSound, EndReverseIsLast, FirstBrokenIsUnique, ValidIsUnbroken, IsValidOrBroken};

/// Let no more be left to reverse than there are steps. Then an action breaks no rule exactly if it leads somewhere.
pub fn rules_are_moves()
    ensures { (steps : ℕ) (slots : List Slots) (c : Configuration) (a : Action) → RulesAreMoves steps slots c a }
{}

/// From one configuration an action leads to at most one.
pub fn moves_are_unique()
    ensures { (steps : ℕ) (slots : List Slots) (c : Configuration) (a : Action) → MovesAreUnique steps slots c a }
{}

/// Every reachable configuration is sound. No more is to be reversed than there are steps. Each level of the book is
/// within its slots. The tape is empty or holds the state before the next step to be reversed.
pub fn reached_is_sound()
    ensures { (steps : ℕ) (slots : List Slots) (c : Configuration) → ReachedIsSound steps slots c }
{}

/// A valid list has an action. Its last one is its only EndReverse.
pub fn end_reverse_is_last()
    ensures not_empty { (steps : ℕ) (slots : List Slots) (list : List Action) → Valid steps slots list → 0 < length list }
    ensures last { (steps : ℕ) (slots : List Slots) (list : List Action) → Valid steps slots list → EndReverseIsLast list }
{}

/// A list is first broken at one place at most, and there by one rule.
pub fn first_broken_is_unique()
    ensures { (steps : ℕ) (slots : List Slots) (list : List Action) → FirstBrokenIsUnique steps slots list }
{}

/// No list is both valid and broken.
pub fn valid_lists_are_unbroken()
    ensures { (steps : ℕ) (slots : List Slots) (list : List Action) → ValidIsUnbroken steps slots list }
{}

/// Every list is valid, or has a first place at which it is broken.
pub fn lists_are_valid_or_broken()
    ensures { (steps : ℕ) (slots : List Slots) (list : List Action) → IsValidOrBroken steps slots list }
{}

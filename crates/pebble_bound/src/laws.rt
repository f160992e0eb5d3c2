// Laws over all valid lists. Each function does nothing; its contract is the law.
ghost use Rattle.std.specs.Prelude.{ℕ, List};
ghost use Rattle.plan_types.specs.declared.action.Action.{Action};
ghost use Rattle.level_book.specs.Prelude.{BookCosts};
ghost use Rattle.pebble_bound.specs.Laws.{FewAreAdvancedSeldom, EachIsTapedOnce, ForwardIsBounded, NoneIsBelowRevolve, NoneWithoutSlots};

/// For every k, a valid list advances at most β(c, k) steps at most k times without tape.
pub fn few_are_advanced_seldom()
    ensures { (steps : ℕ) (book : BookCosts) (c : ℕ) (list : List Action) → FewAreAdvancedSeldom steps book c list }
{}

/// A valid list tapes each step exactly once.
pub fn each_is_taped_once()
    ensures { (steps : ℕ) (book : BookCosts) (list : List Action) → EachIsTapedOnce steps book list }
{}

/// A valid list takes at least N + k · N − β(c + 1, k − 1) forward steps, for every k.
pub fn forward_is_bounded()
    ensures { (steps : ℕ) (book : BookCosts) (c : ℕ) (list : List Action) → ForwardIsBounded steps book c list }
{}

/// A valid list takes at least N + t(N, c) forward steps, as many as Revolve takes.
pub fn none_is_below_revolve()
    ensures { (steps : ℕ) (book : BookCosts) (c : ℕ) (list : List Action) → NoneIsBelowRevolve steps book c list }
{}

/// Without a slot no list is valid for more than one step.
pub fn none_without_slots()
    ensures { (steps : ℕ) (book : BookCosts) (list : List Action) → NoneWithoutSlots steps book list }
{}

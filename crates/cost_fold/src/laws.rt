// Laws over the counts of lists. Each function does nothing; its contract is the law.
ghost use Rattle.std.specs.Prelude.{◌≡◌, ◌+◌, ◌++◌, ℕ, List};
ghost use Rattle.plan_types.specs.declared.action.Action.{Action};
ghost use Rattle.level_book.specs.Prelude.{forward, taped, reversed, writes, reads};

/// The counts of two lists, one after the other, are the sums of their counts.
pub fn counts_add_up()
    ensures forward { (xs ys : List Action) → forward (xs ++ ys) ≡ forward xs + forward ys }
    ensures taped { (xs ys : List Action) → taped (xs ++ ys) ≡ taped xs + taped ys }
    ensures reversed { (xs ys : List Action) → reversed (xs ++ ys) ≡ reversed xs + reversed ys }
    ensures writes { (k : ℕ) (xs ys : List Action) → writes k (xs ++ ys) ≡ writes k xs + writes k ys }
    ensures reads { (k : ℕ) (xs ys : List Action) → reads k (xs ++ ys) ≡ reads k xs + reads k ys }
{}

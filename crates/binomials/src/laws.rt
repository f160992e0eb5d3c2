// Laws over the numbers. Each function does nothing; its contract is the law.
ghost use Rattle.std.specs.Prelude.{ℕ};
ghost use Rattle.binomials.specs.Laws.{BetaIsBinomial, RepeatsAreBetween, AdvancesAreGreatest, SplitIsLeast};

/// The number β(c, k) of the recurrence is (c + k)! / (c! k!).
pub fn beta_is_binomial()
    ensures { (c k : ℕ) → BetaIsBinomial c k }
{}

/// The number of repeats is the one between two binomial numbers.
pub fn repeats_are_between()
    ensures { (l c : ℕ) → RepeatsAreBetween l c }
{}

/// For the r between two binomial numbers, t(l, c) is r · l − β(c + 1, r − 1). For no other k is k · l − β(c + 1, k −
/// 1) greater.
pub fn advances_are_greatest()
    ensures { (l c : ℕ) → AdvancesAreGreatest l c }
{}

/// A stretch is split so that t(l, c) is the least sum over all splits.
pub fn split_is_least()
    ensures { (l c : ℕ) → SplitIsLeast l c }
{}

// Repeats, advanced steps and the split of a stretch.
ghost use Rattle.std.specs.Prelude.{◌≡◌, ◌<◌, ◌≤◌, ◌*◌};
ghost use Rattle.plan_types.specs.declared.limits.TheConstants.{MOST_STEPS};
ghost use Rattle.binomials.specs.Advances.{IsRepeats, repeats, least_advances, split};
ghost use Rattle.binomials.specs.Laws.{IsSplit};

use crate::climb::climb_to;

/// The most often that a step is advanced, if `l` steps are reversed with `c` slots. It is the r with β(c, r − 1) < l ≤
/// β(c, r). It takes no memory.
pub fn repeats(l: u32, c: u32) -> u32
    requires some { 1 ≤ l }
    requires short { l ≤ MOST_STEPS }
    requires slots { 1 ≤ c }
    ensures value { result ≡ repeats l c }
    ensures between { IsRepeats l c result }
    ensures few { result < l }
{
    climb_to(l, c).repeats as u32
}

/// The number of steps advanced without tape to reverse `l` steps with `c` slots. It is t(l, c) = r · l − β(c + 1, r −
/// 1). It takes no memory.
pub fn least_advances(l: u32, c: u32) -> u64
    requires some { 1 ≤ l }
    requires short { l ≤ MOST_STEPS }
    requires slots { 1 ≤ c }
    ensures value { result ≡ least_advances l c }

    // So that a sum with it fits.
    ensures few { result < l * l }
{
    let climb = climb_to(l, c);
    climb.repeats * l as u64 - climb.below
}

/// How many steps from its start a stretch of `l` steps is split. It is max(1, β(c, r − 2), l − β(c − 1, r)). It takes
/// no memory.
pub fn split(l: u32, c: u32) -> u32
    requires some { 2 ≤ l }
    requires short { l ≤ MOST_STEPS }
    requires slots { 1 ≤ c }
    ensures value { result ≡ split l c }
    ensures within { IsSplit l c result }
{
    let climb = climb_to(l, c);
    let behind = climb.reached - climb.before;
    let least = (l as u64).saturating_sub(behind).max(1);
    climb.earlier.max(least) as u32
}

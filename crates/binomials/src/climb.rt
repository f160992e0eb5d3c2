// The binomial numbers round the number of repeats of a stretch.
ghost use Rattle.std.specs.Prelude.{◌≤◌};
ghost use Rattle.plan_types.specs.declared.limits.TheConstants.{MOST_STEPS};
ghost use Rattle.binomials.specs.ClimbState.{IsClimb};

// For the number r of repeats of a stretch with c slots.
#[derive(Clone, Copy)]
pub(crate) struct Climb {
    // r.
    pub repeats: u64,
    // β(c, r).
    pub reached: u64,
    // β(c, r − 1).
    pub before: u64,
    // β(c, r − 2).
    pub earlier: u64,
    // β(c + 1, r − 1), which is the sum of β(c, 0) to β(c, r − 1).
    pub below: u64,
}

// Climbs from β(c, 0) to the first number that is at least the steps. With one slot the numbers are 1, 2, 3 and so on.
pub(crate) fn climb_to(steps: u32, slots: u32) -> Climb
    requires some { 1 ≤ steps }
    requires short { steps ≤ MOST_STEPS }
    requires slots { 1 ≤ slots }
    ensures { IsClimb steps slots result }
{
    let length = steps as u64;
    let slots = slots as u64;
    if slots == 1 {
        let before = length - 1;
        return Climb {
            repeats: before,
            reached: length,
            before,
            earlier: before.saturating_sub(1),
            below: before * length / 2,
        };
    }
    let mut repeats = 0;
    let mut reached = 1;
    let mut before = 0;
    let mut earlier = 0;
    let mut below = 0;
    while reached < length {
        below += reached;
        repeats += 1;
        earlier = before;
        before = reached;
        reached = reached * (slots + repeats) / repeats;
    }
    Climb {
        repeats,
        reached,
        before,
        earlier,
        below,
    }
}

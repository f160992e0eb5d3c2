// Where there is a plan.
ghost use Rattle.std.specs.Prelude.{◌≡◌, ◌≤◌, IfOk, IfErr, OnOk};
ghost use Rattle.plan_types.specs.declared.limits.TheConstants.{MOST_STEPS};
ghost use Rattle.disk_gen.specs.PeriodicList.{images};
ghost use Rattle.disk_gen.specs.Plans.{HasPeriodicPlan, IsFault};

use level_book::{Book, Slots};
use revolve_gen::{GenFault, Planned};

// How many images the slower level has.
fn images(steps: u32, period: u32) -> u32
    requires short { steps ≤ MOST_STEPS }
    requires some { 1 ≤ period }
    requires small { period ≤ MOST_STEPS }
    ensures { result ≡ images steps period }
{
    ((steps + (period - 1)) / period).saturating_sub(1)
}

// How many images the slower level has, where there is a plan.
pub(crate) fn planned_images(steps: u32, period: u32, book: &Book) -> Planned<u32>
    requires short { steps ≤ MOST_STEPS }
    requires some { 1 ≤ period }
    requires small { period ≤ MOST_STEPS }
    ensures value { IfOk result (λ n. n ≡ images steps period) }
    ensures plan { OnOk result (HasPeriodicPlan steps period book.now) }
    ensures refused { IfErr result (IsFault steps period book.now) }
{
    if book.levels() != 2 {
        return Err(GenFault::NoPlan(2));
    }
    if steps >= 2 && period >= 2 && book.room(0, steps) == 0 {
        return Err(GenFault::NoPlan(1));
    }
    let count = images(steps, period);
    if let Slots::Count(slots) = book.level(1).slots {
        if slots < count {
            return Err(GenFault::NoPlan(4));
        }
    }
    Ok(count)
}

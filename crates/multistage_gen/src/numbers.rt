// The traffic of the places of a list of Revolve, from the counts of its stretches, without the list.
ghost use Rattle.std.specs.Prelude.{◌≡◌, ℕ, ◌+◌, ◌*◌, ◌<◌, ◌≤◌, [], length, take, drop, IfOk, OnOk};
ghost use Rattle.std.specs.List.{AllByRecursion};
ghost use Rattle.plan_types.specs.declared.limits.TheConstants.{MOST_STEPS};
ghost use Rattle.revolve_gen.specs.Prelude.{HasPlan, written, read, revolve};
ghost use Rattle.multistage_gen.specs.Traffic.{IsTraffic};
ghost use Rattle.multistage_gen.specs.Numbers.{weigh, steps_of, count_of, IsOf, AreOf, IsCountedOn, AreCounted, AreAscending};

use crate::traffic::PlaceTraffic;
use binomials::split;
use std::alloc::{AllocError, Global};

// So many stretches of so many steps each.
#[derive(Clone, Copy)]
struct Stretches {
    steps: u32,
    count: u32,
}

// How often Revolve's list for so many steps and slots writes and reads each place. The levels don't matter. Equally
// long stretches that begin on one place have equal traffic, so they are counted together.
pub(crate) fn revolve_places(
    alloc: Global,
    steps: u32,
    slots: u32,
) -> Result<Vec<PlaceTraffic>, AllocError>
    requires short { steps ≤ MOST_STEPS }
    requires plan { HasPlan steps slots }
    ensures { IfOk result (λ places. (level : ℕ → ℕ) →
        IsTraffic (written 0 (revolve level steps slots)) (read 0 (revolve level steps slots)) places.items) }
{
    let mut places = Vec::new(alloc);
    let mut stretches = whole(alloc, steps)?;
    let mut free = slots;
    while !stretches.is_empty() {
        let (traffic, above) = count_place(alloc, stretches, free)?;
        places.push(traffic)?;
        stretches = above;
        free -= 1;
    }
    Ok(places)
}

// The stretch of all steps, if there are two or more.
fn whole(alloc: Global, steps: u32) -> Result<Vec<Stretches>, AllocError>
    requires { steps ≤ MOST_STEPS }
    ensures counted { IfOk result (λ stretches. (slots : ℕ) → HasPlan steps slots → AreCounted steps slots slots [] stretches.items) }
    ensures ascending { IfOk result (λ stretches. AreAscending stretches.items) }
{
    let mut stretches = Vec::new(alloc);
    if steps > 1 {
        stretches.push(Stretches { steps, count: 1 })?;
    }
    Ok(stretches)
}

// The traffic of the place where these stretches begin, with so many slots free. Also the stretches of two or more
// steps that begin on the place above. A stretch begins with a write, its first visit. Each part that stays held is
// another visit, a read.
fn count_place(
    alloc: Global,
    mut stretches: Vec<Stretches>,
    free: u32,
) -> Result<(PlaceTraffic, Vec<Stretches>), AllocError>
    requires begun { AreOf 2 free stretches.items }
    requires short { steps_of stretches.items ≤ MOST_STEPS }
    requires ascending { AreAscending stretches.items }
    ensures counted { IfOk result (λ r. IsCountedOn free stretches.items r.0 r.1.items) }
    ensures ascending { IfOk result (λ r. AreAscending r.1.items) }
{
    let writes = count_of(&stretches);
    let mut visits = 0;
    let mut above = Vec::new(alloc);
    while let Some(Stretches { steps, count }) = stretches.pop() {
        visits += u64::from(count);
        if steps > 1 {
            let ahead = split(steps, free);
            add(&mut stretches, ahead, count)?;
            begin_above(&mut above, steps - ahead, count)?;
        }
    }
    let reads = visits - writes;
    Ok((PlaceTraffic { writes, reads }, above))
}

// How many stretches these are.
fn count_of(stretches: &[Stretches]) -> u64
    requires { count_of stretches.now ≤ MOST_STEPS }
    ensures { result ≡ count_of stretches.now }
{
    let mut count = 0;
    for of in stretches {
        count += u64::from(of.count);
    }
    count
}

// Begins so many stretches of so many steps. A single step doesn't begin on a place.
fn begin_above(above: &mut Vec<Stretches>, steps: u32, count: u32) -> Result<(), AllocError>
    requires few { count_of above.old.items + count ≤ MOST_STEPS }
    requires ascending { AreAscending above.old.items }
    ensures weighed { OnOk result ((weight : ℕ → ℕ) → weight 1 ≡ 0 → 1 ≤ steps →
        weigh weight above.new.items ≡ weigh weight above.old.items + count * weight steps) }
    ensures short { OnOk result (steps_of above.new.items ≤ steps_of above.old.items + count * steps) }
    ensures all { OnOk result ((c : ℕ) → AreOf 2 c above.old.items → IsOf 1 c (record { steps = steps; count = count }) → AreOf 2 c above.new.items) }
    ensures ascending { OnOk result (AreAscending above.new.items) }
{
    if steps > 1 {
        add(above, steps, count)?;
    }
    Ok(())
}

// Adds so many stretches of so many steps to some that are sorted by steps. Equally long ones are counted together.
fn add(stretches: &mut Vec<Stretches>, steps: u32, count: u32) -> Result<(), AllocError>
    requires few { count_of stretches.old.items + count ≤ MOST_STEPS }
    requires ascending { AreAscending stretches.old.items }
    ensures weighed { OnOk result ((weight : ℕ → ℕ) → weigh weight stretches.new.items ≡ weigh weight stretches.old.items + count * weight steps) }
    ensures all { OnOk result ((least c : ℕ) → AreOf least c stretches.old.items → IsOf least c (record { steps = steps; count = count }) →
        AreOf least c stretches.new.items) }
    ensures ascending { OnOk result (AreAscending stretches.new.items) }
{
    let behind = first_above(stretches, steps);
    if behind > 0 && stretches[behind - 1].steps == steps {
        stretches[behind - 1].count += count;
        return Ok(());
    }
    stretches.insert(behind, Stretches { steps, count })?;
    Ok(())
}

// The index of the first that have more steps.
fn first_above(stretches: &[Stretches], steps: u32) -> usize
    requires { AreAscending stretches.now }
    ensures within { result ≤ length stretches.now }
    ensures before { AllByRecursion (λ s. s.steps ≤ steps) (take result stretches.now) }
    ensures behind { AllByRecursion (λ s. steps < s.steps) (drop result stretches.now) }
{
    let mut index = stretches.len();
    while index > 0 && stretches[index - 1].steps > steps {
        index -= 1;
    }
    index
}

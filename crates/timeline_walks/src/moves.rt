// Moves that consist of others.
ghost use Rattle.std.specs.Prelude.{◌≡◌, ◌+◌, ◌≤◌};
ghost use Rattle.run_timeline.specs.declared.stops.Step.TheVariants.{Went};
ghost use Rattle.run_timeline.specs.Prelude.{EndsForward, EndsBackward};

use run_timeline::{Hit, Part, Step, Stops, Timeline};
use rv_machine::Steps;
use std::sync::ledger::Ledger;

/// A move forward in parts.
pub fn part_on<L: Ledger>(
    timeline: &mut Timeline,
    stops: &Stops,
    steps: &mut Steps<L>,
) -> Option<Hit>
    ensures ends { EndsForward timeline.old.run stops.now timeline.old.place timeline.new.place result }
    ensures counted { steps.new + timeline.old.place ≡ steps.old + timeline.new.place }
{
    if let Part::Ended(hit) = timeline.begin_forward(stops, steps) {
        return hit;
    }
    loop {
        let part = timeline.look_forward(stops, steps);
        timeline.are_places();
        if let Part::Ended(hit) = part {
            return hit;
        }
    }
}

/// A move backward in parts.
pub fn part_back<L: Ledger>(
    timeline: &mut Timeline,
    stops: &Stops,
    steps: &mut Steps<L>,
) -> Option<Hit>
    ensures { EndsBackward timeline.old.run stops.now timeline.old.place timeline.new.place result }
{
    timeline.are_places();
    let mut end = timeline.place();
    while end > 0 {
        let (from, found) = timeline.look_back(end, stops, steps);
        if let Some((at, hit)) = found {
            timeline.are_places();
            timeline.go_to(at, steps);
            return Some(hit);
        }
        end = from;
    }
    timeline.go_to(0, steps);
    None
}

/// Takes so many steps, up to the first that isn't taken. It returns how the last one ended.
pub fn steps_on<L: Ledger>(
    timeline: &mut Timeline,
    stops: &Stops,
    count: u32,
    steps: &mut Steps<L>,
) -> Step
    ensures { steps.new ≤ steps.old + count }
{
    for _done in 0..count {
        let step = timeline.step_forward(stops, steps);
        if step != Step::Went {
            return step;
        }
    }
    Step::Went
}

/// Takes so many steps back, up to the first that isn't taken. It returns how the last one ended. Undoing steps takes
/// no step of the machine.
pub fn steps_back<L: Ledger>(
    timeline: &mut Timeline,
    stops: &Stops,
    count: u32,
    steps: &mut Steps<L>,
) -> Step
    ensures { count ≤ timeline.old.trail → result ≡ Went → steps.new ≡ steps.old }
{
    for _done in 0..count {
        let step = timeline.step_back(stops, steps);
        if step != Step::Went {
            return step;
        }
    }
    Step::Went
}

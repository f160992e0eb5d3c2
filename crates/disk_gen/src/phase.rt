// How far a periodic list is written, and what comes after the current stretch.
ghost use Rattle.std.specs.Prelude.{◌≡◌, ◌+◌, ◌*◌, ◌≤◌, [], ◌∷◌, ◌++◌, MatchOption, IfSome};
ghost use Rattle.disk_gen.specs.Remainder.{owed_behind, IsOwing};

use plan_types::{Action, Dest, Keep};
use revolve_gen::StretchStream;

// What is to be written after the current stretch.
#[derive(Clone, Copy)]
pub(crate) enum Phase {
    // So many images are held on level 1, and so many more will be.
    Ahead { held: u32, left: u32 },
    // The stretches of so many images, the last of them first.
    Back { held: u32 },
    // Nothing: the end was written.
    Ended,
}

// The way over a stretch whose image is held on level 1. After the last of them the last stretch begins.
#[tactic(auto, using(crate::proofs::RemainderSteps::store_fits, crate::proofs::RemainderSteps::held_small))]
fn store_next(
    period: u32,
    last: u32,
    stretch: &mut StretchStream,
    held: u32,
    left: u32,
) -> (Action, Phase)
    requires owing { IsOwing period last stretch.old.levels stretch.old.slots (Phase.Ahead held left) }
    requires done { stretch.old.actions ≡ [] }
    ensures written { owed_behind period last stretch.old.slots (Phase.Ahead held left) ≡ result.0 ∷ (stretch.new.actions
        ++ owed_behind period last stretch.new.slots result.1) }
    ensures owing { IsOwing period last stretch.new.levels stretch.new.slots result.1 }
{
    let start = held * period;
    let action = Action::Forward {
        from: start,
        to: start + period,
        keep: Keep::Store(1),
    };
    let held = held + 1;
    if left > 1 {
        let left = left - 1;
        return (action, Phase::Ahead { held, left });
    }
    stretch.begin(start + period, last, true);
    (action, Phase::Back { held })
}

// The stretch of the newest of so many images begins.
#[tactic(auto, using(crate::proofs::RemainderSteps::load_fits))]
fn load_newest(period: u32, last: u32, stretch: &mut StretchStream, held: u32) -> (Action, Phase)
    requires owing { IsOwing period last stretch.old.levels stretch.old.slots (Phase.Back held) }
    requires done { stretch.old.actions ≡ [] }
    requires some { 1 ≤ held }
    ensures written { owed_behind period last stretch.old.slots (Phase.Back held) ≡ result.0 ∷ (stretch.new.actions
        ++ owed_behind period last stretch.new.slots result.1) }
    ensures owing { IsOwing period last stretch.new.levels stretch.new.slots result.1 }
{
    let held = held - 1;
    let start = held * period;
    stretch.begin(start, period, false);
    let action = Action::Move {
        n: start,
        from: 1,
        dest: Dest::Work,
    };
    (action, Phase::Back { held })
}

// The next action after a written stretch, and what comes after it.
pub(crate) fn next_behind(
    period: u32,
    last: u32,
    stretch: &mut StretchStream,
    phase: Phase,
) -> Option<(Action, Phase)>
    requires owing { IsOwing period last stretch.old.levels stretch.old.slots phase }
    requires done { stretch.old.actions ≡ [] }
    ensures written { MatchOption result (owed_behind period last stretch.old.slots phase ≡ []) (λ r.
        owed_behind period last stretch.old.slots phase ≡ r.0 ∷ (stretch.new.actions ++ owed_behind period last stretch.new.slots r.1)) }
    ensures owing { IfSome result (λ r. IsOwing period last stretch.new.levels stretch.new.slots r.1) }
    ensures kept { result ≡ None → stretch.new ≡ stretch.old }
{
    match phase {
        Phase::Ahead { held, left } => Some(store_next(period, last, stretch, held, left)),
        Phase::Back { held } => {
            if held == 0 {
                return Some((Action::EndReverse, Phase::Ended));
            }
            Some(load_newest(period, last, stretch, held))
        }
        Phase::Ended => None,
    }
}

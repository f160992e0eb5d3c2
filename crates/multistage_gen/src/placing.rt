// An action with its image on another level.
ghost use Rattle.std.specs.Prelude.{◌≡◌, ◌+◌, ◌<◌, ◌^◌, slice_index};
ghost use Rattle.revolve_gen.specs.Prelude.{stack_step, place, held_after, on_level};

use plan_types::Action;
use revolve_gen::{StackStep, on_level};

// The level of a place, 0 where the list has none for it.
fn level_of(levels: &[u8], place: usize) -> u8
    ensures { result ≡ slice_index levels.now place }
{
    levels.get(place).copied().unwrap_or(0)
}

// The action with its image on its place's level, and the images held after it. So many are held before it.
pub(crate) fn placed_action(levels: &[u8], held: usize, action: Action) -> (Action, usize)
    requires { held + 1 < 2 ^ 64 }
    ensures action { result.0 ≡ on_level (slice_index levels.now (place held (stack_step action))) action }
    ensures held { result.1 ≡ held_after held (stack_step action) }
{
    match StackStep::of(&action) {
        // More than half of the actions don't change the stack.
        StackStep::Stay => (action, held),
        step => {
            let level = level_of(levels, step.place(held));
            (on_level(level, action), step.held_after(held))
        }
    }
}

// What actions do with a stack of images.
ghost use Rattle.std.specs.Prelude.{◌≡◌, ◌+◌, ◌<◌, ◌^◌};
ghost use Rattle.revolve_gen.specs.Stack.{stack_step, place, held_after, on_level};

use plan_types::{Action, Dest, Keep};

/// What an action does to a stack of images. A Copy or a Move is of the newest.
#[derive(Clone, Copy, PartialEq, Eq)]
pub enum StackStep {
    /// It puts an image on top.
    Push,
    /// It reads the image on top.
    Read,
    /// It reads the image on top, and takes it away.
    Pop,
    /// It doesn't change the stack.
    Stay,
}

impl StackStep {
    /// What the action does with the stack.
    pub fn of(action: &Action) -> StackStep
        ensures { result ≡ stack_step action.now }
    {
        match action {
            Action::Forward { keep, .. } => match keep {
                Keep::Store(_) => StackStep::Push,
                Keep::Nothing => StackStep::Stay,
                Keep::Tape => StackStep::Stay,
            },
            Action::Copy { .. } => StackStep::Read,
            Action::Move { .. } => StackStep::Pop,
            Action::Reverse { .. } => StackStep::Stay,
            Action::EndForward => StackStep::Stay,
            Action::EndReverse => StackStep::Stay,
        }
    }

    /// The place of its image, counted from 0, where so many images are held.
    pub fn place(self, held: usize) -> usize
        ensures { result ≡ place held self }
    {
        match self {
            StackStep::Push => held,
            StackStep::Read => held.saturating_sub(1),
            StackStep::Pop => held.saturating_sub(1),
            StackStep::Stay => held.saturating_sub(1),
        }
    }

    /// How many images are held after it, from so many before.
    pub fn held_after(self, held: usize) -> usize
        requires { held + 1 < 2 ^ 64 }
        ensures { result ≡ held_after held self }
    {
        match self {
            StackStep::Push => held + 1,
            StackStep::Read => held,
            StackStep::Pop => held.saturating_sub(1),
            StackStep::Stay => held,
        }
    }
}

/// The action with its image on this level, if it has an image. A Copy or a Move goes to Work.
pub fn on_level(level: u8, action: Action) -> Action
    ensures { result ≡ on_level level action }
{
    match action {
        Action::Forward { from, to, keep } => match keep {
            Keep::Store(_) => Action::Forward {
                from,
                to,
                keep: Keep::Store(level),
            },
            Keep::Nothing => action,
            Keep::Tape => action,
        },
        Action::Copy { n, .. } => Action::Copy {
            n,
            from: level,
            dest: Dest::Work,
        },
        Action::Move { n, .. } => Action::Move {
            n,
            from: level,
            dest: Dest::Work,
        },
        Action::Reverse { .. } => action,
        Action::EndForward => action,
        Action::EndReverse => action,
    }
}

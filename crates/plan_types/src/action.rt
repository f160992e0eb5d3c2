// The six actions of a schedule, named as in the manual of checkpoint_schedules.
ghost use Rattle.std.specs.Prelude.{◌≡◌};

/// What a Forward keeps of the state at its `from`.
#[derive(Clone, Copy, PartialEq, Eq)]
pub enum Keep {
    /// Keeps nothing of it.
    Nothing,
    /// The state, on the level with this number: `write_ics` in the manual.
    Store(u8),
    /// The state, on the tape: `write_adj_deps` in the manual.
    Tape,
}

/// Where a Copy or a Move takes an image.
#[derive(Clone, Copy, PartialEq, Eq)]
pub enum Dest {
    /// Into the work state.
    Work,
    /// To the level with this number.
    Level(u8),
}

/// One action of a schedule. Positions are numbers of states, counted from 0.
#[derive(Clone, Copy, PartialEq, Eq)]
pub enum Action {
    /// Steps the work state from `from` to `to`.
    Forward { from: u32, to: u32, keep: Keep },
    /// Reverses the step from `to` to `from`, by the state on the tape.
    Reverse { from: u32, to: u32 },
    /// Takes the image of state `n` from level `from`, and keeps it there too.
    Copy { n: u32, from: u8, dest: Dest },
    /// Takes the image of state `n` from level `from`, and frees its slot.
    Move { n: u32, from: u8, dest: Dest },
    /// Says that the last state is reached.
    EndForward,
    /// Says that every step is reversed.
    EndReverse,
}

impl Action {
    /// Steps the work state, and keeps nothing.
    pub fn advance(from: u32, to: u32) -> Action
        ensures { result ≡ Action.Forward from to Keep.Nothing }
    {
        Action::Forward {
            from,
            to,
            keep: Keep::Nothing,
        }
    }

    /// Steps the work state, and keeps the state at `from` on a level.
    pub fn store(from: u32, to: u32, level: u8) -> Action
        ensures { result ≡ Action.Forward from to (Keep.Store level) }
    {
        Action::Forward {
            from,
            to,
            keep: Keep::Store(level),
        }
    }

    /// Steps the work state, and keeps the state at `from` on the tape.
    pub fn tape(from: u32, to: u32) -> Action
        ensures { result ≡ Action.Forward from to Keep.Tape }
    {
        Action::Forward {
            from,
            to,
            keep: Keep::Tape,
        }
    }

    /// Reverses the one step between two states.
    pub fn reverse(from: u32, to: u32) -> Action
        ensures { result ≡ Action.Reverse from to }
    {
        Action::Reverse { from, to }
    }

    /// Loads the image of a state from a level, where it stays.
    pub fn load(n: u32, level: u8) -> Action
        ensures { result ≡ Action.Copy n level Dest.Work }
    {
        Action::Copy {
            n,
            from: level,
            dest: Dest::Work,
        }
    }

    /// Loads the image of a state from a level, and frees its slot.
    pub fn take(n: u32, level: u8) -> Action
        ensures { result ≡ Action.Move n level Dest.Work }
    {
        Action::Move {
            n,
            from: level,
            dest: Dest::Work,
        }
    }
}

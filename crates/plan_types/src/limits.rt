// The limits of a plan.

/// The most steps that a schedule may reverse.
pub const MOST_STEPS: u32 = 1_000_000;

/// The most slots that a level may have, unless they are unlimited.
pub const MOST_SLOTS: u32 = 1_000_000;

/// The most actions in a list.
pub const MOST_ACTIONS: usize = 16_777_216;

/// The most that a step, a write or a read may cost.
pub const MOST_COST: u64 = 1_000_000;

// The keeper of a level in a case.

use crate::seen::SeenKeeper;
use keepers::{EitherKeeper, FlipKeeper, MemoryKeeper};

/// A keeper in memory with listed failing calls, or one that gives a wrong bit.
pub type CaseKeeper = EitherKeeper<MemoryKeeper, FlipKeeper>;

/// What a case sees of a keeper.
pub fn seen_case_keeper(keeper: &CaseKeeper) -> SeenKeeper {
    match keeper {
        EitherKeeper::First(keeper) => SeenKeeper::in_memory(keeper),
        EitherKeeper::Second(keeper) => SeenKeeper {
            counts: keeper.counts(),
            held: None,
        },
    }
}

// A keeper of one of two kinds.
use crate::file_keeper::FileKeeper;
use crate::keeper::{KeepFault, Keeper};
use crate::memory_keeper::MemoryKeeper;
use crate::storage::Storage;

/// A keeper of one of two kinds, so that a book's levels can have both. Its calls are its part's.
#[derive(Drop)]
pub enum EitherKeeper<A, B> {
    First(A),
    Second(B),
}

/// A keeper in memory, which is the first kind, or over files.
pub type AnyKeeper<D> = EitherKeeper<MemoryKeeper, FileKeeper<D>>;

impl<A: Keeper, B: Keeper> Storage for EitherKeeper<A, B> {
    ghost use Rattle.keepers.specs.EitherKeeper.{of_part};

    ghost told = { of_part A.told B.told };

    ghost slot_count = { of_part A.slot_count B.slot_count };

    ghost put_count = { of_part A.put_count B.put_count };

    ghost get_count = { of_part A.get_count B.get_count };

    ghost free_count = { of_part A.free_count B.free_count };

    ghost fault_count = { of_part A.fault_count B.fault_count };

    ghost room_bytes = { of_part A.room_bytes B.room_bytes };

    ghost place = { of_part A.place B.place };
}

impl<A: Keeper, B: Keeper> Keeper for EitherKeeper<A, B> {
    ghost use Rattle.keepers.specs.EitherKeeper.{Relates};

    ghost put_does = { λ old slot image answer new. Relates (λ a b. A.put_does a slot image answer b) (λ a b. B.put_does a slot image answer b) old new };

    ghost get_does = { λ old slot len bytes answer new. Relates (λ a b. A.get_does a slot len bytes answer b) (λ a b. B.get_does a slot len bytes answer b) old new };

    ghost free_does = { λ old slot answer new. Relates (λ a b. A.free_does a slot answer b) (λ a b. B.free_does a slot answer b) old new };

    fn slots(&self) -> u32 {
        match self {
            EitherKeeper::First(keeper) => keeper.slots(),
            EitherKeeper::Second(keeper) => keeper.slots(),
        }
    }

    fn put(&mut self, slot: u32, image: &[u8]) -> Result<(), KeepFault> {
        match self {
            EitherKeeper::First(keeper) => keeper.put(slot, image),
            EitherKeeper::Second(keeper) => keeper.put(slot, image),
        }
    }

    fn get(&mut self, slot: u32, len: u32, into: &mut Vec<u8>) -> Result<(), KeepFault> {
        match self {
            EitherKeeper::First(keeper) => keeper.get(slot, len, into),
            EitherKeeper::Second(keeper) => keeper.get(slot, len, into),
        }
    }

    fn free(&mut self, slot: u32) -> Result<(), KeepFault> {
        match self {
            EitherKeeper::First(keeper) => keeper.free(slot),
            EitherKeeper::Second(keeper) => keeper.free(slot),
        }
    }
}

// Where images are kept.
ghost use Rattle.std.specs.Prelude.{◌≡◌, ℕ, ◌<◌, List};

use crate::storage::Storage;
use thiserror::Error;

/// Why a keeper refuses a call.
#[derive(Clone, Copy, Debug, PartialEq, Eq, Error)]
pub enum KeepFault {
    /// The storage failed.
    #[error("the storage failed")]
    Failed,
    /// There was no memory.
    #[error("out of memory")]
    Memory,
}

/// Slots of storage, each with an image or empty.
pub trait Keeper: Storage {
    ghost use Rattle.keepers.specs.Calls.{Puts, Gets, Frees};
    ghost use Rattle.keepers.specs.CallEffects.{Answer};

    /// Further facts of a call, where a keeper claims more than the trait. They relate the keeper before it, the slot,
    /// the bytes, the answer, and the keeper after it.
    ghost put_does: { Self → ℕ → List ℕ → Answer → Self → Type 0 } = { λ _ _ _ _ _. Unit {0} };

    ghost get_does: { Self → ℕ → ℕ → List ℕ → Answer → Self → Type 0 } = { λ _ _ _ _ _ _. Unit {0} };

    ghost free_does: { Self → ℕ → Answer → Self → Type 0 } = { λ _ _ _ _. Unit {0} };

    /// The number of slots.
    fn slots(&self) -> u32
        ensures { result ≡ Self.slot_count self.now };

    /// Puts an image into a slot, replacing what was there. After a refusal the slot may hold anything. If the keeper
    /// has a room, an image of at most so many bytes takes no memory.
    fn put(&mut self, slot: u32, image: &[u8]) -> Result<(), KeepFault>
        requires { slot < Self.slot_count self.old }
        ensures puts { Puts Self.Storage slot image.now result self.old self.new }
        ensures does { put_does self.old slot image.now result self.new };

    /// Gets the first `len` bytes of the image in a slot, or no bytes if the slot is empty. After a refusal `into` may
    /// hold anything. If the keeper has a room, and `into` has room for `len` bytes, it takes no memory.
    fn get(&mut self, slot: u32, len: u32, into: &mut Vec<u8>) -> Result<(), KeepFault>
        requires { slot < Self.slot_count self.old }
        ensures gets { Gets Self.Storage slot len into.old into.new result self.old self.new }
        ensures does { get_does self.old slot len into.new.items result self.new };

    /// Empties a slot. After a refusal the slot is unchanged, or empty.
    fn free(&mut self, slot: u32) -> Result<(), KeepFault>
        requires { slot < Self.slot_count self.old }
        ensures frees { Frees Self.Storage slot result self.old self.new }
        ensures does { free_does self.old slot result self.new };
}

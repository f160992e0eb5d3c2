// The stored images of one level: the slot and digest of each, by its state's number.
ghost use Rattle.std.specs.Prelude.{◌≡◌, ◌<◌, Some, IsSome, IfOk, length};
ghost use Rattle.image_store.specs.Pairs.{pair_at};
ghost use Rattle.image_store.specs.Shelves.{no_pairs, ShelfState};
ghost use Rattle.image_store.specs.StoreCalls.{CanKeep, HasPair, KeepsPair, FetchesPair, ReleasesPair};
ghost use Rattle.image_store.specs.SlotAllocation.{IsShelf, pairs_in};

use keepers::{KeepFault, Keeper};
use sha2::{Digest, Sha256};
use std::alloc::{AllocError, Global};
use std::marker::Model;
use thiserror::Error;

/// Why a store refuses a call.
#[derive(Clone, Copy, Debug, PartialEq, Eq, Error)]
pub enum StoreFault {
    /// The keeper failed.
    #[error("the storage failed")]
    Keeper,
    /// The bytes that came back aren't those that were put. Has the SHA-256 of both.
    #[error("the image isn't the one that was stored")]
    Damaged { put: [u8; 32], got: [u8; 32] },
    /// There was no memory.
    #[error("out of memory")]
    Memory,
}

/// What is kept of a pair: its slot, and the length and the SHA-256 of its bytes.
#[derive(Clone, Copy, PartialEq, Eq)]
pub struct Kept {
    pub slot: u32,
    pub length: u32,
    pub digest: [u8; 32],
}

/// The length and the SHA-256 of the bytes in a slot.
#[derive(Clone, Copy)]
pub(crate) struct Fingerprint {
    length: u32,
    digest: [u8; 32],
}

const NO_FINGERPRINT: Fingerprint = Fingerprint {
    length: 0,
    digest: [0; 32],
};

/// The pairs of one level. `places` has a number for each state: 0 if its pair isn't held, and otherwise its slot plus
/// one. `fingerprints` has one for each slot. The first `count` of `free` are the slots without a pair.
#[derive(Drop)]
pub(crate) struct Shelf {
    places: Vec<u32>,
    fingerprints: Vec<Fingerprint>,
    free: Vec<u32>,
    count: usize,
}

impl Shelf {
    /// No pairs, and room for so many of the states 0 to `steps`. It takes all memory that the level ever needs.
    pub fn new(alloc: Global, steps: u32, room: u32) -> Result<Shelf, AllocError>
        ensures { IfOk result (λ shelf. shelf ≡ no_pairs steps room) }
    {
        let places = vec![in alloc; 0; steps as usize + 1]?;
        let fingerprints = vec![in alloc; NO_FINGERPRINT; room as usize]?;
        let mut free = Vec::with_capacity(alloc, room as usize)?;
        for above in 0..room {
            free.push(room - 1 - above)?;
        }
        Ok(Shelf {
            places,
            fingerprints,
            free,
            count: room as usize,
        })
    }

    /// What is kept of a held pair.
    pub fn kept(&self, n: u32) -> Kept
        requires { IsSome (pair_at self.now.pairs n) }
        ensures value { pair_at self.now.pairs n ≡ Some result }
        ensures slot { result.slot < self.now.room }
    {
        let slot = self.places[n as usize] - 1;
        let Fingerprint { length, digest } = self.fingerprints[slot as usize];
        Kept {
            slot,
            length,
            digest,
        }
    }

    /// Puts an image and its digest into a slot without a pair, and keeps it as a pair. After a refusal the pairs are
    /// unchanged.
    pub fn keep<K: Keeper>(
        &mut self,
        keeper: &mut K,
        n: u32,
        image: &[u8],
        digest: &[u8; 32],
    ) -> Result<(), StoreFault>
        requires { CanKeep self.old (K.slot_count keeper.old) n image.now digest.now }
        ensures { KeepsPair K.Storage n image.now result self.old self.new keeper.old keeper.new }
    {
        let slot = self.free[self.count - 1];
        match keeper.put(slot, image) {
            Ok(()) => {}
            Err(KeepFault::Failed) => return Err(StoreFault::Keeper),
            Err(KeepFault::Memory) => return Err(StoreFault::Memory),
        }
        self.count -= 1;
        self.places[n as usize] = slot + 1;
        self.fingerprints[slot as usize] = Fingerprint {
            length: image.len() as u32,
            digest: *digest,
        };
        Ok(())
    }

    /// Gets the bytes of a held pair, and returns their digest. Damaged: it isn't the digest of the bytes that were
    /// put.
    pub fn fetch<K: Keeper>(
        &self,
        keeper: &mut K,
        n: u32,
        into: &mut Vec<u8>,
    ) -> Result<[u8; 32], StoreFault>
        requires { HasPair self.now (K.slot_count keeper.old) n }
        ensures { FetchesPair K.Storage n into.old into.new result self.now keeper.old keeper.new }
    {
        let kept = self.kept(n);
        match keeper.get(kept.slot, kept.length, into) {
            Ok(()) => {}
            Err(KeepFault::Failed) => return Err(StoreFault::Keeper),
            Err(KeepFault::Memory) => return Err(StoreFault::Memory),
        }
        let got = Sha256::digest(into.as_slice());
        if got != kept.digest {
            return Err(StoreFault::Damaged {
                put: kept.digest,
                got,
            });
        }
        Ok(got)
    }

    /// Frees the slot of a held pair, and drops the pair. After a refusal the pairs are unchanged.
    pub fn release<K: Keeper>(&mut self, keeper: &mut K, n: u32) -> Result<(), StoreFault>
        requires { HasPair self.old (K.slot_count keeper.old) n }
        ensures { ReleasesPair K.Storage n result self.old self.new keeper.old keeper.new }
    {
        let kept = self.kept(n);
        match keeper.free(kept.slot) {
            Ok(()) => {}
            Err(KeepFault::Failed) => return Err(StoreFault::Keeper),
            Err(KeepFault::Memory) => return Err(StoreFault::Memory),
        }
        self.places[n as usize] = 0;
        self.free[self.count] = kept.slot;
        self.count += 1;
        Ok(())
    }
}

impl Model for Shelf {
    ghost Value = { ShelfState };

    ghost view = { λ s. record { pairs = pairs_in s.fingerprints.items s.places.items; room = length s.free.items } };

    ghost invariant = { λ s. IsShelf s.fingerprints.items s.places.items s.free.items s.count };
}

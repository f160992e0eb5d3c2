// The stored images of all levels.
ghost use Rattle.std.specs.Prelude.{◌≡◌, ℕ, ◌<◌, length, slice_set, Some, IfOk, OnErr, List};
ghost use Rattle.std.specs.FinMap as finmap;
ghost use Rattle.level_book.specs.Prelude.{slots_of};
ghost use Rattle.keepers.specs.Prelude.{Images};
ghost use Rattle.image_store.specs.Shelves.{level_of, no_pairs_on, ShelfState};
ghost use Rattle.image_store.specs.StoredImages.{LevelStands, LevelAlone};
ghost use Rattle.image_store.specs.StoreCalls.{CanKeep, HasPair, KeepsPair, FetchesPair, ReleasesPair};

use crate::shelf::{Shelf, StoreFault};
use keepers::Keeper;
use level_book::Book;
use std::alloc::{AllocError, Global};
use std::marker::Model;

/// The images that each level keeps: their slots, and their digests.
#[derive(Drop)]
pub struct Store {
    shelves: Vec<Shelf>,
}

impl Store {
    /// No pairs. Each level of the book has room for as many as a run of so many steps needs.
    pub fn begin(alloc: Global, book: &Book, steps: u32) -> Result<Store, AllocError>
        ensures begun { IfOk result (λ store. store ≡ no_pairs_on (slots_of book.now) steps) }
        ensures stands { IfOk result (λ store. (k : ℕ) (images : Images) → LevelStands (level_of store k) (Some images) finmap.empty) }
        ensures alone { IfOk result (λ store. (k : ℕ) → LevelAlone (level_of store k) (Some finmap.empty)) }
    {
        let mut shelves = Vec::with_capacity(alloc, book.levels() as usize)?;
        for k in 0..book.levels() {
            shelves.push(Shelf::new(alloc, steps, book.room(k, steps))?)?;
        }
        Ok(Store { shelves })
    }

    /// Puts an image and its digest into a free slot of its level, and keeps it as a pair. After a refusal the pairs
    /// are unchanged.
    pub fn keep<K: Keeper>(
        &mut self,
        keeper: &mut K,
        level: u8,
        n: u32,
        image: &[u8],
        digest: &[u8; 32],
    ) -> Result<(), StoreFault>
        requires level { level < length self.old }
        requires can { CanKeep (level_of self.old level) (K.slot_count keeper.old) n image.now digest.now }
        ensures keeps { KeepsPair K.Storage n image.now result (level_of self.old level) (level_of self.new level) keeper.old keeper.new }
        ensures others { self.new ≡ slice_set self.old level (level_of self.new level) }
        ensures refused { OnErr result (self.new ≡ self.old) }
    {
        self.shelves[level as usize].keep(keeper, n, image, digest)
    }

    /// Gets the bytes of a held pair, and returns their digest. Damaged: it isn't the digest of the bytes that were
    /// put.
    pub fn fetch<K: Keeper>(
        &self,
        keeper: &mut K,
        level: u8,
        n: u32,
        into: &mut Vec<u8>,
    ) -> Result<[u8; 32], StoreFault>
        requires level { level < length self.now }
        requires has { HasPair (level_of self.now level) (K.slot_count keeper.old) n }
        ensures { FetchesPair K.Storage n into.old into.new result (level_of self.now level) keeper.old keeper.new }
    {
        self.shelves[level as usize].fetch(keeper, n, into)
    }

    /// Frees the slot of a held pair, and drops the pair. After a refusal the pairs are unchanged.
    pub fn release<K: Keeper>(
        &mut self,
        keeper: &mut K,
        level: u8,
        n: u32,
    ) -> Result<(), StoreFault>
        requires level { level < length self.old }
        requires has { HasPair (level_of self.old level) (K.slot_count keeper.old) n }
        ensures releases { ReleasesPair K.Storage n result (level_of self.old level) (level_of self.new level) keeper.old keeper.new }
        ensures others { self.new ≡ slice_set self.old level (level_of self.new level) }
        ensures refused { OnErr result (self.new ≡ self.old) }
    {
        self.shelves[level as usize].release(keeper, n)
    }
}

impl Model for Store {
    ghost Value = { List ShelfState };

    ghost view = { λ s. s.shelves.items };
}

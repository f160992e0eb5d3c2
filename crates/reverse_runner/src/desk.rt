// What a session or a console works with: a state of the machine, and the images on its levels.
ghost use Rattle.std.specs.Prelude.{◌≡◌, ◌+◌, IfOk, IfErr, OnOk, IsSome};
ghost use Rattle.level_book.specs.Prelude.{slots_of};
ghost use Rattle.rv_machine.specs.Prelude.{state_number};
ghost use Rattle.image_store.specs.Prelude.{kept_at, no_pairs_on};
ghost use Rattle.sha2.specs.Sha256.{sha256};
ghost use Rattle.reverse_runner.specs.Prelude.{IsDecoded, IsOnLevel, MayKeep, KeepGives, FetchGives, ReleaseGives, SamePages, IsNoImage};

use crate::fault::RunFault;
use crate::known_state::KnownState;
use image_store::Store;
use input_journal::Journal;
use keepers::Keeper;
use level_book::Book;
use rv_machine::{State, Steps};
use sha2::{Digest, Sha256};
use state_image::{encode_image, max_image};
use std::alloc::{AllocError, Global};
use std::sync::ledger::Ledger;

/// The state in work, the images of the levels, and a buffer for one image.
#[derive(Drop)]
pub struct Desk {
    pub work: KnownState,
    pub store: Store,
    pub buffer: Vec<u8>,
}

impl Desk {
    ghost use Rattle.reverse_runner.specs.DeskFields.{Fits, IsEncoded};

    /// A desk with a state in work and no images. Each level has room for those of a run of so many steps.
    pub fn begin(alloc: Global, start: State, book: &Book, steps: u32) -> Result<Desk, AllocError>
        ensures work { IfOk result (λ w. w.work ≡ start) }
        ensures store { IfOk result (λ w. w.store ≡ no_pairs_on (slots_of book.now) steps) }
        ensures fits { IfOk result Fits }
    {
        let store = Store::begin(alloc, book, steps)?;
        let buffer = Vec::with_capacity(alloc, max_image(&start) as usize)?;
        Ok(Desk {
            work: KnownState::new(start),
            store,
            buffer,
        })
    }

    /// Takes so many steps of the machine from the state in work.
    pub fn advance<L: Ledger>(&mut self, journal: &Journal, count: u32, steps: &mut Steps<L>)
        ensures work { self.new.work ≡ state_number self.old.work journal.now count }
        ensures pages { SamePages self.old.work self.new.work }
        ensures store { self.new.store ≡ self.old.store }
        ensures buffer { self.new.buffer ≡ self.old.buffer }
        ensures counted { steps.new ≡ steps.old + count }
    {
        self.work.advance(journal, count, steps);
    }

    /// Writes the image of the state in work into the buffer, and returns its digest.
    pub fn encode(&mut self) -> [u8; 32]
        requires { Fits self.old }
        ensures { IsEncoded self.old self.new result }
    {
        encode_image(self.work.state(), &mut self.buffer);
        match self.work.known() {
            Some(digest) => digest,
            None => Sha256::digest(self.buffer.as_slice()),
        }
    }

    /// Makes the state in work that of the image in the buffer. The image came from a level and has this digest.
    pub fn decode(&mut self, level: u8, digest: &[u8; 32]) -> Result<(), RunFault>
        requires fits { Fits self.old }
        requires digest { digest.now ≡ sha256 self.old.buffer.items }
        ensures decoded { OnOk result (IsDecoded self.old.work self.new.work self.old.buffer.items) }
        ensures damaged { IfErr result (λ fault. (fault ≡ RunFault.Damaged level (sha256 self.old.buffer.items) (sha256 self.old.buffer.items))
            × IsNoImage self.old.work self.old.buffer.items) }
        ensures pages { SamePages self.new.work self.old.work }
        ensures store { self.new.store ≡ self.old.store }
        ensures fits { Fits self.new }
    {
        match self.work.decode(self.buffer.as_slice(), digest) {
            Ok(()) => Ok(()),
            Err(_) => Err(RunFault::Damaged {
                level,
                put: *digest,
                got: *digest,
            }),
        }
    }

    /// Keeps the bytes in the buffer, which have this digest, on a level.
    pub fn keep<K: Keeper>(
        &mut self,
        keepers: &mut Vec<K>,
        level: u8,
        n: u32,
        digest: &[u8; 32],
    ) -> Result<(), RunFault>
        requires { MayKeep K.Storage level n self.old.buffer digest.now self.old.store keepers.old.items }
        ensures keeps { KeepGives K.Storage level n self.old.buffer result self.old.store self.new.store keepers.old.items keepers.new.items }
        ensures states { (self.new.work ≡ self.old.work) × (self.new.buffer ≡ self.old.buffer) }
    {
        let keeper = &mut keepers[level as usize];
        let bytes = self.buffer.as_slice();
        match self.store.keep(keeper, level, n, bytes, digest) {
            Ok(()) => Ok(()),
            Err(fault) => Err(RunFault::on(level, fault)),
        }
    }

    /// Gets the bytes of a held pair into the buffer, and returns their digest.
    pub fn fetch<K: Keeper>(
        &mut self,
        keepers: &mut Vec<K>,
        level: u8,
        n: u32,
    ) -> Result<[u8; 32], RunFault>
        requires on { IsOnLevel K.Storage level self.old.store keepers.old.items }
        requires held { IsSome (kept_at self.old.store level n) }
        ensures fetches { FetchGives K.Storage level n self.old.buffer self.new.buffer result self.old.store self.new.store keepers.old.items keepers.new.items }
        ensures states { (self.new.work ≡ self.old.work) × (self.new.store ≡ self.old.store) }
    {
        let keeper = &mut keepers[level as usize];
        match self.store.fetch(keeper, level, n, &mut self.buffer) {
            Ok(digest) => Ok(digest),
            Err(fault) => Err(RunFault::on(level, fault)),
        }
    }

    /// Releases a held pair.
    pub fn release<K: Keeper>(
        &mut self,
        keepers: &mut Vec<K>,
        level: u8,
        n: u32,
    ) -> Result<(), RunFault>
        requires on { IsOnLevel K.Storage level self.old.store keepers.old.items }
        requires held { IsSome (kept_at self.old.store level n) }
        ensures releases { ReleaseGives K.Storage level n result self.old.store self.new.store keepers.old.items keepers.new.items }
        ensures states { (self.new.work ≡ self.old.work) × (self.new.buffer ≡ self.old.buffer) }
    {
        let keeper = &mut keepers[level as usize];
        match self.store.release(keeper, level, n) {
            Ok(()) => Ok(()),
            Err(fault) => Err(RunFault::on(level, fault)),
        }
    }
}

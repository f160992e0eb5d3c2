// A keeper in memory that gives one wrong bit.
ghost use Rattle.std.specs.Prelude.{◌≡◌, ◌≢◌, ◌<◌, ◌≤◌, [], take, None, Ok, Err, OnOk, OnErr};
ghost use Rattle.std.specs.Vec.{vec_len, vec_capacity};
ghost use Rattle.std.specs.FinMap as finmap;
ghost use Rattle.keepers.specs.Calls.{counts_of};
ghost use Rattle.keepers.specs.Counts.{raised};
ghost use Rattle.keepers.specs.FlipState.{flipped, given, FlipState, flip_state_code};
ghost use Rattle.keepers.specs.Claims.{image_in, SameButAt};

use crate::keeper::{KeepFault, Keeper};
use crate::memory_keeper::MemoryKeeper;
use crate::storage::{CallCounts, Storage};
use std::alloc::Global;
use std::marker::Model;

/// Keeps images in memory, and gives one wrong bit: one get returns one byte with its lowest bit changed. So it claims
/// nothing of its content.
#[derive(Drop)]
pub struct FlipKeeper {
    keeper: MemoryKeeper,
    get: u64,
    at: u32,
}

impl FlipKeeper {
    /// Has empty slots, and takes no memory. Get number `get`, counted from 1, returns byte `at` with its lowest bit
    /// changed. It returns all bytes unchanged where there is no such byte.
    pub fn new(alloc: Global, slots: u32, get: u64, at: u32) -> Self
        ensures { result ≡ record {
          keeper = record { images = finmap.empty; slots = slots; room = None; failing = []; puts = 0; gets = 0; frees = 0; faults = 0 };
          get = get;
          at = at;
        } }
    {
        Self {
            keeper: MemoryKeeper::new(alloc, slots),
            get,
            at,
        }
    }

    /// How often it was called. The storage never fails.
    pub fn counts(&self) -> CallCounts
        ensures { result ≡ counts_of ⟦<FlipKeeper as Storage>⟧ self.now }
    {
        self.keeper.counts()
    }
}

impl Model for FlipKeeper {
    ghost Value = { FlipState };

    ghost coded = { flip_state_code };

    ghost view = { λ k. record { keeper = k.keeper; get = k.get; at = k.at } };

    // No call is to fail.
    ghost invariant = { λ k. k.keeper.failing ≡ [] };
}

impl Storage for FlipKeeper {
    ghost told = { λ _. None };

    ghost slot_count = { λ k. k.keeper.slots };

    ghost put_count = { λ k. k.keeper.puts };

    ghost get_count = { λ k. k.keeper.gets };

    ghost free_count = { λ k. k.keeper.frees };

    ghost fault_count = { λ k. k.keeper.faults };

    ghost room_bytes = { λ _. None };

    ghost place = { λ _. None };
}

impl Keeper for FlipKeeper {
    ghost use Rattle.keepers.specs.CallEffects.{IsFlipPut, IsFlipGet, IsFlipFree};

    ghost put_does = { λ old slot image answer new. IsFlipPut slot image answer old new };

    ghost get_does = { λ old slot len bytes answer new. IsFlipGet slot len bytes answer old new };

    ghost free_does = { λ old slot answer new. IsFlipFree slot answer old new };

    fn slots(&self) -> u32 {
        self.keeper.slots()
    }

    fn put(&mut self, slot: u32, image: &[u8]) -> Result<(), KeepFault>
        requires { slot < self.old.keeper.slots }
        ensures ok { OnOk result (self.new
            ≡ record self.old {
              keeper = record self.old.keeper {
                images = finmap.insert self.old.keeper.images slot image.now;
                puts = raised self.old.keeper.puts 1;
              };
            }) }
        ensures refused { OnErr result (self.new ≡ record self.old {
          keeper = record self.old.keeper {
            images = self.new.keeper.images;
            puts = raised self.old.keeper.puts 1;
          };
        }) }
        ensures others { SameButAt slot self.old.keeper.images self.new.keeper.images }
        ensures quiet { result ≢ Err KeepFault.Failed }
    {
        self.keeper.put(slot, image)
    }

    fn get(&mut self, slot: u32, len: u32, into: &mut Vec<u8>) -> Result<(), KeepFault>
        ensures ok { OnOk result (into.new.items ≡ given self.old (take len (image_in self.old.keeper.images slot))) }
        ensures short { OnOk result (vec_len into.new ≤ len) }
        ensures reserved { vec_capacity into.old ≤ vec_capacity into.new }
        ensures after { self.new ≡ record self.old { keeper = record self.old.keeper { gets = raised self.old.keeper.gets 1 } } }
        ensures quiet { result ≢ Err KeepFault.Failed }
    {
        self.keeper.get(slot, len, into)?;
        if self.keeper.counts().gets == self.get {
            flip(into.as_mut_slice(), self.at as usize);
        }
        Ok(())
    }

    fn free(&mut self, slot: u32) -> Result<(), KeepFault>
        ensures ok { result ≡ Ok tt }
        ensures freed { self.new ≡ record self.old {
          keeper = record self.old.keeper {
            images = finmap.remove self.old.keeper.images slot;
            frees = raised self.old.keeper.frees 1;
          };
        } }
    {
        self.keeper.free(slot)
    }
}

// Flips the lowest bit of a byte, if there is one.
fn flip(bytes: &mut [u8], at: usize)
    ensures { bytes.new ≡ flipped at bytes.old }
{
    if at < bytes.len() {
        bytes[at] ^= 1;
    }
}

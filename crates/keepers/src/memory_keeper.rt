// A keeper in memory.
ghost use Rattle.std.specs.Prelude.{◌≡◌, ◌≢◌, ◌↔◌, ◌<◌, ◌≤◌, ℕ, [], length, take, IsTrue, None, Some, Ok, Err, OnOk, IfOk, ◌^◌, IfSome};
ghost use Rattle.std.specs.Vec.{vec_len, vec_capacity};
ghost use Rattle.std.specs.FinMap as finmap;
ghost use Rattle.keepers.specs.Calls.{counts_of};
ghost use Rattle.keepers.specs.Counts.{raised};
ghost use Rattle.keepers.specs.FailureList.{IsListed};
ghost use Rattle.keepers.specs.Claims.{image_in, SameButAt};
ghost use Rattle.keepers.specs.KeeperState.{KeeperState, keeper_state_code};
ghost use Rattle.keepers.specs.Places.{images_of, HaveRoom};

use crate::keeper::{KeepFault, Keeper};
use crate::place::{Place, image_at, with_place, with_rooms};
use crate::storage::{CallCounts, Storage};
use std::alloc::{AllocError, Global};
use std::marker::Model;

/// The calls of a keeper, by their kinds.
#[derive(Clone, Copy, PartialEq, Eq)]
pub enum Op {
    Put,
    Get,
    Free,
}

/// Keeps images in memory. It fails only in the calls that are chosen to fail.
#[derive(Drop)]
pub struct MemoryKeeper {
    alloc: Global,
    places: Vec<Place>,
    slots: u32,
    room: Option<u32>,
    failing: Vec<(Op, u64)>,
    counts: CallCounts,
}

impl MemoryKeeper {
    /// Has empty slots, and takes no memory before the first put.
    pub fn new(alloc: Global, slots: u32) -> Self
        ensures { result ≡ record { images = finmap.empty; slots = slots; room = None; failing = []; puts = 0; gets = 0; frees = 0; faults = 0 } }
    {
        Self {
            alloc,
            places: Vec::new(alloc),
            slots,
            room: None,
            failing: Vec::new(alloc),
            counts: CallCounts::NONE,
        }
    }

    /// Has empty slots, each with memory for an image of so many bytes. It takes all memory for such images at once.
    pub fn with_room(alloc: Global, slots: u32, bytes: u32) -> Result<Self, AllocError>
        ensures { IfOk result (λ keeper. keeper ≡ record {
          images = finmap.empty;
          slots = slots;
          room = Some bytes;
          failing = [];
          puts = 0;
          gets = 0;
          frees = 0;
          faults = 0;
        }) }
    {
        Ok(Self {
            alloc,
            places: with_rooms(alloc, slots, bytes)?,
            slots,
            room: Some(bytes),
            failing: Vec::new(alloc),
            counts: CallCounts::NONE,
        })
    }

    /// Lets the listed calls fail. The first call of a kind is number 1. Such a call does nothing but fail.
    pub fn failing(self, list: Vec<(Op, u64)>) -> Self
        ensures { result ≡ record self { failing = list.items } }
    {
        Self {
            failing: list,
            ..self
        }
    }

    /// How many slots hold an image.
    pub fn filled(&self) -> u32
        ensures { result ≡ finmap.len self.now.images }
    {
        let mut count = 0;
        for place in &self.places {
            if place.filled {
                count += 1;
            }
        }
        count
    }

    /// How often it was called, and how many of the listed calls failed.
    pub fn counts(&self) -> CallCounts
        ensures { result ≡ counts_of ⟦<MemoryKeeper as Storage>⟧ self.now }
    {
        self.counts
    }
}

impl Model for MemoryKeeper {
    ghost Value = { KeeperState };

    ghost coded = { keeper_state_code };

    ghost view = { λ k. record {
      images = images_of k.places.items;
      slots = k.slots;
      room = k.room;
      failing = k.failing.items;
      puts = k.counts.puts;
      gets = k.counts.gets;
      frees = k.counts.frees;
      faults = k.counts.faults;
    } };

    // There are places for the first slots. With a room, all slots have places, and each place has that room.
    ghost invariant = { λ k. (vec_len k.places ≤ k.slots) × (k.slots < 2 ^ 32)
        × IfSome k.room (λ room. (vec_len k.places ≡ k.slots) × HaveRoom room k.places.items) };
}

impl Storage for MemoryKeeper {
    ghost told = { λ k. Some k.images };

    ghost slot_count = { λ k. k.slots };

    ghost put_count = { λ k. k.puts };

    ghost get_count = { λ k. k.gets };

    ghost free_count = { λ k. k.frees };

    ghost fault_count = { λ k. k.faults };

    ghost room_bytes = { λ k. k.room };

    ghost place = { λ _. None };
}

impl Keeper for MemoryKeeper {
    ghost use Rattle.keepers.specs.CallEffects.{IsPut, IsGet, IsFree};

    ghost put_does = { λ old slot image answer new. IsPut slot image answer old new };

    ghost get_does = { λ old slot len bytes answer new. IsGet slot len bytes answer old new };

    ghost free_does = { λ old slot answer new. IsFree slot answer old new };

    fn slots(&self) -> u32 {
        self.slots
    }

    fn put(&mut self, slot: u32, image: &[u8]) -> Result<(), KeepFault>
        requires { slot < self.old.slots }
        ensures listed { (result ≡ Err KeepFault.Failed) ↔ IsListed self.old.failing Op.Put self.old.puts }
        ensures ok { OnOk result (self.new ≡ record self.old { images = finmap.insert self.old.images slot image.now; puts = raised self.old.puts 1 }) }
        ensures failed { result ≡ Err KeepFault.Failed → self.new ≡ record self.old { puts = raised self.old.puts 1; faults = raised self.old.faults 1 } }
        ensures memory { result ≡ Err KeepFault.Memory → self.new ≡ record self.old { images = self.new.images; puts = raised self.old.puts 1 } }
        ensures others { SameButAt slot self.old.images self.new.images }
        ensures roomy { (room : ℕ) → self.old.room ≡ Some room → length image.now ≤ room → result ≢ Err KeepFault.Memory }
    {
        let fails = is_listed(&self.failing, Op::Put, self.counts.puts);
        self.counts.puts = self.counts.puts.saturating_add(1);
        if fails {
            self.counts.faults = self.counts.faults.saturating_add(1);
            return Err(KeepFault::Failed);
        }
        if with_place(self.alloc, &mut self.places, slot).is_err() {
            return Err(KeepFault::Memory);
        }
        self.places[slot as usize].fill(image)
    }

    fn get(&mut self, slot: u32, len: u32, into: &mut Vec<u8>) -> Result<(), KeepFault>
        ensures listed { (result ≡ Err KeepFault.Failed) ↔ IsListed self.old.failing Op.Get self.old.gets }
        ensures ok { OnOk result (into.new.items ≡ take len (image_in self.old.images slot)) }
        ensures short { OnOk result (vec_len into.new ≤ len) }
        ensures reserved { vec_capacity into.old ≤ vec_capacity into.new }
        ensures failed { result ≡ Err KeepFault.Failed → self.new ≡ record self.old { gets = raised self.old.gets 1; faults = raised self.old.faults 1 } }
        ensures unfailed { result ≢ Err KeepFault.Failed → self.new ≡ record self.old { gets = raised self.old.gets 1 } }
        ensures roomy { len ≤ vec_capacity into.old → result ≢ Err KeepFault.Memory }
    {
        let fails = is_listed(&self.failing, Op::Get, self.counts.gets);
        self.counts.gets = self.counts.gets.saturating_add(1);
        if fails {
            self.counts.faults = self.counts.faults.saturating_add(1);
            return Err(KeepFault::Failed);
        }
        into.clear();
        let Some(image) = image_at(&self.places, slot) else {
            return Ok(());
        };
        let end = image.len().min(len as usize);
        if into.extend_from_slice(&image[..end]).is_err() {
            return Err(KeepFault::Memory);
        }
        Ok(())
    }

    fn free(&mut self, slot: u32) -> Result<(), KeepFault>
        // It takes no memory.
        ensures listed { (result ≡ Err KeepFault.Failed) ↔ IsListed self.old.failing Op.Free self.old.frees }
        ensures no_memory { result ≢ Err KeepFault.Memory }
        ensures ok { OnOk result (self.new ≡ record self.old { images = finmap.remove self.old.images slot; frees = raised self.old.frees 1 }) }
        ensures failed { result ≡ Err KeepFault.Failed → self.new ≡ record self.old { frees = raised self.old.frees 1; faults = raised self.old.faults 1 } }
    {
        let fails = is_listed(&self.failing, Op::Free, self.counts.frees);
        self.counts.frees = self.counts.frees.saturating_add(1);
        if fails {
            self.counts.faults = self.counts.faults.saturating_add(1);
            return Err(KeepFault::Failed);
        }
        if (slot as usize) < self.places.len() {
            self.places[slot as usize].filled = false;
        }
        Ok(())
    }
}

// Whether the call after so many of its kind is one of the list.
fn is_listed(failing: &[(Op, u64)], op: Op, before: u64) -> bool
    ensures { IsTrue result ↔ IsListed failing.now op before }
{
    failing.contains(&(op, before.saturating_add(1)))
}

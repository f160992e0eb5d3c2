// Workers that take digests.
ghost use Rattle.std.specs.Prelude.{◌≡◌, ◌⊎◌, ℕ, ◌*◌, ◌≤◌, ◌<◌, IfOk, length, List};
ghost use Rattle.std.specs.Vec.{vec_capacity};
ghost use Rattle.std.specs.List.{AllByRecursion};
ghost use Rattle.state_image.specs.Prelude.{memory_room};
ghost use Rattle.unit_undo.specs.Prelude.{LeadsBack, led_back};
ghost use Rattle.unit_digests.specs.declared.digesters.TheConstants.{STATE_BYTES};
ghost use Rattle.unit_digests.specs.Digests.{states_of, AreDigests, IsKnown, HasPages};
ghost use Rattle.unit_digests.specs.WorkDivision.{pages_mapped, IsTeam};

use crate::sharing::{Deal, Digester, least_unknown, make_room, put_digests, take_digests};
use plan_types::Gate;
use rv_machine::State;
use state_image::max_image;
use std::alloc::{AllocError, Global};
use std::marker::Model;
use std::mem;
use std::thread::Threads;
use unit_undo::Undo;

/// The most bytes that the states of all workers take together, counted as their longest images.
pub const STATE_BYTES: u32 = 64 * 1024 * 1024;

/// Workers, each with a state of its own. Contracts see which pages these map.
#[derive(Drop)]
pub struct Digesters {
    all: Vec<Digester>,
}

impl Digesters {
    /// So many workers, for units of so many steps of a run from this state. Their states must fit `STATE_BYTES` in
    /// all. Only this takes memory. For one worker, or for units of one step, there is none.
    pub fn begin(
        alloc: Global,
        start: &State,
        unit: u32,
        workers: u32,
    ) -> Result<Digesters, AllocError>
        ensures pages { IfOk result (λ digesters. AllByRecursion (HasPages start.now) digesters) }
        ensures few { IfOk result (λ digesters. length digesters ≤ workers) }
        ensures bytes { IfOk result (λ digesters. length digesters * memory_room start.now.memory ≤ STATE_BYTES) }
        ensures none { (unit ≤ 1) ⊎ (workers ≤ 1) → IfOk result (λ digesters. length digesters ≡ 0) }
        ensures most { 2 ≤ unit → 2 ≤ workers → IfOk result (λ digesters. (n : ℕ) → n ≤ workers →
            n * memory_room start.now.memory ≤ STATE_BYTES → n ≤ length digesters) }
    {
        let count = digester_count(start, unit, workers);
        let mut all = Vec::with_capacity(alloc, count as usize)?;
        for _ in 0..count {
            all.push(Digester::begin(alloc, start, count)?)?;
        }
        Ok(Digesters { all })
    }

    /// Takes the digests of the states that an undo list leads back over, as far as there is room. It starts from the
    /// state after them. Each worker passes the gate before each digest, with the digest's number from 0. The caller
    /// takes the part of a thread that can't be made.
    pub fn digest<R: Threads + Sync, G: Gate + Sync>(
        &mut self,
        rt: &R,
        gate: &G,
        after: &State,
        undo: &Undo,
        known: &mut Vec<Option<[u8; 32]>>,
    )
        requires back { LeadsBack undo.now.entries after.now (led_back undo.now.entries after.now) }
        requires pages { AllByRecursion (HasPages after.now) self.old }
        requires known { AreDigests known.old.items (states_of undo.now.entries after.now) }
        ensures known { AreDigests known.new.items (states_of undo.now.entries after.now) }
        ensures still { (n : ℕ) → IsKnown known.old.items n → IsKnown known.new.items n }
        ensures all { 1 ≤ length self.old → (n : ℕ) → n < length undo.now.entries → n < vec_capacity known.old → IsKnown known.new.items n }
        ensures pages { self.new ≡ self.old }
        ensures reserved { vec_capacity known.old ≤ vec_capacity known.new }
    {
        if self.all.is_empty() {
            return;
        }
        undo.is_short();
        let count = undo.count();
        make_room(count, known);
        let deal = Deal {
            least: least_unknown(known.as_slice()),
            end: known.len().min(count as usize) as u32,
            workers: self.all.len() as u32,
        };
        let none = Vec::new(*self.all.allocator());
        let digesters = mem::replace(&mut self.all, none);
        self.all = take_digests(rt, gate, after, undo, deal, digesters);
        put_digests(&self.all, known);
    }
}

impl Model for Digesters {
    ghost Value = { List (List ℕ) };

    ghost view = { pages_mapped };

    ghost invariant = { IsTeam };
}

// The number of workers, limited by the unit and the memory of their states.
fn digester_count(start: &State, unit: u32, workers: u32) -> u32
    ensures few { result ≤ workers }
    ensures bytes { result * memory_room start.now.memory ≤ STATE_BYTES }
    ensures none { (unit ≤ 1) ⊎ (workers ≤ 1) → result ≡ 0 }
    ensures most { 2 ≤ unit → 2 ≤ workers → (n : ℕ) → n ≤ workers →
        n * memory_room start.now.memory ≤ STATE_BYTES → n ≤ result }
{
    if unit > 1 && workers > 1 {
        workers.min(STATE_BYTES / max_image(start))
    } else {
        0
    }
}

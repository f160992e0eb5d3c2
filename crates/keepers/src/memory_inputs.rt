// Inputs in memory.
ghost use Rattle.std.specs.Prelude.{◌≡◌, ◌≢◌, ◌<◌, ◌≤◌, [], length, map, None, Some, Ok, IsSomeAnd, MatchOption};
ghost use Rattle.std.specs.Vec.{vec_len, vec_capacity};
ghost use Rattle.std.specs.FinMap as finmap;
ghost use Rattle.keepers.specs.InputsState.{Notes, FailsIfListed, InputsState, inputs_state_code};
ghost use Rattle.keepers.specs.Claims.{Begins, bytes_in};

use crate::failing_calls::FailingCalls;
use crate::inputs::{InputFault, Inputs, Whole};
use crate::names::Names;
use std::alloc::Global;
use std::marker::Model;

/// Inputs in memory, by their names.
#[derive(Drop)]
pub struct MemoryInputs {
    list: Vec<(Vec<u8>, Vec<u8>)>,
    asked: Names,
    calls: FailingCalls,
}

impl MemoryInputs {
    /// Has the inputs of a list of names and bytes. If a name occurs twice, its first bytes count.
    pub fn new(alloc: Global, list: Vec<(Vec<u8>, Vec<u8>)>) -> Self
        ensures { result ≡ record {
          files = finmap.from_entries (map (λ e. (e.0.items, e.1.items)) list.items);
          asked = [];
          failing = [];
          calls = 0;
          faults = 0;
        } }
    {
        Self {
            list,
            asked: Names::new(alloc),
            calls: FailingCalls::new(alloc),
        }
    }

    /// Lets the listed calls of `read` fail. The first call is number 1.
    pub fn failing(mut self, list: Vec<u64>) -> Self
        ensures { result ≡ record self { failing = list.items } }
    {
        self.calls.listed = list;
        self
    }

    /// How often `read` failed, up to `u64::MAX`.
    pub fn faults(&self) -> u64
        ensures { result ≡ self.now.faults }
    {
        self.calls.faults
    }

    fn find(&self, name: &[u8]) -> Option<&[u8]>
        ensures { MatchOption result (finmap.get self.now.files name.now ≡ None) (λ bytes. finmap.get self.now.files name.now ≡ Some bytes.now) }
    {
        for (key, bytes) in &self.list {
            if key.as_slice() == name {
                return Some(bytes.as_slice());
            }
        }
        None
    }
}

impl Model for MemoryInputs {
    ghost Value = { InputsState };

    ghost coded = { inputs_state_code };

    ghost view = { λ s. record {
      files = finmap.from_entries (map (λ e. (e.0.items, e.1.items)) s.list.items);
      asked = s.asked;
      failing = s.calls.listed.items;
      calls = s.calls.count;
      faults = s.calls.faults;
    } };
}

impl Inputs for MemoryInputs {
    ghost told = { λ s. Some s.files };

    ghost asked = { λ s. s.asked };

    ghost fault_count = { λ s. s.faults };

    fn read(&mut self, name: &[u8], limit: u32, into: &mut Vec<u8>) -> Result<Whole, InputFault>
        ensures all { result ≡ Ok Whole.All → finmap.get self.old.files name.now ≡ Some into.new.items }
        ensures fits { result ≡ Ok Whole.All → vec_len into.new ≤ limit }
        ensures within { vec_len into.new ≤ limit }
        ensures cleared { result ≢ Ok Whole.All → into.new.items ≡ [] }
        ensures begun { Begins into.new.items (bytes_in self.old.files name.now) }
        ensures longer { result ≡ Ok Whole.Longer → IsSomeAnd (finmap.get self.old.files name.now) (λ bytes. limit < length bytes) }
        ensures reserved { vec_capacity into.old ≤ vec_capacity into.new }
        ensures notes { Notes result name.now self.old self.new }
        ensures fails { FailsIfListed result name.now self.old self.new }
    {
        into.clear();
        let fails = self.calls.next_fails();
        if self.asked.push(name).is_err() {
            return Err(InputFault::Memory);
        }
        if fails {
            self.calls.count_fault();
            return Err(InputFault::Failed);
        }
        let Some(bytes) = self.find(name) else {
            self.calls.count_fault();
            return Err(InputFault::Failed);
        };
        if bytes.len() > limit as usize {
            return Ok(Whole::Longer);
        }
        if into.extend_from_slice(bytes).is_err() {
            return Err(InputFault::Memory);
        }
        Ok(Whole::All)
    }
}

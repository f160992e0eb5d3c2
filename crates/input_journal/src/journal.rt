// A journal of recorded input.
ghost use Rattle.std.specs.Prelude.{◌≡◌, ◌≤◌, ◌<◌, ◌^◌, [], length, slice_get, Some, ℕ, List};
ghost use Rattle.std.specs.List.{All, sum_by};
ghost use Rattle.std.specs.Vec.{vec_len};
ghost use Rattle.input_journal.specs.Form.{IsShort, IsRecorded};
ghost use Rattle.input_journal.specs.Parts.{items_in, AreParts};

use std::alloc::Global;
use std::marker::Model;

/// The items of recorded input, in the order of reading: at most 65,536 of at most 1,048,576 bytes each. It keeps the
/// bytes that it was read from. Each item is a part of them.
#[derive(Drop)]
pub struct Journal {
    pub(crate) bytes: Vec<u8>,
    pub(crate) parts: Vec<Part>,
}

// Where an item is in the bytes.
#[derive(Clone, Copy)]
pub(crate) struct Part {
    pub at: usize,
    pub len: usize,
}

impl Journal {
    /// The journal without items. It takes no memory.
    pub fn none(alloc: Global) -> Journal
        ensures { result ≡ [] }
    {
        Journal {
            bytes: Vec::new(alloc),
            parts: Vec::new(alloc),
        }
    }

    /// The number of items.
    pub fn count(&self) -> u32
        ensures value { result ≡ length self.now }
        ensures few { result ≤ 65536 }
    {
        self.parts.len() as u32
    }

    /// The bytes of the item with this index, counted from 0.
    pub fn item(&self, index: u32) -> &[u8]
        requires { index < length self.now }
        ensures value { slice_get self.now index ≡ Some result.now }
        ensures short { IsShort result.now }
    {
        let part = self.parts[index as usize];
        &self.bytes[part.at..part.at + part.len]
    }

    /// How many bytes all items have together.
    pub fn bytes(&self) -> u64
        ensures value { result ≡ sum_by length self.now }
        ensures few { result ≤ 2 ^ 36 }
    {
        let mut count = 0;
        for index in 0..self.count() {
            count += self.item(index).len() as u64;
        }
        count
    }

    /// Changes nothing. Its contract is a law: the items are recorded input.
    pub fn is_recorded(&self)
        ensures { IsRecorded self.now }
    {
        for index in 0..self.count() {
            are_bytes(self.item(index));
        }
    }
}

impl Model for Journal {
    ghost Value = { List (List ℕ) };

    ghost view = { λ j. items_in j.bytes.items j.parts.items };

    ghost invariant = { λ j. (vec_len j.parts ≤ 65536) × AreParts (length j.bytes.items) j.parts.items };
}

// Does nothing. Bytes are below 256.
fn are_bytes(bytes: &[u8])
    ensures { All (λ b. b < 256) bytes.now }
{}

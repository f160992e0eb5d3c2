// The book of levels.
ghost use Rattle.std.specs.Prelude.{◌≡◌, ◌≤◌, ◌<◌, [], ◌∷◌, take, length, slice_get, Some};
ghost use Rattle.plan_types.specs.declared.limits.TheConstants.{MOST_SLOTS};
ghost use Rattle.level_book.specs.Names.{AreNames};
ghost use Rattle.level_book.specs.BookCosts.{plain, room, total_room, names_of, BookCosts, IsWithinLimits, CostsRise};

use std::marker::Model;

/// The name of a level: 1 to 16 bytes, which take no memory.
#[derive(Drop)]
pub struct Name {
    text: [u8; 16],
    len: usize,
}

impl Name {
    // The name of these bytes.
    pub(crate) fn new(bytes: &[u8]) -> Name
        requires { (1 ≤ length bytes.now) × (length bytes.now ≤ 16) }
        ensures { result ≡ bytes.now }
    {
        let mut text = [0; 16];
        text[..bytes.len()].copy_from_slice(bytes);
        Name {
            text,
            len: bytes.len(),
        }
    }

    /// The bytes of the name.
    pub fn bytes(&self) -> &[u8]
        ensures value { result.now ≡ self.now }
        ensures room { (1 ≤ length result.now) × (length result.now ≤ 16) }
    {
        &self.text[..self.len]
    }
}

impl Model for Name {
    ghost use Rattle.std.specs.Prelude.{◌≤◌, ℕ, List, take};

    ghost Value = { List ℕ };

    ghost view = { λ n. take n.len n.text };

    ghost invariant = { λ n. (1 ≤ n.len) × (n.len ≤ 16) };
}

/// How many images a level holds at once.
#[derive(Clone, Copy, PartialEq, Eq)]
pub enum Slots {
    /// At most this many images.
    Count(u32),
    /// Any number of images.
    Unlimited,
}

/// A level of storage. Costs are those of one image, in the units of the book.
#[derive(Drop)]
pub struct Level {
    pub name: Name,
    pub slots: Slots,
    pub write: u32,
    pub read: u32,
}

/// What steps and levels cost. Level 0 is the fastest; there are 1 to 4.
#[derive(Drop)]
pub struct Book {
    forward: u32,
    reverse: u32,
    levels: [Level; 4],
    count: u8,
}

impl Book {
    // The book of these costs, with so many of the levels.
    pub(crate) fn new(forward: u32, reverse: u32, levels: [Level; 4], count: u8) -> Book
        requires count { (1 ≤ count) × (count ≤ 4) }
        requires limits { IsWithinLimits (record { forward = forward; reverse = reverse; levels = levels }) }
        requires names { AreNames (names_of (record { forward = forward; reverse = reverse; levels = take count levels })) }
        requires costs { CostsRise (record { forward = forward; reverse = reverse; levels = take count levels }) }
        ensures { result ≡ record { forward = forward; reverse = reverse; levels = take count levels } }
    {
        Book {
            forward,
            reverse,
            levels,
            count,
        }
    }

    /// The book of one level `RAM` with this many slots. Writes and reads are free, and a step costs 1.
    pub fn plain(slots: u32) -> Book
        requires { slots ≤ MOST_SLOTS }
        ensures { result ≡ plain slots }
    {
        Book {
            forward: 1,
            reverse: 1,
            levels: [ram(slots), ram(0), ram(0), ram(0)],
            count: 1,
        }
    }

    /// Does nothing. Its contract is a law: all costs and slot counts of a book are at most 1,000,000.
    pub fn is_within_limits(&self)
        ensures { IsWithinLimits self.now }
    {
        let _count = self.count;
    }

    /// Does nothing. Its contract is a law: the levels of a book have distinct names.
    pub fn has_names(&self)
        ensures { AreNames (names_of self.now) }
    {
        let _count = self.count;
    }

    /// Does nothing. Its contract is a law: no level is cheaper to write or read than the one before it.
    pub fn costs_rise(&self)
        ensures { CostsRise self.now }
    {
        let _count = self.count;
    }

    /// The cost of one forward step.
    pub fn forward(&self) -> u32
        ensures { result ≡ self.now.forward }
    {
        self.forward
    }

    /// The cost of one reversed step.
    pub fn reverse(&self) -> u32
        ensures { result ≡ self.now.reverse }
    {
        self.reverse
    }

    /// The number of levels.
    pub fn levels(&self) -> u8
        ensures value { result ≡ length self.now.levels }
        ensures range { (1 ≤ result) × (result ≤ 4) }
    {
        self.count
    }

    /// The most images that a level can hold in a run of so many steps: min(slots, steps).
    pub fn room(&self, k: u8, steps: u32) -> u32
        requires { k < length self.now.levels }
        ensures { result ≡ room self.now k steps }
    {
        match self.levels[k as usize].slots {
            Slots::Count(slots) => slots.min(steps),
            Slots::Unlimited => steps,
        }
    }

    /// The most images that all levels together can hold: min(sum of slots, steps).
    pub fn total_room(&self, steps: u32) -> u32
        ensures { result ≡ total_room self.now steps }
    {
        self.is_within_limits();
        let mut slots = 0;
        for k in 0..self.levels() {
            match self.level(k).slots {
                Slots::Count(more) => slots += more,
                Slots::Unlimited => return steps,
            }
        }
        slots.min(steps)
    }

    /// The level with this number, counted from 0.
    pub fn level(&self, k: u8) -> &Level
        requires { k < length self.now.levels }
        ensures { slice_get self.now.levels k ≡ Some result.now }
    {
        &self.levels[k as usize]
    }
}

impl Model for Book {
    ghost Value = { BookCosts };

    ghost view = { λ b. record { forward = b.forward; reverse = b.reverse; levels = take b.count b.levels } };

    ghost invariant = { λ b. (1 ≤ b.count) × (b.count ≤ 4) × (b.count ≤ length b.levels)
        × IsWithinLimits (record { forward = b.forward; reverse = b.reverse; levels = b.levels })
        × AreNames (names_of (record { forward = b.forward; reverse = b.reverse; levels = take b.count b.levels }))
        × CostsRise (record { forward = b.forward; reverse = b.reverse; levels = take b.count b.levels }) };
}

// A level `RAM` that costs nothing.
pub(crate) fn ram(slots: u32) -> Level
    ensures { (result.name ≡ 82 ∷ 65 ∷ 77 ∷ []) × (result.slots ≡ Slots.Count slots) × (result.write ≡ 0) × (result.read ≡ 0) }
{
    Level {
        name: Name {
            text: *b"RAM\0\0\0\0\0\0\0\0\0\0\0\0\0",
            len: 3,
        },
        slots: Slots::Count(slots),
        write: 0,
        read: 0,
    }
}

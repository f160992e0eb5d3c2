// The levels of a book's slots, in their order.
ghost use Rattle.std.specs.Prelude.{◌≡◌, [], ◌∷◌, ◌≤◌, List, length, take};
ghost use Rattle.level_book.specs.declared.book.Slots.TheVariants.{Unlimited};
ghost use Rattle.level_book.specs.Prelude.{slots_of};
ghost use Rattle.level_book.specs.declared.book.Slots.{Slots};
ghost use Rattle.revolve_gen.specs.Places.{level_at};

use level_book::{Book, Slots};
use std::marker::Model;

/// The slots of each level of a book. What stands on the levels fills one after the other.
#[derive(Drop)]
pub struct Places {
    slots: [Slots; 4],
    count: u8,
}

impl Places {
    /// The slots of a book.
    pub fn of(book: &Book) -> Places
        ensures { result ≡ slots_of book.now }
    {
        let mut slots = [Slots::Count(0); 4];
        let count = book.levels();
        for k in 0..count {
            slots[k as usize] = book.level(k).slots;
        }
        Places { slots, count }
    }

    // One level without a bound.
    pub(crate) fn fastest() -> Places
        ensures { result ≡ Unlimited ∷ [] }
    {
        Places {
            slots: [Slots::Unlimited; 4],
            count: 1,
        }
    }

    /// The level of a place, counted from 0 over all slots.
    pub fn level(&self, place: u32) -> u8
        ensures { result ≡ level_at self.now place }
    {
        let mut rest = place;
        let mut k = 0;
        while k < self.count {
            match self.slots[k as usize] {
                Slots::Count(slots) => {
                    if rest < slots {
                        return k;
                    }
                    rest -= slots;
                }
                Slots::Unlimited => return k,
            }
            k += 1;
        }
        k
    }
}

impl Model for Places {
    ghost Value = { List Slots };

    ghost view = { λ a. take a.count a.slots };

    ghost invariant = { λ a. (a.count ≤ 4) × (length a.slots ≡ 4) };
}

// Finding the index of a page by its number in constant time, however far apart the pages are.
ghost use Rattle.std.specs.Prelude.{◌≡◌, ◌≢◌, ℕ, List, ◌+◌, ◌*◌, ◌^◌, ◌<◌, ◌≤◌, length, slice_index, vec_len, OnOk, IfOk};
ghost use Rattle.std.specs.List.{All};
ghost use Rattle.std.specs.List.Sorted.{IsStrictlyIncreasing};
ghost use Rattle.rv_pages.specs.Memory.{IsPlaceOf};
ghost use Rattle.rv_pages.specs.Tables.{AreTables, Finds, entry_of};

use std::alloc::{AllocError, Global};

// The entries of a table: one for each value of ten bits of a page number.
const ENTRIES: usize = 1024;

const TEN_BITS: u32 = 1024;

/// Two levels of tables. An entry of `tops` is the number of a lower table. `lows` has the lower tables one after the
/// other, with the indices of pages plus one. Lower table 0 has no page, and serves all numbers far from a page.
#[derive(Drop)]
pub(crate) struct Tables {
    tops: Vec<u16>,
    lows: Vec<u16>,
}

impl Tables {
    /// Tables that find the pages with these numbers.
    pub(crate) fn of(alloc: Global, numbers: &[u32]) -> Result<Tables, AllocError>
        requires ascending { IsStrictlyIncreasing numbers.now }
        requires below { All (λ number. number < 2 ^ 20) numbers.now }
        requires few { length numbers.now ≤ 4096 }
        ensures tables { IfOk result (λ t. AreTables t.tops.items t.lows.items) }
        ensures found { IfOk result (λ t. Finds t.tops.items t.lows.items numbers.now) }
    {
        let mut tables = Tables {
            tops: vec![in alloc; 0; ENTRIES]?,
            lows: vec![in alloc; 0; ENTRIES]?,
        };
        for (index, number) in numbers.iter().enumerate() {
            tables.add(*number, index as u16 + 1)?;
        }
        Ok(tables)
    }

    // Enters a page.
    fn add(&mut self, number: u32, entry: u16) -> Result<(), AllocError>
        requires tables { AreTables self.old.tops.items self.old.lows.items }
        requires below { number < 2 ^ 20 }
        requires room { vec_len self.old.lows ≤ 1024 * 4096 }
        ensures tables { OnOk result (AreTables self.new.tops.items self.new.lows.items) }
        ensures size { OnOk result (vec_len self.new.lows ≤ vec_len self.old.lows + 1024) }
        ensures entered { OnOk result (entry_of self.new.tops.items self.new.lows.items number ≡ entry) }
        ensures others { OnOk result ((q : ℕ) → q ≢ number →
            entry_of self.new.tops.items self.new.lows.items q ≡ entry_of self.old.tops.items self.old.lows.items q) }
    {
        let top = (number / TEN_BITS) as usize;
        if self.tops[top] == 0 {
            self.add_table(top)?;
        }
        let place = self.tops[top] as usize * ENTRIES + (number % TEN_BITS) as usize;
        self.lows[place] = entry;
        Ok(())
    }

    // Makes a lower table for an upper entry that has none.
    fn add_table(&mut self, top: usize) -> Result<(), AllocError>
        requires tables { AreTables self.old.tops.items self.old.lows.items }
        requires inside { top < 1024 }
        requires none { slice_index self.old.tops.items top ≡ 0 }
        requires room { vec_len self.old.lows ≤ 1024 * 4096 }
        ensures tables { OnOk result (AreTables self.new.tops.items self.new.lows.items) }
        ensures size { OnOk result (vec_len self.new.lows ≡ vec_len self.old.lows + 1024) }
        ensures made { OnOk result (0 < slice_index self.new.tops.items top) }
        ensures entries { OnOk result ((q : ℕ) → entry_of self.new.tops.items self.new.lows.items q ≡ entry_of self.old.tops.items self.old.lows.items q) }
    {
        let table = self.lows.len() / ENTRIES;
        let zeros = [0; ENTRIES];
        self.lows.extend_from_slice(&zeros)?;
        self.tops[top] = table as u16;
        Ok(())
    }

    /// The index of the page with a number, if it is mapped.
    #[inline(always)]
    pub(crate) fn place_of(&self, number: u32) -> Option<usize>
        requires tables { AreTables self.now.tops.items self.now.lows.items }
        requires below { number < 2 ^ 20 }
        ensures { (numbers : List ℕ) → Finds self.now.tops.items self.now.lows.items numbers → IsPlaceOf numbers number result }
    {
        let table = self.tops[(number / TEN_BITS) as usize] as usize;
        match self.lows[table * ENTRIES + (number % TEN_BITS) as usize] {
            0 => None,
            entry => Some(entry as usize - 1),
        }
    }

    /// A copy of the tables, in new memory.
    pub(crate) fn copied(&self, alloc: Global) -> Result<Tables, AllocError>
        ensures tops { IfOk result (λ t. t.tops.items ≡ self.now.tops.items) }
        ensures lows { IfOk result (λ t. t.lows.items ≡ self.now.lows.items) }
    {
        Ok(Tables {
            tops: Vec::from_slice(alloc, &self.tops)?,
            lows: Vec::from_slice(alloc, &self.lows)?,
        })
    }
}

// Mapped pages.
ghost use Rattle.std.specs.Prelude.{◌≡◌, ◌↔◌, ℕ, ◌+◌, ◌*◌, ◌/◌, ◌%◌, ◌^◌, ◌<◌, ◌≤◌, ◌==◌, length, replicate, slice_index, slice_get, IfOk, IfSome, IsTrue, IsFalse, Some, None, is_some, unwrap_or, if◌then◌else◌};
ghost use Rattle.std.specs.List.{All};
ghost use Rattle.std.specs.List.Sorted.{IsStrictlyIncreasing};
ghost use Rattle.std.specs.FinMap as finmap;
ghost use Rattle.std.specs.Coded.{coded_ℕ};
ghost use Rattle.rv_pages.specs.Marks.{mark_of};
ghost use Rattle.rv_pages.specs.Memory.{byte_at, bytes_at, number_at, word_at, IsMapped, with_bytes, with_number, page_numbers, page_bytes, IsPlaceOf, IsZeroPage, KeepsPagesBut, zeroed, IsMemory, Memory};
ghost use Rattle.rv_pages.specs.PageLayout.{ArePages, memory_kept};

use crate::marks::Marks;
use crate::tables::Tables;
use std::alloc::{AllocError, Global};
use std::marker::Model;

/// The bytes of a page.
pub const PAGE: usize = 4096;

/// The address of the last word of memory: a word there or below ends within the addresses.
pub const LAST_WORD: u32 = 0xffff_fffc;

// The size of a page, as an address.
const SIZE: u32 = 4096;

// The number of page numbers.
const NUMBERS: u32 = 0x10_0000;

// Where in a page the last whole half and the last whole word begin.
const LAST_HALF_IN_PAGE: usize = 4094;

const LAST_WORD_IN_PAGE: usize = 4092;

/// Memory of mapped pages. Only `map` and `clone` take memory, and make the zeros of all pages. After that, a page that
/// was never written costs nothing: `copy_from` doesn't copy it, and `next_touched` skips it.
#[derive(Drop)]
pub struct Pages {
    // The numbers of the pages in ascending order, and the tables that find their indices.
    numbers: Vec<u32>,
    tables: Tables,
    // The bytes of all pages, one page after the other.
    bytes: Vec<u8>,
    // The pages that were written. All others are zero.
    written: Marks,
}

impl Clone for Pages {
    ghost is_clone = { λ p q. q ≡ p };

    fn clone(&self) -> Result<Pages, AllocError> {
        let alloc = *self.bytes.allocator();
        let numbers = Vec::from_slice(alloc, &self.numbers)?;
        let tables = self.tables.copied(alloc)?;
        let mut bytes = zero_pages(alloc, self.numbers.len())?;
        copy_marked(&mut bytes, &self.bytes, &self.written);
        Ok(Pages {
            numbers,
            tables,
            bytes,
            written: self.written,
        })
    }
}

impl Pages {
    /// Memory that maps the pages with these numbers, with the byte 0 everywhere.
    pub fn map(alloc: Global, numbers: &[u32]) -> Result<Pages, AllocError>
        requires ascending { IsStrictlyIncreasing numbers.now }
        requires below { All (λ number. number < 2 ^ 20) numbers.now }
        requires few { length numbers.now ≤ 4096 }
        ensures memory { IfOk result (λ p. p ≡ zeroed numbers.now) }
        ensures pages { IfOk result (λ p. page_numbers p ≡ numbers.now) }
    {
        Ok(Pages {
            numbers: Vec::from_slice(alloc, numbers)?,
            tables: Tables::of(alloc, numbers)?,
            bytes: zero_pages(alloc, numbers.len())?,
            written: Marks::none(),
        })
    }

    /// The byte at an address, if it is mapped.
    #[inline(always)]
    pub fn load8(&self, at: u32) -> Option<u8>
        ensures { result ≡ byte_at self.now at }
    {
        let index = self.tables.place_of(at / SIZE)?;
        Some(self.bytes[index * PAGE + (at % SIZE) as usize])
    }

    /// The half at an address, if its two bytes are mapped.
    #[inline(always)]
    pub fn load16(&self, at: u32) -> Option<u16>
        ensures { result ≡ number_at self.now at 2 }
    {
        let offset = (at % SIZE) as usize;
        if offset > LAST_HALF_IN_PAGE {
            return self.split_half(at);
        }
        let start = self.tables.place_of(at / SIZE)? * PAGE + offset;
        Some(u16::from_le_bytes([self.bytes[start], self.bytes[start + 1]]))
    }

    /// The word at an address, if its four bytes are mapped.
    #[inline(always)]
    pub fn load32(&self, at: u32) -> Option<u32>
        ensures { result ≡ word_at self.now at }
    {
        let offset = (at % SIZE) as usize;
        if offset > LAST_WORD_IN_PAGE {
            return self.split_word(at);
        }
        let start = self.tables.place_of(at / SIZE)? * PAGE + offset;
        let word = [
            self.bytes[start],
            self.bytes[start + 1],
            self.bytes[start + 2],
            self.bytes[start + 3],
        ];
        Some(u32::from_le_bytes(word))
    }

    /// The word at an address that is aligned to words, in the page with this index. It doesn't look for the page.
    #[inline(always)]
    pub fn load32_in(&self, index: u32, at: u32) -> u32
        requires page { IsPlaceOf (page_numbers self.now) (at / 4096) (Some index) }
        requires aligned { at % 4 ≡ 0 }
        ensures { word_at self.now at ≡ Some result }
    {
        let start = index as usize * PAGE + (at % SIZE) as usize;
        let word = [
            self.bytes[start],
            self.bytes[start + 1],
            self.bytes[start + 2],
            self.bytes[start + 3],
        ];
        u32::from_le_bytes(word)
    }

    // A half and a word that cross from one page to the next.
    #[inline(never)]
    fn split_half(&self, at: u32) -> Option<u16>
        ensures { result ≡ number_at self.now at 2 }
    {
        let mut bytes = [0; 2];
        if self.load_bytes(at, &mut bytes) {
            Some(u16::from_le_bytes(bytes))
        } else {
            None
        }
    }

    #[inline(never)]
    fn split_word(&self, at: u32) -> Option<u32>
        ensures { result ≡ word_at self.now at }
    {
        let mut bytes = [0; 4];
        if self.load_bytes(at, &mut bytes) {
            Some(u32::from_le_bytes(bytes))
        } else {
            None
        }
    }

    // Loads bytes one by one, and returns whether all are mapped.
    fn load_bytes(&self, at: u32, into: &mut [u8]) -> bool
        requires { length into.old < 2 ^ 32 }
        ensures all { IsTrue result → bytes_at self.now at (length into.old) ≡ Some into.new }
        ensures none { IsFalse result → bytes_at self.now at (length into.old) ≡ None }
    {
        for (k, byte) in into.iter_mut().enumerate() {
            match self.load8(at.wrapping_add(k as u32)) {
                Some(loaded) => *byte = loaded,
                None => return false,
            }
        }
        true
    }

    /// Writes a byte, if it is mapped, and returns whether it did.
    pub fn store8(&mut self, at: u32, value: u8) -> bool
        ensures stored { IsTrue result ↔ IsMapped self.old at 1 }
        ensures written { IsTrue result → self.new ≡ with_number self.old at 1 value }
        ensures refused { IsFalse result → self.new ≡ self.old }
        ensures pages { page_numbers self.new ≡ page_numbers self.old }
    {
        self.store(at, &[value])
    }

    /// Writes a half, if its two bytes are mapped, and returns whether it did.
    pub fn store16(&mut self, at: u32, value: u16) -> bool
        ensures stored { IsTrue result ↔ IsMapped self.old at 2 }
        ensures written { IsTrue result → self.new ≡ with_number self.old at 2 value }
        ensures refused { IsFalse result → self.new ≡ self.old }
        ensures pages { page_numbers self.new ≡ page_numbers self.old }
    {
        self.store(at, &value.to_le_bytes())
    }

    /// Writes a word, if its four bytes are mapped, and returns whether it did.
    pub fn store32(&mut self, at: u32, value: u32) -> bool
        ensures stored { IsTrue result ↔ IsMapped self.old at 4 }
        ensures written { IsTrue result → self.new ≡ with_number self.old at 4 value }
        ensures refused { IsFalse result → self.new ≡ self.old }
        ensures pages { page_numbers self.new ≡ page_numbers self.old }
    {
        self.store(at, &value.to_le_bytes())
    }

    /// Whether all of so many bytes from an address on are mapped. It checks each of their pages once. After the last
    /// address the next is 0.
    pub fn are_mapped(&self, at: u32, count: u32) -> bool
        ensures { result ≡ is_some (bytes_at self.now at count) }
    {
        let mut done = 0;
        while done < count {
            let place = at.wrapping_add(done);
            if self.tables.place_of(place / SIZE).is_none() {
                return false;
            }
            done += (SIZE - place % SIZE).min(count - done);
        }
        true
    }

    /// Writes bytes, if all of them are mapped, and says whether it did. Bytes in one page are copied at once. After
    /// the last address the next is 0.
    #[inline(never)]
    pub fn store_bytes(&mut self, at: u32, bytes: &[u8]) -> bool
        requires { length bytes.now < 2 ^ 32 }
        ensures stored { IsTrue result ↔ IsMapped self.old at (length bytes.now) }
        ensures written { IsTrue result → self.new ≡ with_bytes self.old at bytes.now }
        ensures refused { IsFalse result → self.new ≡ self.old }
        ensures pages { page_numbers self.new ≡ page_numbers self.old }
    {
        if !self.are_mapped(at, bytes.len() as u32) {
            return false;
        }
        let mut done = 0;
        while done < bytes.len() {
            let place = at.wrapping_add(done as u32);
            let part = (PAGE - (place % SIZE) as usize).min(bytes.len() - done);
            self.store_within(place, &bytes[done..done + part]);
            done += part;
        }
        true
    }

    // Writes the few bytes of a number, if all of them are mapped.
    #[inline(always)]
    fn store(&mut self, at: u32, bytes: &[u8]) -> bool
        requires some { 0 < length bytes.now }
        requires few { length bytes.now ≤ 4 }
        ensures stored { IsTrue result ↔ IsMapped self.old at (length bytes.now) }
        ensures written { IsTrue result → self.new ≡ with_bytes self.old at bytes.now }
        ensures refused { IsFalse result → self.new ≡ self.old }
        ensures pages { page_numbers self.new ≡ page_numbers self.old }
    {
        if (at % SIZE) as usize + bytes.len() > PAGE {
            return self.store_bytes(at, bytes);
        }
        self.store_within(at, bytes)
    }

    // Writes bytes that are all in one page.
    #[inline(always)]
    fn store_within(&mut self, at: u32, bytes: &[u8]) -> bool
        requires some { 0 < length bytes.now }
        requires within { at % 4096 + length bytes.now ≤ 4096 }
        ensures stored { IsTrue result ↔ IsMapped self.old at (length bytes.now) }
        ensures written { IsTrue result → self.new ≡ with_bytes self.old at bytes.now }
        ensures refused { IsFalse result → self.new ≡ self.old }
        ensures pages { page_numbers self.new ≡ page_numbers self.old }
    {
        let Some(index) = self.tables.place_of(at / SIZE) else {
            return false;
        };
        self.written.mark(index);
        let start = index * PAGE + (at % SIZE) as usize;
        self.bytes[start..start + bytes.len()].copy_from_slice(bytes);
        true
    }

    /// Copies the bytes of memory that maps the same pages. Only pages that were written in either are copied.
    pub fn copy_from(&mut self, other: &Pages)
        requires { page_numbers self.old ≡ page_numbers other.now }
        ensures { self.new ≡ other.now }
    {
        let written = self.written.union(&other.written);
        copy_marked(&mut self.bytes, &other.bytes, &written);
        self.written = other.written;
    }

    /// Does nothing. Its contract is a law: mapped pages are memory of a machine.
    pub fn are_memory(&self)
        ensures { IsMemory self.now }
    {
        are_bytes(&self.bytes);
    }

    /// How many pages are mapped.
    pub fn count(&self) -> u32
        ensures value { result ≡ length (page_numbers self.now) }
        ensures few { result ≤ 4096 }
    {
        self.numbers.len() as u32
    }

    /// The number of the page with this index, in ascending order.
    pub fn number(&self, index: u32) -> u32
        requires { index < length (page_numbers self.now) }
        ensures { slice_get (page_numbers self.now) index ≡ Some result }
    {
        self.numbers[index as usize]
    }

    /// The index of the page with this number, in constant time, if it is mapped.
    pub fn index_of(&self, number: u32) -> Option<u32>
        ensures place { IsPlaceOf (page_numbers self.now) number result }
        ensures few { IfSome result (λ index. index < 4096) }
    {
        let tables = &self.tables;
        if number >= NUMBERS {
            return None;
        }
        match tables.place_of(number) {
            Some(index) => Some(index as u32),
            None => None,
        }
    }

    /// The bytes of the page with this index.
    pub fn page(&self, index: u32) -> &[u8]
        requires { index < length (page_numbers self.now) }
        ensures value { result.now ≡ page_bytes self.now (slice_index (page_numbers self.now) index) }
        ensures whole { length result.now ≡ 4096 }
    {
        let start = index as usize * PAGE;
        &self.bytes[start..start + PAGE]
    }

    /// Writes all bytes of the page with this index.
    pub fn set_page(&mut self, index: u32, bytes: &[u8])
        requires index { index < length (page_numbers self.old) }
        requires whole { length bytes.now ≡ 4096 }
        ensures pages { page_numbers self.new ≡ page_numbers self.old }
        ensures bytes { (at : ℕ) → finmap.get self.new at
            ≡ (if at / 4096 == slice_index (page_numbers self.old) index then Some (slice_index bytes.now (at % 4096)) else finmap.get self.old at) }
        ensures page { page_bytes self.new (slice_index (page_numbers self.old) index) ≡ bytes.now }
        ensures others { KeepsPagesBut index self.old self.new }
    {
        self.written.mark(index as usize);
        let start = index as usize * PAGE;
        self.bytes[start..start + PAGE].copy_from_slice(bytes);
    }

    /// Makes all bytes of the page with this index 0, and treats it as never written.
    pub fn clear_page(&mut self, index: u32)
        requires { index < length (page_numbers self.old) }
        ensures pages { page_numbers self.new ≡ page_numbers self.old }
        ensures zero { IsZeroPage self.new (slice_index (page_numbers self.old) index) }
        ensures others { KeepsPagesBut index self.old self.new }
    {
        self.written.unmark(index as usize);
        let start = index as usize * PAGE;
        self.bytes[start..start + PAGE].fill(0);
    }

    /// The first index, from this one on, of a page that may have a byte other than 0. All skipped pages are zero.
    /// Visiting all written pages takes time in their number, not in that of the mapped ones.
    pub fn next_touched(&self, from: u32) -> Option<u32>
        ensures index { IfSome result (λ index. (from ≤ index) × (index < length (page_numbers self.now))) }
        ensures few { IfSome result (λ index. index < 4096) }
        ensures zero { (k : ℕ) → from ≤ k → k < unwrap_or result (length (page_numbers self.now)) →
            IsZeroPage self.now (slice_index (page_numbers self.now) k) }
    {
        match self.written.next(from as usize) {
            Some(index) => Some(index as u32),
            None => None,
        }
    }
}

impl Model for Pages {
    ghost Value = { Memory };

    ghost coded = { finmap.code coded_ℕ coded_ℕ };

    ghost view = { λ p. memory_kept p.numbers.items p.bytes.items };

    ghost invariant = { λ p. ArePages p.numbers.items p.tables.tops.items p.tables.lows.items p.bytes.items p.written.words };
}

// New memory for so many pages of zeros.
fn zero_pages(alloc: Global, count: usize) -> Result<Vec<u8>, AllocError>
    requires { count ≤ 4096 }
    ensures { IfOk result (λ v. v.items ≡ replicate (4096 * count) 0) }
{
    let zeros = [0; PAGE];
    let mut bytes = Vec::with_capacity(alloc, PAGE * count)?;
    for _page in 0..count {
        bytes.extend_from_slice(&zeros)?;
    }
    Ok(bytes)
}

// Copies the bytes of marked pages from those of other memory, of the same pages.
fn copy_marked(bytes: &mut [u8], from: &[u8], marks: &Marks)
    requires size { length marks.now.words ≡ 64 }
    requires long { length bytes.old ≡ length from.now }
    requires pages { (index : ℕ) → mark_of marks.now.words index ≡ 1 → index * 4096 + 4096 ≤ length bytes.old }
    ensures long { length bytes.new ≡ length bytes.old }
    ensures copied { (k : ℕ) → mark_of marks.now.words (k / 4096) ≡ 1 → slice_index bytes.new k ≡ slice_index from.now k }
    ensures others { (k : ℕ) → mark_of marks.now.words (k / 4096) ≡ 0 → slice_index bytes.new k ≡ slice_index bytes.old k }
{
    let mut next = 0;
    while let Some(index) = marks.next(next) {
        let start = index * PAGE;
        bytes[start..start + PAGE].copy_from_slice(&from[start..start + PAGE]);
        next = index + 1;
    }
}

// Does nothing. Bytes are below 256.
fn are_bytes(bytes: &[u8])
    ensures { All (λ b. b < 256) bytes.now }
{}

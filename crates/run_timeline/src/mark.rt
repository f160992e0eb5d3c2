// A kept state of a run.
ghost use Rattle.std.specs.Prelude.{◌≡◌, ◌*◌, ◌≤◌, ◌<◌, IfOk, length};
ghost use Rattle.std.specs.Vec.{vec_capacity};
ghost use Rattle.rv_pages.specs.Prelude.{Memory, page_numbers, IsMemory};
ghost use Rattle.rv_machine.specs.Prelude.{MachineState};
ghost use Rattle.run_timeline.specs.KeptPages.{AreZero, HaveSamePages, KeepsFrom};

use rv_machine::{State, Status};
use rv_pages::{PAGE, Pages};
use std::alloc::{AllocError, Global};

/// A state of a run without the pages that it never wrote. Only `begin` takes memory: as much as all pages need. The
/// system provides only what is written to.
#[derive(Drop)]
pub(crate) struct Mark {
    pc: u32,
    x: [u32; 32],
    status: Status,
    item: u32,
    offset: u32,
    written: u64,
    // How many pages the states of the run map.
    pages: u32,
    // The indices of the pages that were written, in ascending order, and their bytes, one page after the other.
    indices: Vec<u32>,
    bytes: Vec<u8>,
    ghost few: { pages ≤ 4096 },
    ghost indices_reserved: { pages ≤ vec_capacity indices },
    ghost bytes_reserved: { 4096 * pages ≤ vec_capacity bytes },
}

impl Mark {
    ghost use Rattle.run_timeline.specs.Mark.{CanGive, IsMarkOf};

    /// Room for a state with as many pages as this one. No state is kept yet.
    pub(crate) fn begin(alloc: Global, state: &State) -> Result<Mark, AllocError>
        ensures { IfOk result (λ m. m.pages ≡ length (page_numbers state.now.memory)) }
    {
        let pages = state.pages.count();
        Ok(Mark {
            pc: 0,
            x: [0; 32],
            status: Status::Running,
            item: 0,
            offset: 0,
            written: 0,
            pages,
            indices: Vec::with_capacity(alloc, pages as usize)?,
            bytes: Vec::with_capacity(alloc, PAGE * pages as usize)?,
        })
    }

    /// Copies a state into the mark.
    pub(crate) fn keep(&mut self, state: &State)
        requires { length (page_numbers state.now.memory) ≡ self.old.pages }
        ensures keeps { IsMarkOf state.now self.new }
        ensures pages { self.new.pages ≡ self.old.pages }
    {
        self.pc = state.pc;
        self.x = state.x;
        self.status = state.status;
        (self.item, self.offset) = (state.item, state.offset);
        self.written = state.written;
        keep_pages(&mut self.indices, &mut self.bytes, &state.pages);
    }

    /// Copies the kept state into a state of the run.
    pub(crate) fn give(&self, state: &mut State)
        requires { CanGive self.now (page_numbers state.old.memory) }
        ensures { (s : MachineState) → IsMarkOf s self.now → IsMemory s.memory → page_numbers s.memory ≡ page_numbers state.old.memory → state.new ≡ s }
    {
        state.pc = self.pc;
        state.x = self.x;
        state.status = self.status;
        (state.item, state.offset) = (self.item, self.offset);
        state.written = self.written;
        give_pages(&self.indices, &self.bytes, &mut state.pages);
    }
}

// Keeps the pages that were written.
fn keep_pages(indices: &mut Vec<u32>, bytes: &mut Vec<u8>, pages: &Pages)
    requires indices { length (page_numbers pages.now) ≤ vec_capacity indices.old }
    requires bytes { 4096 * length (page_numbers pages.now) ≤ vec_capacity bytes.old }
    ensures keeps { KeepsFrom (page_numbers pages.now) pages.now 0 indices.new.items bytes.new.items }
    ensures indices_reserved { vec_capacity indices.old ≤ vec_capacity indices.new }
    ensures bytes_reserved { vec_capacity bytes.old ≤ vec_capacity bytes.new }
{
    indices.clear();
    bytes.clear();
    let mut next = 0;
    while let Some(index) = pages.next_touched(next) {
        indices.push(index).unwrap();
        bytes.extend_from_slice(pages.page(index)).unwrap();
        next = index + 1;
    }
}

// Writes the pages that are kept, and clears all others.
fn give_pages(indices: &[u32], bytes: &[u8], pages: &mut Pages)
    requires { (m : Memory) × KeepsFrom (page_numbers pages.old) m 0 indices.now bytes.now }
    ensures numbers { page_numbers pages.new ≡ page_numbers pages.old }
    ensures pages { (m : Memory) → IsMemory m → page_numbers m ≡ page_numbers pages.old →
        KeepsFrom (page_numbers pages.old) m 0 indices.now bytes.now → pages.new ≡ m }
{
    let mut next = 0;
    let mut rest = bytes;
    for index in indices {
        let (page, others) = rest.split_at(PAGE);
        clear_pages(pages, next, *index);
        pages.set_page(*index, page);
        next = *index + 1;
        rest = others;
    }
    clear_pages(pages, next, pages.count());
    pages.are_memory();
}

// Makes all bytes 0 of the pages from one index up to below another.
fn clear_pages(pages: &mut Pages, from: u32, to: u32)
    requires { to ≤ length (page_numbers pages.old) }
    ensures numbers { page_numbers pages.new ≡ page_numbers pages.old }
    ensures zero { AreZero (page_numbers pages.old) pages.new from to }
    ensures others { HaveSamePages (page_numbers pages.old) pages.old pages.new from }
    ensures memory { IsMemory pages.new }
{
    let mut next = from;
    while next < to {
        next = clear_next(pages, next, to);
    }
    pages.are_memory();
}

// Clears the first page, from an index up to below another, that may have bytes other than 0. It returns up to where
// all pages are zero then.
fn clear_next(pages: &mut Pages, from: u32, to: u32) -> u32
    requires some { from < to }
    requires inside { to ≤ length (page_numbers pages.old) }
    ensures numbers { page_numbers pages.new ≡ page_numbers pages.old }
    ensures further { from < result }
    ensures zero { AreZero (page_numbers pages.old) pages.new from result }
    ensures others { HaveSamePages (page_numbers pages.old) pages.old pages.new from }
{
    let index = pages.next_touched(from).unwrap_or(to);
    if index >= to {
        return to;
    }
    pages.clear_page(index);
    index + 1
}

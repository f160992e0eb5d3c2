// The start state of a program.
ghost use Rattle.std.specs.Prelude.{◌≡◌, ◌≢◌, ◌⊎◌, ◌↔◌, ◌+◌, ◌/◌, ◌%◌, ◌^◌, ◌≤◌, ◌<◌, ℕ, List, length, vec_len, map, Contains, MatchResult, IfOk, IfErr, OnOk, IsTrue};
ghost use Rattle.std.specs.List.{All};
ghost use Rattle.rv_pages.specs.Prelude.{IsMapped};
ghost use Rattle.rv_machine.specs.Prelude.{MachineState};
ghost use Rattle.elf_load.specs.Program.{stack_start, AreMapped, with_pieces, start_at};
ghost use Rattle.elf_load.specs.Raw.{IsRawProgram};
ghost use Rattle.elf_load.specs.Elf.{IsProgram};
ghost use Rattle.elf_load.specs.Faults.{FirstFault, FirstRawFault};
ghost use Rattle.elf_load.specs.Start.{IsStartOf, HasProgramFault};
ghost use Rattle.elf_load.specs.Loading.{Loads};
ghost use Rattle.elf_load.specs.HeaderFields.{segment_at, piece_in, AreApart, IsPagesFault};
ghost use Rattle.elf_load.specs.Spans.{pages_from};

use crate::apart::{by_address, first_overlap};
use crate::fault::ElfFault;
use crate::header::read_header;
use crate::pages::{Span, page_count, page_numbers, spans_of};
use crate::segment::{Segment, read_segments};
use rv_machine::{State, Status};
use rv_pages::Pages;
use std::alloc::Global;

// The bytes of a page, and the most pages that are mapped.
const PAGE: u32 = 4096;

const MOST_PAGES: u64 = 4096;

// Where raw words begin.
const RAW: u32 = 0x10000;

// The stack pointer x2 at the start, 16 bytes below the end of the stack.
const STACK_POINTER: u32 = 0xbfff_fff0;

/// The start state of an ELF file (Tool Interface Standard, Executable and Linking Format 1.2). The stack has so many
/// pages below 0xC0000000. It refuses files that aren't 32-bit RISC-V executables. It refuses load segments that don't
/// fit, that overlap, or that need more than 4,096 pages with the stack's. It ignores section headers, flags and
/// alignments.
pub fn load(alloc: Global, file: &[u8], stack: u32) -> Result<State, ElfFault>
    requires some { 1 ≤ stack }
    requires few { stack ≤ 1024 }
    ensures { Loads (IsProgram file.now stack) (FirstFault file.now stack) result }
{
    load_file(alloc, file, stack)
}

/// The start state of raw words at 0x10000, with a stack of so many pages below 0xC0000000. It refuses bytes that
/// aren't whole words. It refuses words that need more than 4,096 pages with the stack's.
pub fn load_raw(alloc: Global, bytes: &[u8], stack: u32) -> Result<State, ElfFault>
    requires some { 1 ≤ stack }
    requires few { stack ≤ 1024 }
    ensures { Loads (IsRawProgram bytes.now stack) (FirstRawFault bytes.now stack) result }
{
    load_words(alloc, bytes, stack)
}

/// The start state of a program, which is raw words or an ELF file.
pub fn load_start(alloc: Global, is_raw: bool, bytes: &[u8], stack: u32) -> Result<State, ElfFault>
    requires some { 1 ≤ stack }
    requires few { stack ≤ 1024 }
    ensures found { IfOk result (IsStartOf is_raw stack bytes.now) }
    ensures refused { IfErr result (λ fault. fault ≢ ElfFault.Memory → HasProgramFault is_raw stack bytes.now fault) }
{
    if is_raw {
        load_raw(alloc, bytes, stack)
    } else {
        load(alloc, bytes, stack)
    }
}

fn load_file(alloc: Global, file: &[u8], stack: u32) -> Result<State, ElfFault>
    requires { stack ≤ 1024 }
    ensures found { IfOk result (IsProgram file.now stack) }
    ensures refused { IfErr result (λ fault. (fault ≡ ElfFault.Memory) ⊎ FirstFault file.now stack fault) }
{
    let header = read_header(file)?;
    let segments = read_segments(alloc, file, &header, stack)?;
    let numbers = mapped_pages(alloc, &segments, stack)?;
    if !is_entry(header.entry, &numbers) {
        return Err(ElfFault::Entry(header.entry));
    }
    let Ok(mut pages) = Pages::map(alloc, &numbers) else {
        return Err(ElfFault::Memory);
    };
    fill(&mut pages, file, &segments);
    Ok(start(header.entry, pages))
}

// Whether an address is that of a word in one of the pages with these numbers.
fn is_entry(entry: u32, numbers: &[u32]) -> bool
    ensures { IsTrue result ↔ (entry % 4 ≡ 0) × Contains numbers.now (entry / 4096) }
{
    entry % 4 == 0 && numbers.contains(&(entry / PAGE))
}

// The numbers of the pages of segments and of the stack. There must be at most 4,096, and the segments must share no
// address.
fn mapped_pages(alloc: Global, segments: &[Segment], stack: u32) -> Result<Vec<u32>, ElfFault>
    requires some { All (λ (s : Segment). 0 < s.memory_size) segments.now }
    requires below { All (λ (s : Segment). s.address + s.memory_size ≤ stack_start stack) segments.now }
    requires differ { (a b : ℕ) → a < b → b < length segments.now → (segment_at segments.now a).index < (segment_at segments.now b).index }
    requires stack { stack ≤ 1024 }
    ensures apart { OnOk result (AreApart segments.now) }
    ensures mapped { IfOk result (λ v. (file : List ℕ) → AreMapped (map (piece_in file) segments.now) stack v.items) }
    ensures few { IfOk result (λ v. vec_len v ≤ 4096) }
    ensures low { IfOk result (λ v. All (λ number. number < 2 ^ 20) v.items) }
    ensures refused { IfErr result (IsPagesFault segments.now stack) }
{
    let Ok(sorted) = by_address(alloc, segments) else {
        return Err(ElfFault::Memory);
    };
    if let Some((a, b)) = first_overlap(segments, &sorted) {
        return Err(ElfFault::Overlap(segments[a].index, segments[b].index));
    }
    let Ok(spans) = spans_of(alloc, &sorted, stack) else {
        return Err(ElfFault::Memory);
    };
    list_pages(alloc, &spans)
}

// The numbers of the pages of runs, if there are no more than 4,096.
fn list_pages(alloc: Global, spans: &[Span]) -> Result<Vec<u32>, ElfFault>
    requires bound { All (λ (s : Span). s.last < 2 ^ 63) spans.now }
    requires low { length (pages_from 0 spans.now) ≤ 4096 → All (λ (s : Span). s.last < 2 ^ 20) spans.now }
    ensures numbers { IfOk result (λ v. v.items ≡ pages_from 0 spans.now) }
    ensures few { OnOk result (length (pages_from 0 spans.now) ≤ 4096) }
    ensures refused { IfErr result (λ fault. (fault ≡ ElfFault.Memory)
        ⊎ ((fault ≡ ElfFault.TooLarge (length (pages_from 0 spans.now))) × (4096 < length (pages_from 0 spans.now)))) }
{
    let count = page_count(spans);
    if count > MOST_PAGES {
        return Err(ElfFault::TooLarge(count));
    }
    match page_numbers(alloc, spans) {
        Ok(numbers) => Ok(numbers),
        Err(_) => Err(ElfFault::Memory),
    }
}

// Puts the bytes of the segments into memory.
fn fill(pages: &mut Pages, file: &[u8], segments: &[Segment])
    requires inside { All (λ (s : Segment). s.offset + s.file_size ≤ length file.now) segments.now }
    requires mapped { All (λ (s : Segment). IsMapped pages.old s.address s.file_size) segments.now }
    ensures { pages.new ≡ with_pieces pages.old (map (piece_in file.now) segments.now) }
{
    for segment in segments {
        let start = segment.offset as usize;
        pages.store_bytes(
            segment.address,
            &file[start..start + segment.file_size as usize],
        );
    }
}

fn load_words(alloc: Global, bytes: &[u8], stack: u32) -> Result<State, ElfFault>
    requires { stack ≤ 1024 }
    ensures found { IfOk result (IsRawProgram bytes.now stack) }
    ensures refused { IfErr result (λ fault. (fault ≡ ElfFault.Memory) ⊎ FirstRawFault bytes.now stack fault) }
{
    if bytes.is_empty() || bytes.len() % 4 != 0 {
        return Err(ElfFault::RawLength(bytes.len() as u64));
    }
    let spans = [
        Span::of_bytes(RAW as u64, bytes.len() as u64),
        Span::of_stack(stack),
    ];
    let numbers = list_pages(alloc, &spans)?;
    let Ok(mut pages) = Pages::map(alloc, &numbers) else {
        return Err(ElfFault::Memory);
    };
    pages.store_bytes(RAW, bytes);
    Ok(start(RAW, pages))
}

// The state over this memory with pc at this address.
fn start(entry: u32, pages: Pages) -> State
    requires { entry % 4 ≡ 0 }
    ensures { result ≡ start_at entry pages }
{
    let mut x = [0; 32];
    x[2] = STACK_POINTER;
    State {
        pc: entry,
        x,
        status: Status::Running,
        item: 0,
        offset: 0,
        written: 0,
        pages,
    }
}

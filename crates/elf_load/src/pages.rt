// The numbers of the mapped pages.
ghost use Rattle.std.specs.Prelude.{◌≡◌, ◌+◌, ◌-◌, ◌/◌, ◌<◌, ◌≤◌, ◌^◌, ◌++◌, [], ◌∷◌, map, max, length, IfOk, OnOk};
ghost use Rattle.std.specs.List.{All, range_with_len};
ghost use Rattle.elf_load.specs.Spans.{pages_from, span_of, stack_span};

use crate::segment::Segment;
use std::alloc::{AllocError, Global};

const PAGE: u64 = 4096;

// The number of the page after the stack.
const STACK_END: u64 = 0xC0000;

/// A run of pages, from the first to the last.
#[derive(Clone, Copy)]
pub(crate) struct Span {
    pub first: u64,
    pub last: u64,
}

impl Span {
    /// The pages that hold one of so many bytes from an address on.
    pub(crate) fn of_bytes(address: u64, size: u64) -> Span
        requires some { 0 < size }
        requires fits { address + size < 2 ^ 64 }
        ensures first { result.first ≡ address / 4096 }
        ensures last { result.last ≡ (address + size - 1) / 4096 }
    {
        Span {
            first: address / PAGE,
            last: (address + size - 1) / PAGE,
        }
    }

    /// The pages of the stack.
    pub(crate) fn of_stack(stack: u32) -> Span
        requires { stack ≤ 1024 }
        ensures { result ≡ stack_span stack }
    {
        Span {
            first: STACK_END - stack as u64,
            last: STACK_END - 1,
        }
    }
}

/// The pages of segments, and those of the stack.
pub(crate) fn spans_of(
    alloc: Global,
    sorted: &[Segment],
    stack: u32,
) -> Result<Vec<Span>, AllocError>
    requires some { All (λ (s : Segment). 0 < s.memory_size) sorted.now }
    requires stack { stack ≤ 1024 }
    ensures { IfOk result (λ v. v.items ≡ map span_of sorted.now ++ stack_span stack ∷ []) }
{
    let mut spans = Vec::new(alloc);
    for segment in sorted {
        spans.push(Span::of_bytes(segment.address as u64, segment.memory_size as u64))?;
    }
    spans.push(Span::of_stack(stack))?;
    Ok(spans)
}

/// How many pages there are in runs that are ordered by their first pages.
pub(crate) fn page_count(spans: &[Span]) -> u64
    requires { All (λ (s : Span). s.last < 2 ^ 63) spans.now }
    ensures { result ≡ length (pages_from 0 spans.now) }
{
    let mut count = 0;
    let mut next = 0;
    for span in spans {
        count += (span.last + 1).saturating_sub(span.first.max(next));
        next = next.max(span.last + 1);
    }
    count
}

/// The numbers of these pages.
pub(crate) fn page_numbers(alloc: Global, spans: &[Span]) -> Result<Vec<u32>, AllocError>
    requires { All (λ (s : Span). s.last < 2 ^ 20) spans.now }
    ensures { IfOk result (λ v. v.items ≡ pages_from 0 spans.now) }
{
    let mut numbers = Vec::new(alloc);
    let mut next: u64 = 0;
    for span in spans {
        push_pages(&mut numbers, next.max(span.first), span.last + 1)?;
        next = next.max(span.last + 1);
    }
    Ok(numbers)
}

// Pushes the numbers of the pages from one up to below another.
fn push_pages(numbers: &mut Vec<u32>, from: u64, to: u64) -> Result<(), AllocError>
    requires { to ≤ 2 ^ 20 }
    ensures { OnOk result (numbers.new.items ≡ numbers.old.items ++ range_with_len from (to - from)) }
{
    for page in from..to {
        numbers.push(page as u32)?;
    }
    Ok(())
}

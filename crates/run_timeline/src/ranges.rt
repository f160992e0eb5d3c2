// Watched bytes, and which of them a step writes.
ghost use Rattle.std.specs.Prelude.{◌≡◌, if◌then◌else◌, [], position};
ghost use Rattle.rv_machine.specs.Prelude.{addresses, are_mapped};
ghost use Rattle.run_timeline.specs.Ranges.{writes_in};

use rv_machine::{Span, State};

/// Bytes that are watched: at so many addresses from one on, modulo 2 ^ 32.
#[derive(Clone, Copy, PartialEq, Eq)]
pub struct Range {
    pub start: u32,
    pub length: u32,
}

// The first range that has one of these addresses, if all of them are mapped.
#[inline(always)]
pub(crate) fn first_written(ranges: &[Range], state: &State, aim: &Span) -> Option<usize>
    ensures { result ≡ position (writes_in (if are_mapped state.now.memory aim.now.at aim.now.count then addresses aim.now.at aim.now.count else [])) ranges.now }
{
    let first = first_met(ranges, aim)?;
    state.pages.are_mapped(aim.at, aim.count).then_some(first)
}

// The first range that has one of these addresses.
#[inline(always)]
fn first_met(ranges: &[Range], span: &Span) -> Option<usize>
    ensures { result ≡ position (writes_in (addresses span.now.at span.now.count)) ranges.now }
{
    ranges.iter().position(|range| has_some(range, span))
}

// Whether a range has one of these addresses. Then the first of them is in the range, or the first of the range is
// among them.
#[inline(always)]
fn has_some(range: &Range, span: &Span) -> bool
    ensures { result ≡ writes_in (addresses span.now.at span.now.count) range.now }
{
    if span.count == 0 || range.length == 0 {
        return false;
    }
    span.at.wrapping_sub(range.start) < range.length
        || range.start.wrapping_sub(span.at) < span.count
}

// Whether load segments share an address.
ghost use Rattle.std.specs.Prelude.{◌↔◌, ◌+◌, ◌<◌, ◌≤◌, ℕ, length, IsTrue, MatchOption, IfOk};
ghost use Rattle.std.specs.List.Sorted.{IsPermutation, IsNonDecreasingBy};
ghost use Rattle.elf_load.specs.HeaderFields.{segment_at, Cross, AreApart, AreFirstToCross};

use crate::segment::Segment;
use std::alloc::{AllocError, Global};

/// The segments in the order of their addresses.
pub(crate) fn by_address(alloc: Global, segments: &[Segment]) -> Result<Vec<Segment>, AllocError>
    ensures same { IfOk result (λ v. IsPermutation segments.now v.items) }
    ensures sorted { IfOk result (λ v. IsNonDecreasingBy (λ (s : Segment). s.address) v.items) }
{
    let mut sorted = Vec::from_slice(alloc, segments)?;
    sorted.sort_unstable_by_key(|segment| segment.address);
    Ok(sorted)
}

/// The places of the first two segments that share an address, in the order of their headers. `sorted` has the segments
/// by their addresses. The search runs only if neighbours there overlap.
pub(crate) fn first_overlap(segments: &[Segment], sorted: &[Segment]) -> Option<(usize, usize)>
    requires same { IsPermutation segments.now sorted.now }
    requires differ { (a b : ℕ) → a < b → b < length segments.now → (segment_at segments.now a).index < (segment_at segments.now b).index }
    ensures { MatchOption result (AreApart segments.now) (λ places. AreFirstToCross segments.now places.0 places.1) }
{
    if neighbours_are_apart(sorted) {
        None
    } else {
        first_to_cross(segments)
    }
}

// Whether each segment ends before the next one begins.
fn neighbours_are_apart(sorted: &[Segment]) -> bool
    ensures { IsTrue result → (k : ℕ) → k + 1 < length sorted.now →
        (segment_at sorted.now k).address + (segment_at sorted.now k).memory_size ≤ (segment_at sorted.now (k + 1)).address }
{
    for k in 1..sorted.len() {
        if sorted[k - 1].end() > sorted[k].address as u64 {
            return false;
        }
    }
    true
}

// The places of the first two that share an address, if any do.
fn first_to_cross(segments: &[Segment]) -> Option<(usize, usize)>
    ensures { MatchOption result (AreApart segments.now) (λ places. AreFirstToCross segments.now places.0 places.1) }
{
    for (a, segment) in segments.iter().enumerate() {
        if let Some(k) = first_crossing(*segment, &segments[a + 1..]) {
            return Some((a, a + 1 + k));
        }
    }
    None
}

// The place of the first segment that shares an address with another one.
fn first_crossing(segment: Segment, others: &[Segment]) -> Option<usize>
    ensures { MatchOption result
        ((k : ℕ) → k < length others.now → Cross segment (segment_at others.now k) → ⊥)
        (λ place. (place < length others.now) × Cross segment (segment_at others.now place) × ((k : ℕ) → k < place →
        Cross segment (segment_at others.now k) → ⊥)) }
{
    for (place, other) in others.iter().enumerate() {
        if cross(&segment, other) {
            return Some(place);
        }
    }
    None
}

fn cross(a: &Segment, b: &Segment) -> bool
    ensures { IsTrue result ↔ Cross a.now b.now }
{
    (a.address as u64) < b.end() && (b.address as u64) < a.end()
}

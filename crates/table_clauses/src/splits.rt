// What the splits of a stretch cost.
ghost use Rattle.std.specs.Prelude.{◌≡◌, ◌↔◌, ℕ, ◌+◌, ◌-◌, ◌*◌, ◌^◌, ◌<◌, ◌≤◌, true, All, IfOk, length, slice_index};
ghost use Rattle.cost_tables.specs.Prelude.{value_of};
ghost use Rattle.table_clauses.specs.Splits.{at_step, AreAddable, AreBelowSplits, IsBelowSplits, SplitFails};

use crate::column::{ahead, backward};
use crate::compare::{is_at_most, is_within};
use cost_tables::{Cost, least_sum};
use std::alloc::{AllocError, Global};

// The least cost of the splits of row r's stretch, without that of its first image.
fn least_split(back: &[u64], ahead: &[u64], r: usize) -> u64
    requires rows { (r ≤ length back.now) × (r ≤ length ahead.now) }
    requires back { All (λ n. n ≤ 2 ^ 61) back.now }
    requires ahead { All (λ n. n ≤ 2 ^ 62) ahead.now }
    ensures small { result ≤ 2 ^ 63 }
    ensures least { (i : ℕ) → i < r → result ≤ slice_index back.now (length back.now - r + i) + slice_index ahead.now i }
{
    least_sum(&back[back.len() - r..], &ahead[..r])
}

// A lower bound for each stretch's splits, without the cost of its first image. There is one for each number of steps
// from 1 on.
pub(crate) fn least_splits(
    alloc: Global,
    fresh: &[Cost],
    held: &[Cost],
    forward: u64,
) -> Result<Vec<u64>, AllocError>
    requires forward { forward < 2 ^ 32 }
    requires few { length fresh.now ≤ 8192 }
    requires long { length held.now ≡ length fresh.now }
    ensures count { IfOk result (λ least. length least.items ≡ length fresh.now) }
    ensures below { IfOk result (λ least. AreBelowSplits forward (at_step fresh.now) (at_step held.now) least.items) }
{
    let back = backward(alloc, fresh)?;
    let ahead = ahead(alloc, held, forward)?;
    let mut least = Vec::with_capacity(alloc, fresh.len())?;
    for r in 0..fresh.len() {
        least.push(least_split(&back, &ahead, r))?;
    }
    Ok(least)
}

// The entries that splits add, and what the first image and each step cost.
#[derive(Drop)]
pub(crate) struct Splits<'a> {
    first: u64,
    forward: u64,
    fresh: &'a [Cost],
    held: &'a [Cost],
}

impl<'a> Splits<'a> {
    pub(crate) fn new(first: u64, forward: u64, fresh: &'a [Cost], held: &'a [Cost]) -> Splits<'a>
        ensures first { result.first ≡ first }
        ensures forward { result.forward ≡ forward }
        ensures fresh { result.fresh.now ≡ fresh.now }
        ensures held { result.held.now ≡ held.now }
    {
        Splits {
            first,
            forward,
            fresh,
            held,
        }
    }
}

// Whether an entry for l steps is above the cost of some split, decided split by split.
fn breaks_some_split(own: Cost, splits: &Splits, l: u32) -> bool
    requires { AreAddable l splits.now }
    ensures { result ≡ true ↔ SplitFails (value_of own) splits.now.first splits.now.forward splits.now.fresh.now splits.now.held.now l }
{
    for j in 1..l {
        let there = splits.held[j as usize - 1];
        let rest = splits.fresh[(l - j) as usize - 1];
        if !is_at_most(own, splits.first + j as u64 * splits.forward, rest, there) {
            return true;
        }
    }
    false
}

// Whether a split costs less than an entry; a lower bound decides it for most entries at once.
pub(crate) fn breaks_split(own: Cost, splits: &Splits, least: u64, l: u32) -> bool
    requires addable { AreAddable l splits.now }
    requires small { least ≤ 2 ^ 63 }
    requires below { IsBelowSplits splits.now.forward (at_step splits.now.fresh.now) (at_step splits.now.held.now) l least }
    ensures { result ≡ true ↔ SplitFails (value_of own) splits.now.first splits.now.forward splits.now.fresh.now splits.now.held.now l }
{
    if is_within(own, Cost::Number(splits.first + least)) {
        return false;
    }
    breaks_some_split(own, splits, l)
}

// Whether a threshold fits the places of a list.
ghost use Rattle.std.specs.Prelude.{◌≡◌, ℕ, ◌<◌, ◌≤◌, ◌^◌, List, length, slice_index, IfOk};
ghost use Rattle.plan_types.specs.declared.action.Action.{Action};
ghost use Rattle.level_book.specs.declared.book.Level.{Level};
ghost use Rattle.level_book.specs.Prelude.{BookCosts, room};
ghost use Rattle.revolve_gen.specs.Prelude.{places_on};
ghost use Rattle.multistage_gen.specs.Prelude.{AreSavings};
ghost use Rattle.cert_text.specs.declared.certificate.Certificate.{Certificate};
ghost use Rattle.bound_cert.specs.Thresholds.{AreOn, IsGreatestSlow};
ghost use Rattle.bound_cert.specs.ValidLists.{IsValid};
ghost use Rattle.bound_cert.specs.Verdicts.{IsVerdict, FindsOn, FindsMisfit};

use crate::listed::Listed;
use crate::verdict::{CertVerdict, Class, Reason};
use class_rules::place_levels;
use multistage_gen::place_savings;
use std::alloc::{AllocError, Global};
use table_clauses::Entry;

// The verdict on a valid list and a threshold.
pub(crate) fn weigh_places(
    alloc: Global,
    listed: &Listed,
    threshold: u64,
) -> Result<CertVerdict, AllocError>
    requires { IsValid listed.now }
    ensures { IfOk result (IsVerdict listed.now.list.now listed.now.steps listed.now.book.now (Certificate.Places threshold)) }
{
    let steps = listed.steps;
    let book = listed.book;
    let Some(levels) = place_levels(alloc, listed.list, steps, book)? else {
        return Ok(CertVerdict::Not(Reason::OutsideClass));
    };
    let savings = place_savings(alloc, listed.list, book)?;
    match first_misfit(&levels, &savings, book.room(0, steps), threshold) {
        Some(entry) => Ok(CertVerdict::Not(Reason::Inequality(entry))),
        None => Ok(CertVerdict::Least(Class::Multistage)),
    }
}

// The first place that the threshold doesn't fit, by the places' levels and savings. Level 0 has room for at most so
// many.
fn first_misfit(levels: &[u8], savings: &[u64], most: u32, threshold: u64) -> Option<Entry>
    requires each { length savings.now ≡ length levels.now }
    requires few { length levels.now < 2 ^ 32 }
    ensures { (steps : ℕ) (book : BookCosts) (list : List Action) (fast slow : Level) → most ≡ room book 0 steps → AreOn steps book list fast slow levels.now →
        AreSavings list fast slow savings.now → FindsMisfit threshold steps book list fast slow levels.now result }
{
    if let Some(place) = first_below(levels, savings, threshold) {
        return Some(misfit(21, 0, place));
    }
    if let Some(place) = first_above(levels, savings, threshold) {
        return Some(misfit(22, 1, place));
    }
    if threshold != 0 && count_fast(levels) < most {
        return Some(misfit(23, 0, 0));
    }
    None
}

fn misfit(clause: u8, level: u8, place: u32) -> Entry
    ensures { result ≡ record { table = 4; level = level; free = place; steps = 0; clause = clause } }
{
    Entry {
        table: 4,
        level,
        free: place,
        steps: 0,
        clause,
    }
}

// The first place on level 0 that saves less.
fn first_below(levels: &[u8], savings: &[u64], threshold: u64) -> Option<u32>
    requires each { length savings.now ≡ length levels.now }
    requires few { length levels.now < 2 ^ 32 }
    ensures { FindsOn 0 levels.now (λ p. slice_index savings.now p < threshold) result }
{
    for (p, level) in levels.iter().enumerate() {
        if *level == 0 && savings[p] < threshold {
            return Some(p as u32);
        }
    }
    None
}

// The first place on level 1 that would save more.
fn first_above(levels: &[u8], savings: &[u64], threshold: u64) -> Option<u32>
    requires each { length savings.now ≡ length levels.now }
    requires few { length levels.now < 2 ^ 32 }
    ensures { FindsOn 1 levels.now (λ p. threshold < slice_index savings.now p) result }
{
    for (p, level) in levels.iter().enumerate() {
        if *level == 1 && savings[p] > threshold {
            return Some(p as u32);
        }
    }
    None
}

// How many places are on level 0.
fn count_fast(levels: &[u8]) -> u32
    requires few { length levels.now < 2 ^ 32 }
    ensures { result ≡ places_on (slice_index levels.now) 0 (length levels.now) }
{
    let mut count = 0;
    for level in levels {
        if *level == 0 {
            count += 1;
        }
    }
    count
}

// The most that a place on level 1 would save, or 0 if none is there.
pub(crate) fn greatest_slow(levels: &[u8], savings: &[u64]) -> u64
    requires each { length savings.now ≡ length levels.now }
    ensures { (list : List Action) (fast slow : Level) → AreSavings list fast slow savings.now → IsGreatestSlow result list fast slow levels.now }
{
    let mut greatest = 0;
    for (p, level) in levels.iter().enumerate() {
        if *level == 1 && savings[p] > greatest {
            greatest = savings[p];
        }
    }
    greatest
}

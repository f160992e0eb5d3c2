// The rows of one level's tables.
ghost use Rattle.std.specs.Prelude.{◌≡◌, ℕ, ◌+◌, ◌-◌, ◌*◌, ◌/◌, ◌^◌, ◌<◌, ◌≤◌, min, length, All, IfOk, OnOk, slice_index, slice_index_or};
ghost use Rattle.cost_tables.specs.declared.rows.TheConstants.{MOST_ROWS, FILLED_ROWS};
ghost use Rattle.cost_tables.specs.Entries.{fresh_in, held_in, least_after};
ghost use Rattle.cost_tables.specs.Rows.{split_in, partial_in, cut_of, IsRow, IsNextRow, IsMore, IsPiece, AreRows, AreStarted, AreFew, IsMostlyStarted};

use crate::costs::Costs;
use crate::sharing::{Pieces, joined, start_rows};
use plan_types::Gate;
use std::alloc::{AllocError, Global};
use std::thread::Threads;

/// Never in memory, above all other entries.
pub const NEVER: u64 = 2305843009213693952;

// The entries for stretches of one length, at each number of free slots. In the first entries the first state is in
// work, in the second it is held.
#[derive(Drop)]
pub struct Row {
    pub fresh: Vec<u64>,
    pub held: Vec<u64>,
}

// The least that the splits of row r from `low` on and before `high` cost at m free slots.
pub(crate) fn least_cost(
    rows: &[Row],
    r: usize,
    m: usize,
    forward: u64,
    low: usize,
    high: usize,
) -> u64
    requires forward { forward < 2 ^ 32 }
    requires few { r < 8192 }
    requires order { (low ≤ high) × (high ≤ r) }
    requires held_rows { low < high → high ≤ length rows.now }
    requires fresh_rows { low < high → r ≤ length rows.now + low }
    requires wide { All (λ row. (m < length row.fresh.items) × (m < length row.held.items)) rows.now }
    requires fresh { (q : ℕ) → q < length rows.now → fresh_in rows.now q m ≤ 2 ^ 61 }
    requires held { (q : ℕ) → q < length rows.now → held_in rows.now q m ≤ 2 ^ 62 }
    ensures { result ≡ least_after forward (λ q. fresh_in rows.now q m) (λ q. held_in rows.now q m) r low (high - low) }
{
    let mut least = NEVER;
    for i in low..high {
        let cost = (i as u64 + 1) * forward + rows[r - (i + 1)].fresh[m] + rows[i].held[m];
        if cost < least {
            least = cost;
        }
    }
    least
}

// A row, from what its splits cost.
fn row_of(
    alloc: Global,
    splits: &[u64],
    base: u64,
    write: u64,
    read: u64,
) -> Result<Row, AllocError>
    requires write { write < 2 ^ 32 }
    requires read { read < 2 ^ 32 }
    requires base { base ≤ 2 ^ 61 }
    requires few { length splits.now ≤ 64 }
    requires splits { All (λ n. n ≤ 2 ^ 61) splits.now }
    ensures { IfOk result (IsNextRow (length splits.now) write read base (slice_index splits.now)) }
{
    let mut fresh = Vec::with_capacity(alloc, splits.len() + 1)?;
    let mut held = Vec::with_capacity(alloc, splits.len())?;
    fresh.push(base)?;
    for split in splits {
        fresh.push(base.min(write + *split))?;
        held.push(read + base.min(*split))?;
    }
    Ok(Row { fresh, held })
}

// The costs of the next row's splits at each number of free slots. Those over the first rows alone are given.
fn finished(
    alloc: Global,
    rows: &[Row],
    filled: usize,
    partial: &[u64],
    room: usize,
    forward: u64,
) -> Result<Vec<u64>, AllocError>
    requires forward { forward < 2 ^ 32 }
    requires few { length rows.now < 8192 }
    requires filled { filled ≤ length rows.now }
    requires share { IsMostlyStarted filled (length rows.now) }
    requires shapes { All (IsRow room) rows.now }
    requires partial { IsPiece (partial_in rows.now forward filled (length rows.now)) 0 room partial.now }
    ensures { IfOk result (λ costs. IsPiece (split_in rows.now forward) 0 room costs.items) }
{
    let mut costs = Vec::with_capacity(alloc, room)?;
    let r = rows.len();
    let started = r - filled;
    for m in 0..room {
        let before = least_cost(rows, r, m, forward, 0, started);
        let behind = least_cost(rows, r, m, forward, filled.max(started), r);
        costs.push(before.min(partial[m]).min(behind))?;
    }
    Ok(costs)
}

// One row more, whose pieces are given.
fn push_row(
    alloc: Global,
    rows: &mut Vec<Row>,
    filled: usize,
    partial: &[u64],
    base: &[u64],
    room: usize,
    costs: Costs,
) -> Result<(), AllocError>
    requires forward { costs.forward < 2 ^ 32 }
    requires write { costs.write < 2 ^ 32 }
    requires read { costs.read < 2 ^ 32 }
    requires room { room ≤ 64 }
    requires base { (length base.now ≤ 8192) × All (λ n. n ≤ 2 ^ 61) base.now }
    requires next { length rows.old.items < length base.now }
    requires filled { filled ≤ length rows.old.items }
    requires share { IsMostlyStarted filled (length rows.old.items) }
    requires rows { AreRows room costs.forward costs.write costs.read base.now rows.old.items }
    requires partial { IsPiece (partial_in rows.old.items costs.forward filled (length rows.old.items)) 0 room partial.now }
    ensures more { OnOk result (IsMore rows.old.items rows.new.items 1) }
    ensures rows { OnOk result (AreRows room costs.forward costs.write costs.read base.now rows.new.items) }
{
    let splits = finished(alloc, rows, filled, partial, room, costs.forward)?;
    let row = row_of(alloc, &splits, base[rows.len()], costs.write, costs.read)?;
    rows.push(row)?;
    Ok(())
}

// The next rows, whose pieces are given.
fn push_rows(
    alloc: Global,
    rows: &mut Vec<Row>,
    parts: &[Result<Pieces, AllocError>],
    base: &[u64],
    room: usize,
    costs: Costs,
    count: usize,
) -> Result<(), AllocError>
    requires forward { costs.forward < 2 ^ 32 }
    requires write { costs.write < 2 ^ 32 }
    requires read { costs.read < 2 ^ 32 }
    requires room { room ≤ 64 }
    requires base { (length base.now ≤ 8192) × All (λ n. n ≤ 2 ^ 61) base.now }
    requires next { length rows.old.items + count ≤ length base.now }
    requires share { AreFew (length rows.old.items) count }
    requires rows { AreRows room costs.forward costs.write costs.read base.now rows.old.items }
    requires pieces { (1 ≤ length parts.now) × (length parts.now ≤ 64) }
    requires parts { (i : ℕ) (d : _) → i < length parts.now →
        IfOk (slice_index_or parts.now i d)
        (λ p. AreStarted rows.old.items costs.forward count (cut_of room (length parts.now) i) (cut_of room (length parts.now) (i + 1)) p.items) }
    ensures long { OnOk result (length rows.new.items ≡ length rows.old.items + count) }
    ensures rows { OnOk result (AreRows room costs.forward costs.write costs.read base.now rows.new.items) }
{
    let filled = rows.len();
    for q in 0..count {
        let partial = joined(alloc, parts, q, room)?;
        push_row(alloc, rows, filled, &partial, base, room, costs)?;
    }
    Ok(())
}

// The most rows that are shared at a time: 64, and one for each 16 filled rows, plus one. Workers start anew each time.
// The caller does the splits that use unfilled rows. The first rows are shared one at a time, so these splits are at
// most one in eight.
const MOST_ROWS: usize = 64;

const FILLED_ROWS: usize = 16;

// How many of the remaining rows are shared next.
fn shared_rows(filled: usize, left: usize) -> usize
    requires { 1 ≤ left }
    ensures number { result ≡ min (min (filled / FILLED_ROWS + 1) MOST_ROWS) left }
    ensures some { 1 ≤ result }
    ensures share { AreFew filled result }
{
    (filled / FILLED_ROWS + 1).min(MOST_ROWS).min(left)
}

// The rows of a level, given the costs where the level isn't used. So many rows are filled at a time. Workers share the
// splits that use earlier rows alone. The caller does the few others.
pub(crate) fn level_rows<R: Threads + Sync, G: Gate + Sync>(
    rt: &R,
    alloc: Global,
    gate: &G,
    workers: usize,
    base: &[u64],
    room: usize,
    costs: Costs,
) -> Result<Vec<Row>, AllocError>
    requires forward { costs.forward < 2 ^ 32 }
    requires write { costs.write < 2 ^ 32 }
    requires read { costs.read < 2 ^ 32 }
    requires few { length base.now ≤ 8192 }
    requires room { room ≤ 64 }
    requires workers { (1 ≤ workers) × (workers ≤ 64) }
    requires base { All (λ n. n ≤ 2 ^ 61) base.now }
    ensures wide { IfOk result (λ rows. length rows.items ≡ length base.now) }
    ensures rows { IfOk result (λ rows. AreRows room costs.forward costs.write costs.read base.now rows.items) }
{
    let mut rows = Vec::with_capacity(alloc, base.len())?;
    let pieces = workers.min(room).max(1);
    while rows.len() < base.len() {
        let count = shared_rows(rows.len(), base.len() - rows.len());
        let parts = start_rows(rt, alloc, gate, pieces, &rows, room, costs.forward, count)?;
        push_rows(alloc, &mut rows, &parts, base, room, costs, count)?;
    }
    Ok(rows)
}

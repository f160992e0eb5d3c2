// The filled rows at one number of free slots. Their numbers are consecutive, so that splits scan them quickly.
ghost use Rattle.std.specs.Prelude.{◌≡◌, ◌+◌, ◌-◌, ◌*◌, ◌^◌, ◌<◌, ◌≤◌, length, All, IfOk, slice_index};
ghost use Rattle.cost_tables.specs.Entries.{fresh_in, held_in, least_of};
ghost use Rattle.cost_tables.specs.Rows.{partial_in, IsRow, IsColumn};

use crate::rows::{NEVER, Row};
use std::alloc::{AllocError, Global};

/// The least sum of two numbers at the same place, and at most Never's number.
pub fn least_sum(xs: &[u64], ys: &[u64]) -> u64
    requires long { length xs.now ≡ length ys.now }
    requires xs { All (λ n. n ≤ 2 ^ 61) xs.now }
    requires ys { All (λ n. n ≤ 2 ^ 63) ys.now }
    ensures { result ≡ least_of (λ i. slice_index xs.now i + slice_index ys.now i) (length xs.now) }
{
    let mut least = NEVER;
    for i in 0..xs.len() {
        let cost = xs[i] + ys[i];
        if cost < least {
            least = cost;
        }
    }
    least
}

// The least cost of the splits of row q, after the filled rows, that use only filled rows.
fn started_cost(fresh: &[u64], held: &[u64], q: usize) -> u64
    requires long { length fresh.now ≡ length held.now }
    requires fresh { All (λ n. n ≤ 2 ^ 61) fresh.now }
    requires held { All (λ n. n ≤ 2 ^ 63) held.now }
    ensures { result ≡ least_of (λ i. slice_index fresh.now i + slice_index held.now (q + i)) (length held.now - q) }
{
    let first = q.min(held.len());
    least_sum(&fresh[..fresh.len() - first], &held[first..])
}

// The entries with the first state in work, from the last row back.
fn fresh_column(alloc: Global, rows: &[Row], room: usize, m: usize) -> Result<Vec<u64>, AllocError>
    requires few { length rows.now ≤ 8192 }
    requires shapes { All (IsRow room) rows.now }
    requires m { m < room }
    ensures { IfOk result (λ column. IsColumn (2 ^ 61) (length rows.now) (λ i. fresh_in rows.now (length rows.now - (i + 1)) m) column.items) }
{
    let mut column = Vec::with_capacity(alloc, rows.len())?;
    for i in 0..rows.len() {
        column.push(rows[rows.len() - (i + 1)].fresh[m])?;
    }
    Ok(column)
}

// The entries with the first state held, each plus the steps to there.
fn held_column(
    alloc: Global,
    rows: &[Row],
    room: usize,
    forward: u64,
    m: usize,
) -> Result<Vec<u64>, AllocError>
    requires forward { forward < 2 ^ 32 }
    requires few { length rows.now ≤ 8192 }
    requires shapes { All (IsRow room) rows.now }
    requires m { m < room }
    ensures { IfOk result (λ column. IsColumn (2 ^ 63) (length rows.now) (λ i. (i + 1) * forward + held_in rows.now i m) column.items) }
{
    let mut column = Vec::with_capacity(alloc, rows.len())?;
    for i in 0..rows.len() {
        column.push((i as u64 + 1) * forward + rows[i].held[m])?;
    }
    Ok(column)
}

// The costs of the splits over filled rows, for each of the next rows, at m free slots.
pub(crate) fn slot_piece(
    alloc: Global,
    rows: &[Row],
    room: usize,
    forward: u64,
    count: usize,
    m: usize,
) -> Result<Vec<u64>, AllocError>
    requires forward { forward < 2 ^ 32 }
    requires few { length rows.now + count ≤ 8192 }
    requires shapes { All (IsRow room) rows.now }
    requires m { m < room }
    ensures { IfOk result (λ costs. IsColumn (2 ^ 61) count (λ q. partial_in rows.now forward (length rows.now) (length rows.now + q) m) costs.items) }
{
    let fresh = fresh_column(alloc, rows, room, m)?;
    let held = held_column(alloc, rows, room, forward, m)?;
    let mut costs = Vec::with_capacity(alloc, count)?;
    for q in 0..count {
        costs.push(started_cost(&fresh, &held, q))?;
    }
    Ok(costs)
}

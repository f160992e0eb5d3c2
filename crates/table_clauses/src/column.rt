// Columns of tables, and lower bounds of their entries in the order in which splits scan them.
ghost use Rattle.std.specs.Prelude.{◌≡◌, ℕ, ◌+◌, ◌*◌, ◌^◌, ◌<◌, ◌≤◌, IfOk, length};
ghost use Rattle.level_book.specs.UnderTable.{Entry};
ghost use Rattle.table_clauses.specs.Splits.{HaveValues, IsBackward, IsAhead, IsColumn};

use cost_tables::Cost;
use std::alloc::{AllocError, Global};

// The cap of an entry, so that sums don't wrap.
const MOST: u64 = 2305843009213693952;

// The entries of a table from 1 step on.
pub(crate) fn column_of<F: Fn(u32) -> Cost>(
    alloc: Global,
    steps: u32,
    cost: F,
) -> Result<Vec<Cost>, AllocError>
    requires { (l : ℕ) → 1 ≤ l → l ≤ steps → F.pre cost l }
    ensures { (entries : ℕ → Entry) → HaveValues steps (F.post cost) entries → IfOk result (λ column. IsColumn steps entries column.items) }
{
    let mut column = Vec::with_capacity(alloc, steps as usize)?;
    for r in 0..steps {
        column.push(cost(r + 1))?;
    }
    Ok(column)
}

// A lower bound of an entry.
fn clipped(cost: Cost) -> u64
    ensures small { result ≤ 2 ^ 61 }
    ensures below { (v : ℕ) → cost ≡ Cost.Number v → result ≤ v }
{
    match cost {
        Cost::Number(n) => n.min(MOST),
        Cost::Never => MOST,
    }
}

// The entries from the last one back.
pub(crate) fn backward(alloc: Global, column: &[Cost]) -> Result<Vec<u64>, AllocError>
    ensures { IfOk result (λ low. IsBackward column.now low.items) }
{
    let mut low = Vec::with_capacity(alloc, column.len())?;
    for i in 0..column.len() {
        low.push(clipped(column[column.len() - (i + 1)]))?;
    }
    Ok(low)
}

// A lower bound of an entry plus the i + 1 steps to there.
fn clipped_ahead(cost: Cost, i: usize, forward: u64) -> u64
    requires i { i < 8192 }
    requires forward { forward < 2 ^ 32 }
    ensures small { result ≤ 2 ^ 62 }
    ensures below { (v : ℕ) → cost ≡ Cost.Number v → result ≤ (i + 1) * forward + v }
{
    (i as u64 + 1) * forward + clipped(cost)
}

// The entries, each plus the steps to there.
pub(crate) fn ahead(alloc: Global, column: &[Cost], forward: u64) -> Result<Vec<u64>, AllocError>
    requires forward { forward < 2 ^ 32 }
    requires few { length column.now ≤ 8192 }
    ensures { IfOk result (λ low. IsAhead forward column.now low.items) }
{
    let mut low = Vec::with_capacity(alloc, column.len())?;
    for i in 0..column.len() {
        low.push(clipped_ahead(column[i], i, forward))?;
    }
    Ok(low)
}

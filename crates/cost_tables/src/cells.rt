// The rows of tables as they are kept: a cost for each entry.
ghost use Rattle.std.specs.Prelude.{◌≡◌, ◌+◌, length, map, All, IfOk};
ghost use Rattle.cost_tables.specs.TableRows.{value_of};
ghost use Rattle.cost_tables.specs.Entries.{entry};
ghost use Rattle.cost_tables.specs.TableInvariant.{AreCellsOf, AreLevelsOf, IsNeverCells, AreShortCells};

use crate::cost::{Cost, are_short};
use crate::rows::{NEVER, Row};
use std::alloc::{AllocError, Global};

// The entries for stretches of one length, as in `Row`.
#[derive(Drop)]
pub struct Cells {
    pub fresh: Vec<Cost>,
    pub held: Vec<Cost>,
}

// The entry of a number in memory.
fn cost_of(n: u64) -> Cost
    ensures { value_of result ≡ entry n }
{
    if n < NEVER {
        Cost::Number(n)
    } else {
        Cost::Never
    }
}

/// The entries of numbers in memory, each below `NEVER`, or that for Never.
pub fn costs_of(alloc: Global, numbers: &[u64]) -> Result<Vec<Cost>, AllocError>
    ensures { IfOk result (λ costs. map value_of costs.items ≡ map entry numbers.now) }
{
    let mut costs = Vec::with_capacity(alloc, numbers.len())?;
    for n in numbers {
        costs.push(cost_of(*n))?;
    }
    Ok(costs)
}

// The entries of the rows of a level.
fn cells_of(alloc: Global, rows: &[Row]) -> Result<Vec<Cells>, AllocError>
    ensures { IfOk result (λ cells. AreCellsOf rows.now cells.items) }
{
    let mut cells = Vec::with_capacity(alloc, rows.len())?;
    for row in rows {
        let fresh = costs_of(alloc, &row.fresh)?;
        let held = costs_of(alloc, &row.held)?;
        cells.push(Cells { fresh, held })?;
    }
    Ok(cells)
}

// The entries of all levels.
pub(crate) fn levels_of(alloc: Global, levels: &[Vec<Row>]) -> Result<Vec<Vec<Cells>>, AllocError>
    ensures { IfOk result (λ cells. AreLevelsOf levels.now cells.items) }
{
    let mut cells = Vec::with_capacity(alloc, levels.len())?;
    for rows in levels {
        cells.push(cells_of(alloc, rows)?)?;
    }
    Ok(cells)
}

// So many entries, each of them Never.
fn never_costs(alloc: Global, count: usize) -> Result<Vec<Cost>, AllocError>
    ensures count { IfOk result (λ costs. length costs.items ≡ count) }
    ensures never { IfOk result (λ costs. All (λ cost. cost ≡ Cost.Never) costs.items) }
{
    let mut costs = Vec::with_capacity(alloc, count)?;
    for _ in 0..count {
        costs.push(Cost::Never)?;
    }
    Ok(costs)
}

// The rows of a level, with every entry Never.
pub(crate) fn never_cells(alloc: Global, steps: u32, room: u32) -> Result<Vec<Cells>, AllocError>
    ensures count { IfOk result (λ cells. length cells.items ≡ steps) }
    ensures never { IfOk result (λ cells. All (IsNeverCells room) cells.items) }
{
    let mut cells = Vec::with_capacity(alloc, steps as usize)?;
    for _ in 0..steps {
        let fresh = never_costs(alloc, room as usize + 1)?;
        let held = never_costs(alloc, room as usize)?;
        cells.push(Cells { fresh, held })?;
    }
    Ok(cells)
}

// Changes nothing. The entries of a level have 64 bits.
fn short_cells(rows: &[Cells])
    ensures { All AreShortCells rows.now }
{
    for cells in rows {
        are_short(&cells.fresh);
        are_short(&cells.held);
    }
}

// The rows of all levels are short.
pub(crate) fn short_levels(levels: &[Vec<Cells>])
    ensures { All (λ level. All AreShortCells level.items) levels.now }
{
    for rows in levels {
        short_cells(rows);
    }
}

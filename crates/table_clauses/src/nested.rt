// Tables over the levels of a book.
ghost use Rattle.std.specs.Prelude.{◌≡◌, ℕ, ◌-◌, ◌^◌, ◌<◌, ◌≤◌, IfOk, MatchOption, length, slice_index, slice_index_or};
ghost use Rattle.level_book.specs.Prelude.{IsUnderTable};
ghost use Rattle.cost_tables.specs.Prelude.{AreFor, tables_in};
ghost use Rattle.table_clauses.specs.ClauseFailures.{Breaks, IsFirst};
ghost use Rattle.table_clauses.specs.Columns.{AreFreshColumns, AreHeldColumns, AreSplits, AreSplitsAt, AreSplitsOf, IsComparable, IsFaster, IsPair, IsPairBefore, Finds, InTable, InLevel, LevelBreaks, table_number};
ghost use Rattle.table_clauses.specs.Splits.{IsColumn};

use crate::column::column_of;
use crate::entry::Entry;
use crate::search::{Compared, FreshColumns, HeldColumns, Pair, first_in_column};
use crate::splits::least_splits;
use cost_tables::{Cost, Costs, Tables};
use level_book::Book;
use std::alloc::{AllocError, Global};

/// The first place at which the tables break a clause. None: they are an under-table. Only a lack of memory refuses it.
pub fn first_broken(
    alloc: Global,
    tables: &Tables,
    book: &Book,
) -> Result<Option<Entry>, AllocError>
    requires sizes { AreFor tables.now.steps book.now tables.now }
    requires few { tables.now.steps ≤ 8192 }
    ensures { IfOk result (λ o. MatchOption o (IsUnderTable tables.now.steps book.now (tables_in tables.now))
        (IsFirst (Breaks tables.now.steps book.now (tables_in tables.now)))) }
{
    let splits = all_splits(alloc, tables, book.forward() as u64)?;
    if let Some(entry) = first_in_table(alloc, tables, book, &splits, false)? {
        return Ok(Some(entry));
    }
    first_in_table(alloc, tables, book, &splits, true)
}

// Lower bounds of splits, for each level, each number of free slots, and each stretch.
fn all_splits(
    alloc: Global,
    tables: &Tables,
    forward: u64,
) -> Result<Vec<Vec<Vec<u64>>>, AllocError>
    requires forward { forward < 2 ^ 32 }
    requires few { tables.now.steps ≤ 8192 }
    ensures count { IfOk result (λ splits. length splits.items ≡ length tables.now.rooms) }
    ensures are { IfOk result (λ splits. AreSplits tables.now forward splits.items) }
{
    let mut splits = Vec::with_capacity(alloc, tables.levels() as usize)?;
    for k in 0..tables.levels() {
        splits.push(level_splits(alloc, tables, forward, k)?)?;
    }
    Ok(splits)
}

// Lower bounds for the splits of one level.
pub(crate) fn level_splits(
    alloc: Global,
    tables: &Tables,
    forward: u64,
    k: u8,
) -> Result<Vec<Vec<u64>>, AllocError>
    requires forward { forward < 2 ^ 32 }
    requires few { tables.now.steps ≤ 8192 }
    requires k { k < length tables.now.rooms }
    ensures { IfOk result (λ splits. AreSplitsOf tables.now forward k splits.items) }
{
    let room = tables.room(k);
    let mut splits = Vec::with_capacity(alloc, room as usize)?;
    for m in 0..room {
        splits.push(slot_splits(alloc, tables, forward, k, m)?)?;
    }
    Ok(splits)
}

// Lower bounds for the splits at one number of free slots.
fn slot_splits(
    alloc: Global,
    tables: &Tables,
    forward: u64,
    k: u8,
    m: u32,
) -> Result<Vec<u64>, AllocError>
    requires forward { forward < 2 ^ 32 }
    requires few { tables.now.steps ≤ 8192 }
    requires k { k < length tables.now.rooms }
    requires m { m < slice_index tables.now.rooms k }
    ensures { IfOk result (λ least. AreSplitsAt tables.now forward k m least.items) }
{
    let fresh = fresh_costs(alloc, tables, k, m)?;
    let held = held_costs(alloc, tables, k, m)?;
    least_splits(alloc, &fresh, &held, forward)
}

// A level of tables, the book, and lower bounds for the level's splits at each number of free slots.
#[derive(Clone, Copy)]
pub(crate) struct TableLevel<'a> {
    pub tables: &'a Tables,
    pub book: &'a Book,
    pub k: u8,
    pub splits: &'a [Vec<u64>],
}

// The first place in table H, or in table F.
fn first_in_table(
    alloc: Global,
    tables: &Tables,
    book: &Book,
    splits: &[Vec<Vec<u64>>],
    is_held: bool,
) -> Result<Option<Entry>, AllocError>
    requires sizes { AreFor tables.now.steps book.now tables.now }
    requires few { tables.now.steps ≤ 8192 }
    requires all { length splits.now ≡ length tables.now.rooms }
    requires splits { AreSplits tables.now book.now.forward splits.now }
    ensures { IfOk result (Finds (InTable (table_number is_held) (Breaks tables.now.steps book.now (tables_in tables.now)))) }
{
    for k in 0..book.levels() {
        let level = TableLevel {
            tables,
            book,
            k,
            splits: &splits[k as usize],
        };
        if let Some(entry) = first_in_level(alloc, &level, is_held)? {
            return Ok(Some(entry));
        }
    }
    Ok(None)
}

// The first place of a level in table H, or in table F.
fn first_in_level(
    alloc: Global,
    level: &TableLevel,
    is_held: bool,
) -> Result<Option<Entry>, AllocError>
    requires { IsComparable level.now }
    ensures { IfOk result (Finds (InLevel (table_number is_held) level.now.k (LevelBreaks level.now))) }
{
    if is_held {
        return held_level(alloc, level);
    }
    fresh_level(alloc, level)
}

// The first place of a level in table F.
pub(crate) fn fresh_level(alloc: Global, level: &TableLevel) -> Result<Option<Entry>, AllocError>
    requires { IsComparable level.now }
    ensures { IfOk result (Finds (InLevel 0 level.now.k (LevelBreaks level.now))) }
{
    let costs = Costs::of(level.book, level.k);
    for m in 0..=level.tables.room(level.k) {
        let columns = fresh_columns(alloc, level.tables, level.k, m)?;
        let column = Compared {
            columns: &columns,
            costs,
            least: splits_before(level.splits, m),
        };
        if let Some(entry) = first_in_column(&column, 0, level.k, m, level.tables.steps()) {
            return Ok(Some(entry));
        }
    }
    Ok(None)
}

// The first place of a level in table H.
pub(crate) fn held_level(alloc: Global, level: &TableLevel) -> Result<Option<Entry>, AllocError>
    requires { IsComparable level.now }
    ensures { IfOk result (Finds (InLevel 1 level.now.k (LevelBreaks level.now))) }
{
    let costs = Costs::of(level.book, level.k);
    for m in 0..level.tables.room(level.k) {
        let columns = held_columns(alloc, level.tables, level.k, m)?;
        let column = Compared {
            columns: &columns,
            costs,
            least: &level.splits[m as usize],
        };
        if let Some(entry) = first_in_column(&column, 1, level.k, m, level.tables.steps()) {
            return Ok(Some(entry));
        }
    }
    Ok(None)
}

// Those for a free slot less, if there is one.
fn splits_before(splits: &[Vec<u64>], m: u32) -> &[u64]
    requires { m ≤ length splits.now }
    ensures { (d : _) → 1 ≤ m → result.now ≡ (slice_index_or splits.now (m - 1) d).items }
{
    if m == 0 {
        return &[];
    }
    &splits[m as usize - 1]
}

// The columns that an entry of table F is compared with.
fn fresh_columns(alloc: Global, tables: &Tables, k: u8, m: u32) -> Result<FreshColumns, AllocError>
    requires k { k < length tables.now.rooms }
    requires m { m ≤ slice_index tables.now.rooms k }
    ensures { IfOk result (AreFreshColumns tables.now k m) }
{
    Ok(FreshColumns {
        own: fresh_costs(alloc, tables, k, m)?,
        faster: faster_costs(alloc, tables, k)?,
        before: pair_before(alloc, tables, k, m)?,
    })
}

// The columns that an entry of table H is compared with.
fn held_columns(alloc: Global, tables: &Tables, k: u8, m: u32) -> Result<HeldColumns, AllocError>
    requires k { k < length tables.now.rooms }
    requires m { m < slice_index tables.now.rooms k }
    ensures { IfOk result (AreHeldColumns tables.now k m) }
{
    Ok(HeldColumns {
        faster: faster_costs(alloc, tables, k)?,
        here: pair_of(alloc, tables, k, m)?,
    })
}

// The column of the faster level with all its slots, if there is one.
fn faster_costs(alloc: Global, tables: &Tables, k: u8) -> Result<Option<Vec<Cost>>, AllocError>
    requires { k < length tables.now.rooms }
    ensures { IfOk result (IsFaster tables.now k) }
{
    if k == 0 {
        return Ok(None);
    }
    let column = fresh_costs(alloc, tables, k - 1, tables.room(k - 1))?;
    Ok(Some(column))
}

// The columns for a free slot less, if there is one.
fn pair_before(alloc: Global, tables: &Tables, k: u8, m: u32) -> Result<Option<Pair>, AllocError>
    requires k { k < length tables.now.rooms }
    requires m { m ≤ slice_index tables.now.rooms k }
    ensures { IfOk result (IsPairBefore tables.now k m) }
{
    if m == 0 {
        return Ok(None);
    }
    let pair = pair_of(alloc, tables, k, m - 1)?;
    Ok(Some(pair))
}

// The columns of a level and a number of free slots.
fn pair_of(alloc: Global, tables: &Tables, k: u8, m: u32) -> Result<Pair, AllocError>
    requires k { k < length tables.now.rooms }
    requires m { m < slice_index tables.now.rooms k }
    ensures { IfOk result (IsPair tables.now k m) }
{
    Ok(Pair {
        fresh: fresh_costs(alloc, tables, k, m)?,
        held: held_costs(alloc, tables, k, m)?,
    })
}

// The column of table F for a level and a number of free slots.
pub(crate) fn fresh_costs(
    alloc: Global,
    tables: &Tables,
    k: u8,
    m: u32,
) -> Result<Vec<Cost>, AllocError>
    requires k { k < length tables.now.rooms }
    requires m { m ≤ slice_index tables.now.rooms k }
    ensures { IfOk result (λ column. IsColumn tables.now.steps (λ l. (tables_in tables.now).fresh k l m) column.items) }
{
    column_of(alloc, tables.steps(), |l| tables.fresh(k, l, m))
}

// The entries of table H at one number of free slots, in ascending order of steps.
fn held_costs(alloc: Global, tables: &Tables, k: u8, m: u32) -> Result<Vec<Cost>, AllocError>
    requires k { k < length tables.now.rooms }
    requires m { m < slice_index tables.now.rooms k }
    ensures { IfOk result (λ column. IsColumn tables.now.steps (λ l. (tables_in tables.now).held k l m) column.items) }
{
    column_of(alloc, tables.steps(), |l| tables.held(k, l, m))
}

// Tables over memory and an unlimited disk.
ghost use Rattle.std.specs.Prelude.{◌^◌, ◌<◌, ◌≤◌, IfOk, MatchOption};
ghost use Rattle.level_book.specs.Prelude.{IsDiskUnderTable};
ghost use Rattle.cost_tables.specs.Prelude.{AreCosts};
ghost use Rattle.disk_gen.specs.Prelude.{AreDiskSized, disk_tables_in};
ghost use Rattle.table_clauses.specs.ClauseFailures.{DiskBreaks, IsFirst};
ghost use Rattle.table_clauses.specs.Columns.{IsFirstClause, Finds};
ghost use Rattle.table_clauses.specs.Splits.{IsColumn};
ghost use Rattle.table_clauses.specs.DiskColumns.{AreDiskColumns, AreDiskReached, AreDiskSplits, AreLongDisk, DiskColumnFails, DiskFreshColumnFails, DiskHeldColumnFails, InDiskColumns};
ghost use Rattle.table_clauses.specs.ShorterColumns.{disk_shorter};

use crate::column::column_of;
use crate::compare::{is_at_most, is_within};
use crate::entry::Entry;
use crate::nested::{TableLevel, fresh_costs, fresh_level, held_level, level_splits};
use crate::search::{Column, first_in_column};
use crate::splits::{Splits, breaks_split, least_splits};
use cost_tables::{Cost, Costs};
use disk_gen::DiskTables;
use level_book::Book;
use std::alloc::{AllocError, Global};

// The column of level 0 with all its slots, and those over both levels. Also lower bounds for the costs of the splits
// of tables Fd and Hd.
#[derive(Drop)]
pub(crate) struct DiskColumns {
    pub fast: Vec<Cost>,
    pub fresh: Vec<Cost>,
    pub held: Vec<Cost>,
    pub fresh_splits: Vec<u64>,
    pub held_splits: Vec<u64>,
}

/// The first place at which the tables break a clause. None: they are a disk under-table. The book may have one level,
/// and then an image on level 1 costs nothing. Only a lack of memory refuses it.
pub fn first_broken_disk(
    alloc: Global,
    tables: &DiskTables,
    book: &Book,
) -> Result<Option<Entry>, AllocError>
    requires sizes { AreDiskSized tables.now.fast.steps book.now tables.now }
    requires few { tables.now.fast.steps ≤ 8192 }
    ensures { IfOk result (λ o. MatchOption o (IsDiskUnderTable tables.now.fast.steps book.now (disk_tables_in tables.now))
        (IsFirst (DiskBreaks tables.now.fast.steps book.now (disk_tables_in tables.now)))) }
{
    let _levels = book.levels();
    let fast = tables.fast();
    let splits = level_splits(alloc, fast, book.forward() as u64, 0)?;
    let level = TableLevel {
        tables: fast,
        book,
        k: 0,
        splits: &splits,
    };
    if let Some(entry) = fresh_level(alloc, &level)? {
        return Ok(Some(entry));
    }
    if let Some(entry) = held_level(alloc, &level)? {
        return Ok(Some(entry));
    }
    let costs = disk_costs(book);
    let columns = disk_columns(alloc, tables, costs.forward)?;
    Ok(first_over_both(&columns, costs, tables.steps()))
}

// What steps cost, and an image on level 1. A book of one level has no costs there.
fn disk_costs(book: &Book) -> Costs
    ensures { AreCosts book.now 1 result }
{
    if book.levels() > 1 {
        return Costs::of(book, 1);
    }
    Costs {
        write: 0,
        read: 0,
        ..Costs::of(book, 0)
    }
}

// The columns that the entries over both levels are compared with.
fn disk_columns(alloc: Global, tables: &DiskTables, forward: u64) -> Result<DiskColumns, AllocError>
    requires forward { forward < 2 ^ 32 }
    requires few { tables.now.fast.steps ≤ 8192 }
    ensures are { IfOk result (AreDiskColumns tables.now) }
    ensures long { IfOk result (AreLongDisk tables.now.fast.steps) }
    ensures splits { IfOk result (AreDiskSplits forward) }
{
    let fast = fresh_costs(alloc, tables.fast(), 0, tables.room())?;
    let fresh = disk_fresh_costs(alloc, tables)?;
    let held = disk_held_costs(alloc, tables)?;
    let fresh_splits = least_splits(alloc, &fresh, &held, forward)?;
    let held_splits = least_splits(alloc, &fast, &held, forward)?;
    Ok(DiskColumns {
        fast,
        fresh,
        held,
        fresh_splits,
        held_splits,
    })
}

// The column of table Fd.
fn disk_fresh_costs(alloc: Global, tables: &DiskTables) -> Result<Vec<Cost>, AllocError>
    ensures { IfOk result (λ column. IsColumn tables.now.fast.steps (disk_tables_in tables.now).disk_fresh column.items) }
{
    column_of(alloc, tables.steps(), |l| tables.disk_fresh(l))
}

// The entries of table Hd, in ascending order of steps.
fn disk_held_costs(alloc: Global, tables: &DiskTables) -> Result<Vec<Cost>, AllocError>
    ensures { IfOk result (λ column. IsColumn tables.now.fast.steps (disk_tables_in tables.now).disk_held column.items) }
{
    column_of(alloc, tables.steps(), |l| tables.disk_held(l))
}

// The first place in tables Fd and Hd.
fn first_over_both(columns: &DiskColumns, costs: Costs, steps: u32) -> Option<Entry>
    requires { AreDiskReached costs columns.now steps }
    ensures { Finds (InDiskColumns costs columns.now steps) result }
{
    let fresh = DiskColumn {
        columns,
        costs,
        is_held: false,
    };
    if let Some(entry) = first_in_column(&fresh, 2, 1, 0, steps) {
        return Some(entry);
    }
    let held = DiskColumn {
        is_held: true,
        ..fresh
    };
    first_in_column(&held, 3, 1, 0, steps)
}

// The column of table Fd, or that of table Hd.
#[derive(Clone, Copy)]
pub(crate) struct DiskColumn<'a> {
    pub columns: &'a DiskColumns,
    pub costs: Costs,
    pub is_held: bool,
}

impl<'a> Column for DiskColumn<'a> {
    ghost fails = { λ column. DiskColumnFails column.is_held column.costs column.columns.now };

    ghost reaches = { λ column. AreDiskReached column.costs column.columns.now };

    ghost shorter = { λ column. disk_shorter column.costs column.columns.now };

    fn first_clause(&self, l: u32) -> Option<u8> {
        if self.is_held {
            return disk_held_clause(self.columns, self.costs, l);
        }
        disk_fresh_clause(self.columns, self.costs, l)
    }
}

// The first clause that fails at an entry of table Fd.
fn disk_fresh_clause(columns: &DiskColumns, costs: Costs, l: u32) -> Option<u8>
    requires l { 1 ≤ l }
    requires reached { AreDiskReached costs columns.now l }
    ensures { IsFirstClause (DiskFreshColumnFails costs columns.now l) result }
{
    let own = columns.fresh[l as usize - 1];
    if !is_within(own, columns.fast[l as usize - 1]) {
        return Some(11);
    }
    let splits = Splits::new(costs.write, costs.forward, &columns.fresh, &columns.held);
    if breaks_split(own, &splits, columns.fresh_splits[l as usize - 1], l) {
        return Some(12);
    }
    let held = columns.held[l as usize - 1];
    if !is_at_most(own, costs.write, Cost::Number(0), held) {
        return Some(13);
    }
    None
}

// The first clause that fails at an entry of table Hd.
fn disk_held_clause(columns: &DiskColumns, costs: Costs, l: u32) -> Option<u8>
    requires l { 1 ≤ l }
    requires reached { AreDiskReached costs columns.now l }
    ensures { IsFirstClause (DiskHeldColumnFails costs columns.now l) result }
{
    let own = columns.held[l as usize - 1];
    let fast = columns.fast[l as usize - 1];
    if !is_at_most(own, costs.read, Cost::Number(0), fast) {
        return Some(14);
    }
    let splits = Splits::new(costs.read, costs.forward, &columns.fast, &columns.held);
    if breaks_split(own, &splits, columns.held_splits[l as usize - 1], l) {
        return Some(15);
    }
    None
}

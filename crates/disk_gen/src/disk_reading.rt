// The list for memory and an unlimited disk, as it is read from the disk tables.
ghost use Rattle.std.specs.Prelude.{◌≡◌, ◌≢◌, ◌<◌, ◌≤◌, ◌+◌, ◌-◌, ◌*◌, ◌^◌, ℕ, true, false, IfOk, slice_index};
ghost use Rattle.level_book.specs.Prelude.{slots_of, cost, Disk, disk_top_entry, number, sum_of};
ghost use Rattle.cost_tables.specs.Prelude.{value_of};
ghost use Rattle.disk_gen.specs.DiskRows.{AreGreatestDiskFor, disk_tables_in};
ghost use Rattle.disk_gen.specs.DiskRevolveList.{IsDiskWritten};
ghost use Rattle.disk_gen.specs.ReadableDiskTables.{CanReadDisk, IsHeldMore, IsDiskMore};

use crate::disk_tables::DiskTables;
use cost_tables::Cost;
use hrevolve_gen::{Stretch, is_sum, write_fresh};
use level_book::Book;
use plan_types::{Action, Dest, Keep};
use std::alloc::{AllocError, Global};

/// The list read from the tables that were built for so many steps and a book.
pub fn disk_list(
    alloc: Global,
    tables: &DiskTables,
    steps: u32,
    book: &Book,
) -> Result<Vec<Action>, AllocError>
    requires { AreGreatestDiskFor steps book.now tables.now }
    ensures list { IfOk result (λ list. IsDiskWritten steps book.now (disk_tables_in tables.now) list.items) }
    ensures disk { IfOk result (λ list. Disk steps (slots_of book.now) list.items) }
    ensures cost { IfOk result (λ list. disk_top_entry steps (disk_tables_in tables.now) ≡ number (cost list.items book.now)) }
{
    book.is_within_limits();
    whole_list(alloc, tables, book)
}

// The list for all steps.
fn whole_list(alloc: Global, tables: &DiskTables, book: &Book) -> Result<Vec<Action>, AllocError>
    requires ready { CanReadDisk book.now tables.now }
    ensures { IfOk result (λ list. IsDiskWritten tables.now.fast.steps book.now (disk_tables_in tables.now) list.items) }
{
    let steps = tables.steps();
    let mut list = Vec::new(alloc);
    if steps == 0 {
        list.extend_from_slice(&[Action::EndForward, Action::EndReverse])?;
        return Ok(list);
    }
    write_disk_fresh(&mut list, tables, book, 0, steps)?;
    list.push(Action::EndReverse)?;
    Ok(list)
}

// Whether the stretch costs as much with level 0 alone, where its first state is held on level 1.
fn is_fast_held(tables: &DiskTables, own: Cost, read: u64, l: u32) -> bool
    requires l { (1 ≤ l) × (l ≤ tables.now.fast.steps) }
    requires read { read < 2 ^ 32 }
    ensures yes { result ≡ true → value_of own ≡ sum_of read (number 0) ((disk_tables_in tables.now).fresh l (slice_index tables.now.fast.rooms 0)) }
    ensures no { result ≡ false → value_of own ≢ sum_of read (number 0) ((disk_tables_in tables.now).fresh l (slice_index tables.now.fast.rooms 0)) }
{
    let fast = tables.fresh(l, tables.room());
    is_sum(own, read, Cost::Number(0), fast)
}

// Whether level 0 alone costs as much, where the first state is in work.
fn is_fast_fresh(tables: &DiskTables, own: Cost, l: u32) -> bool
    requires { (1 ≤ l) × (l ≤ tables.now.fast.steps) }
    ensures yes { result ≡ true → value_of own ≡ (disk_tables_in tables.now).fresh l (slice_index tables.now.fast.rooms 0) }
    ensures no { result ≡ false → value_of own ≢ (disk_tables_in tables.now).fresh l (slice_index tables.now.fast.rooms 0) }
{
    tables.fresh(l, tables.room()) == own
}

// Whether a split after j steps costs as much. Here n is the cost of the first state's image and of the way to the
// split.
fn is_fresh_split(tables: &DiskTables, own: Cost, n: u64, l: u32, j: u32) -> bool
    requires l { l ≤ tables.now.fast.steps }
    requires j { (1 ≤ j) × (j < l) }
    requires n { n ≤ 2 ^ 62 }
    ensures yes { result ≡ true → value_of own ≡ sum_of n ((disk_tables_in tables.now).disk_fresh (l - j)) ((disk_tables_in tables.now).disk_held j) }
    ensures no { result ≡ false → value_of own ≢ sum_of n ((disk_tables_in tables.now).disk_fresh (l - j)) ((disk_tables_in tables.now).disk_held j) }
{
    is_sum(own, n, tables.disk_fresh(l - j), tables.disk_held(j))
}

// Whether a split after i steps costs as much, where the first state is held on level 1. Here n is the cost of reading
// that state and of the way to the split.
fn is_held_split(tables: &DiskTables, own: Cost, n: u64, l: u32, i: u32) -> bool
    requires l { l ≤ tables.now.fast.steps }
    requires i { (1 ≤ i) × (i < l) }
    requires n { n ≤ 2 ^ 62 }
    ensures yes { result ≡ true → value_of own ≡ sum_of n ((disk_tables_in tables.now).fresh (l - i) (slice_index tables.now.fast.rooms 0)) ((disk_tables_in tables.now).disk_held i) }
    ensures no { result ≡ false → value_of own ≢ sum_of n ((disk_tables_in tables.now).fresh (l - i) (slice_index tables.now.fast.rooms 0)) ((disk_tables_in tables.now).disk_held i) }
{
    let fast = tables.fresh(l - i, tables.room());
    is_sum(own, n, fast, tables.disk_held(i))
}

// The fewest steps after which splitting costs so much, where the first state is held on level 1.
fn held_split(tables: &DiskTables, own: Cost, read: u64, forward: u64, l: u32) -> u32
    requires few { tables.now.fast.steps ≤ 8192 }
    requires l { (1 ≤ l) × (l ≤ tables.now.fast.steps) }
    requires read { read < 2 ^ 32 }
    requires forward { forward < 2 ^ 32 }
    requires some { (i : ℕ) × (1 ≤ i) × (i < l)
        × (value_of own ≡ sum_of (read + i * forward) ((disk_tables_in tables.now).fresh (l - i) (slice_index tables.now.fast.rooms 0))
        ((disk_tables_in tables.now).disk_held i)) }
    ensures range { (1 ≤ result) × (result < l) }
    ensures equal { value_of own ≡ sum_of (read + result * forward)
        ((disk_tables_in tables.now).fresh (l - result) (slice_index tables.now.fast.rooms 0)) ((disk_tables_in tables.now).disk_held result) }
    ensures least { (i : ℕ) → 1 ≤ i → i < result →
        value_of own ≢ sum_of (read + i * forward) ((disk_tables_in tables.now).fresh (l - i) (slice_index tables.now.fast.rooms 0))
        ((disk_tables_in tables.now).disk_held i) }
{
    for i in 1..l {
        if is_held_split(tables, own, read + i as u64 * forward, l, i) {
            return i;
        }
    }
    1
}

// The first split that costs as much, where the first state is in work.
fn fresh_split(tables: &DiskTables, own: Cost, write: u64, forward: u64, l: u32) -> u32
    requires few { tables.now.fast.steps ≤ 8192 }
    requires l { (1 ≤ l) × (l ≤ tables.now.fast.steps) }
    requires write { write < 2 ^ 32 }
    requires forward { forward < 2 ^ 32 }
    requires some { (j : ℕ) × (1 ≤ j) × (j < l)
        × (value_of own ≡ sum_of (write + j * forward) ((disk_tables_in tables.now).disk_fresh (l - j)) ((disk_tables_in tables.now).disk_held j)) }
    ensures range { (1 ≤ result) × (result < l) }
    ensures equal { value_of own ≡ sum_of (write + result * forward) ((disk_tables_in tables.now).disk_fresh (l - result))
        ((disk_tables_in tables.now).disk_held result) }
    ensures least { (j : ℕ) → 1 ≤ j → j < result →
        value_of own ≢ sum_of (write + j * forward) ((disk_tables_in tables.now).disk_fresh (l - j)) ((disk_tables_in tables.now).disk_held j) }
{
    for j in 1..l {
        if is_fresh_split(tables, own, write + j as u64 * forward, l, j) {
            return j;
        }
    }
    1
}

// A stretch of l steps from b, whose first state is held on level 1.
fn write_disk_held(
    list: &mut Vec<Action>,
    tables: &DiskTables,
    book: &Book,
    b: u32,
    l: u32,
) -> Result<(), AllocError>
    requires ready { CanReadDisk book.now tables.now }
    requires l { 1 ≤ l }
    requires end { b + l ≤ tables.now.fast.steps }
    ensures { IfOk result (λ _. IsHeldMore book.now tables.now b l list.old.items list.new.items) }
{
    let own = tables.disk_held(l);
    let read = book.level(1).read as u64;
    let whole = Stretch {
        level: 0,
        first: b,
        steps: l,
        free: tables.room(),
    };
    if is_fast_held(tables, own, read, l) {
        list.push(Action::Move {
            n: b,
            from: 1,
            dest: Dest::Work,
        })?;
        return write_fresh(list, tables.fast(), book, whole);
    }
    let i = held_split(tables, own, read, book.forward() as u64, l);
    list.extend_from_slice(&[
        Action::Copy {
            n: b,
            from: 1,
            dest: Dest::Work,
        },
        Action::Forward {
            from: b,
            to: b + i,
            keep: Keep::Nothing,
        },
    ])?;
    let later = Stretch {
        first: b + i,
        steps: l - i,
        ..whole
    };
    write_fresh(list, tables.fast(), book, later)?;
    write_disk_held(list, tables, book, b, i)
}

// Writes the actions of a stretch whose first state is in work.
fn write_disk_fresh(
    list: &mut Vec<Action>,
    tables: &DiskTables,
    book: &Book,
    b: u32,
    l: u32,
) -> Result<(), AllocError>
    requires ready { CanReadDisk book.now tables.now }
    requires l { 1 ≤ l }
    requires end { b + l ≤ tables.now.fast.steps }
    ensures { IfOk result (λ _. IsDiskMore book.now tables.now b l list.old.items list.new.items) }
{
    let own = tables.disk_fresh(l);
    if is_fast_fresh(tables, own, l) {
        let whole = Stretch {
            level: 0,
            first: b,
            steps: l,
            free: tables.room(),
        };
        return write_fresh(list, tables.fast(), book, whole);
    }
    let write = book.level(1).write as u64;
    let j = fresh_split(tables, own, write, book.forward() as u64, l);
    list.push(Action::Forward {
        from: b,
        to: b + j,
        keep: Keep::Store(1),
    })?;
    write_disk_fresh(list, tables, book, b + j, l - j)?;
    write_disk_held(list, tables, book, b, j)
}

// Tables of least costs over two levels, the slow one unlimited.
ghost use Rattle.std.specs.Prelude.{◌≡◌, ◌≢◌, ◌↔◌, ℕ, ◌+◌, ◌-◌, ◌<◌, ◌≤◌, ◌^◌, true, All, length, map, IfOk, IfErr, OnOk, slice_index};
ghost use Rattle.level_book.specs.Prelude.{number, IsGreatest};
ghost use Rattle.cost_tables.specs.Prelude.{entry, least_split, FastestTablesFit, tables_in, value_of, AreFor, IsOther};
ghost use Rattle.cost_tables.specs.TableRows.{fastest};
ghost use Rattle.disk_gen.specs.DiskPlans.{HasDiskPlan, IsDiskFault};
ghost use Rattle.disk_gen.specs.DiskRows.{AreDiskSized, AreGreatestDiskFor, AreAllNeverDisk, disk_tables_in, DiskRows};
ghost use Rattle.disk_gen.specs.DiskShapes.{AreDiskShaped, AreDiskShort};
ghost use Rattle.disk_gen.specs.DiskInvariant.{IsHeldColumn, IsFreshColumn, view_of, AreWholeDisk};

use cost_tables::{Cost, NEVER, Tables, are_short, costs_of};
use level_book::{Book, Slots};
use revolve_gen::{GenFault, Planned};
use std::alloc::{AllocError, Global};
use std::marker::Model;
use std::thread::Threads;

/// Tables of least costs, for a number of steps and a book of memory and an unlimited disk.
#[derive(Drop)]
pub struct DiskTables {
    fast: Tables,
    disk_fresh: Vec<Cost>,
    disk_held: Vec<Cost>,
}

impl DiskTables {
    /// Whether tables can be built: at most 8,192 steps, and at most 64 images on level 0. It takes no memory.
    pub fn fits(steps: u32, book: &Book) -> bool
        ensures { result ≡ true ↔ FastestTablesFit steps book.now }
    {
        Tables::fits_fastest(steps, book)
    }

    /// The greatest disk under-table, the same for every number of workers. There is none if the book hasn't two
    /// levels, or level 1 isn't unlimited.
    pub fn build(
        rt: &(impl Threads + Sync),
        alloc: Global,
        steps: u32,
        book: &Book,
        workers: u32,
    ) -> Planned<DiskTables>
        requires fits { FastestTablesFit steps book.now }
        requires workers { (1 ≤ workers) × (workers ≤ 64) }
        ensures tables { IfOk result (AreGreatestDiskFor steps book.now) }
        ensures plan { OnOk result (HasDiskPlan book.now) }
        ensures refused { IfErr result (IsDiskFault book.now) }
    {
        if book.levels() != 2 {
            return Err(GenFault::NoPlan(2));
        }
        if book.level(1).slots != Slots::Unlimited {
            return Err(GenFault::NoPlan(3));
        }
        let fast = Tables::build_fastest(rt, alloc, steps, book, workers)?;
        Ok(with_disk(alloc, fast, book)?)
    }

    /// Tables with every entry Never, to be filled entry by entry. The book may also be one without a greatest table,
    /// such as one of one level. Only a lack of memory refuses them.
    pub fn never(alloc: Global, steps: u32, book: &Book) -> Result<DiskTables, AllocError>
        requires { FastestTablesFit steps book.now }
        ensures sizes { IfOk result (AreDiskSized steps book.now) }
        ensures never { IfOk result (λ t. AreAllNeverDisk steps book.now (disk_tables_in t)) }
    {
        let _levels = book.levels();
        let fast = Tables::never_fastest(alloc, steps, book)?;
        let disk_fresh = never_costs(alloc, steps)?;
        let disk_held = never_costs(alloc, steps)?;
        Ok(DiskTables {
            fast,
            disk_fresh,
            disk_held,
        })
    }

    /// Tables of these parts: those of one level alone, and the entries over both levels, from one step on. It takes no
    /// memory.
    pub fn from_parts(fast: Tables, disk_fresh: Vec<Cost>, disk_held: Vec<Cost>) -> DiskTables
        requires one { length fast.rooms ≡ 1 }
        requires fresh { length disk_fresh.items ≡ fast.steps }
        requires held { length disk_held.items ≡ fast.steps }
        ensures { result ≡ record { fast = fast; disk_fresh = map value_of disk_fresh.items; disk_held = map value_of disk_held.items } }
    {
        DiskTables {
            fast,
            disk_fresh,
            disk_held,
        }
    }

    /// Does nothing. Its contract is a law: there is exactly one entry for each number of steps and free slots.
    pub fn is_shaped(&self)
        ensures { AreDiskShaped self.now }
    {
        self.fast.is_shaped();
    }

    /// Changes nothing. Its contract is a law: each entry is Never or a number of 64 bits.
    pub fn is_short(&self)
        ensures { AreDiskShort self.now }
    {
        self.fast.is_short();
        are_short(&self.disk_fresh);
        are_short(&self.disk_held);
    }

    /// Whether the tables fit so many steps and level 0 of a book. It takes no memory.
    pub fn sized(&self, steps: u32, book: &Book) -> bool
        ensures { result ≡ true ↔ AreDiskSized steps book.now self.now }
    {
        self.fast.sized_fastest(steps, book)
    }

    /// The entry of level 0 alone for l steps and m free slots. The first state is in work. It takes no memory.
    pub fn fresh(&self, l: u32, m: u32) -> Cost
        requires l { (1 ≤ l) × (l ≤ self.now.fast.steps) }
        requires m { m ≤ slice_index self.now.fast.rooms 0 }
        ensures { value_of result ≡ (disk_tables_in self.now).fresh l m }
    {
        self.fast.fresh(0, l, m)
    }

    /// The entry of level 0 alone for l steps and m free slots. The first state is held beside them. It takes no
    /// memory.
    pub fn held(&self, l: u32, m: u32) -> Cost
        requires l { (1 ≤ l) × (l ≤ self.now.fast.steps) }
        requires m { m < slice_index self.now.fast.rooms 0 }
        ensures { value_of result ≡ (disk_tables_in self.now).held l m }
    {
        self.fast.held(0, l, m)
    }

    /// The entry over both levels for a stretch of l steps with the first state in work. It takes no memory.
    pub fn disk_fresh(&self, l: u32) -> Cost
        requires { (1 ≤ l) × (l ≤ self.now.fast.steps) }
        ensures { value_of result ≡ (disk_tables_in self.now).disk_fresh l }
    {
        let row = l as usize - 1;
        self.disk_fresh[row]
    }

    /// The entry over both levels for l steps, with the first state held on level 1. It takes no memory.
    pub fn disk_held(&self, l: u32) -> Cost
        requires { (1 ≤ l) × (l ≤ self.now.fast.steps) }
        ensures { value_of result ≡ (disk_tables_in self.now).disk_held l }
    {
        let row = l as usize - 1;
        self.disk_held[row]
    }

    /// Sets the entry of level 0 alone for l steps and m free slots. The first state is in work. It takes no memory.
    pub fn set_fresh(&mut self, l: u32, m: u32, cost: Cost)
        requires l { (1 ≤ l) × (l ≤ self.old.fast.steps) }
        requires m { m ≤ slice_index self.old.fast.rooms 0 }
        ensures steps { self.new.fast.steps ≡ self.old.fast.steps }
        ensures rooms { self.new.fast.rooms ≡ self.old.fast.rooms }
        ensures entry { (disk_tables_in self.new).fresh l m ≡ value_of cost }
        ensures others { (j n : ℕ) → 1 ≤ j → IsOther 0 j n 0 l m → (disk_tables_in self.new).fresh j n ≡ (disk_tables_in self.old).fresh j n }
        ensures held { self.new.fast.held ≡ self.old.fast.held }
        ensures disk_fresh { self.new.disk_fresh ≡ self.old.disk_fresh }
        ensures disk_held { self.new.disk_held ≡ self.old.disk_held }
    {
        self.fast.set_fresh(0, l, m, cost);
    }

    /// Sets the entry of level 0 alone for l steps and m free slots. The first state is held beside them. It takes no
    /// memory.
    pub fn set_held(&mut self, l: u32, m: u32, cost: Cost)
        requires l { (1 ≤ l) × (l ≤ self.old.fast.steps) }
        requires m { m < slice_index self.old.fast.rooms 0 }
        ensures steps { self.new.fast.steps ≡ self.old.fast.steps }
        ensures rooms { self.new.fast.rooms ≡ self.old.fast.rooms }
        ensures entry { (disk_tables_in self.new).held l m ≡ value_of cost }
        ensures others { (j n : ℕ) → 1 ≤ j → IsOther 0 j n 0 l m → (disk_tables_in self.new).held j n ≡ (disk_tables_in self.old).held j n }
        ensures fresh { self.new.fast.fresh ≡ self.old.fast.fresh }
        ensures disk_fresh { self.new.disk_fresh ≡ self.old.disk_fresh }
        ensures disk_held { self.new.disk_held ≡ self.old.disk_held }
    {
        self.fast.set_held(0, l, m, cost);
    }

    /// Sets the entry over both levels for a stretch of l steps with the first state in work. It takes no memory.
    pub fn set_disk_fresh(&mut self, l: u32, cost: Cost)
        requires { (1 ≤ l) × (l ≤ self.old.fast.steps) }
        ensures fast { self.new.fast ≡ self.old.fast }
        ensures entry { (disk_tables_in self.new).disk_fresh l ≡ value_of cost }
        ensures others { (j : ℕ) → 1 ≤ j → j ≢ l → (disk_tables_in self.new).disk_fresh j ≡ (disk_tables_in self.old).disk_fresh j }
        ensures disk_held { self.new.disk_held ≡ self.old.disk_held }
    {
        self.disk_fresh[l as usize - 1] = cost;
    }

    /// Sets the entry over both levels for l steps, with the first state held on level 1. It takes no memory.
    pub fn set_disk_held(&mut self, l: u32, cost: Cost)
        requires { (1 ≤ l) × (l ≤ self.old.fast.steps) }
        ensures fast { self.new.fast ≡ self.old.fast }
        ensures entry { (disk_tables_in self.new).disk_held l ≡ value_of cost }
        ensures others { (j : ℕ) → 1 ≤ j → j ≢ l → (disk_tables_in self.new).disk_held j ≡ (disk_tables_in self.old).disk_held j }
        ensures disk_fresh { self.new.disk_fresh ≡ self.old.disk_fresh }
    {
        self.disk_held[l as usize - 1] = cost;
    }

    /// The number of steps of the tables.
    pub fn steps(&self) -> u32
        ensures { result ≡ self.now.fast.steps }
    {
        self.fast.steps()
    }

    /// The most free slots of level 0.
    pub fn room(&self) -> u32
        ensures { result ≡ slice_index self.now.fast.rooms 0 }
    {
        self.fast.room(0)
    }

    /// The tables of level 0 alone.
    pub fn fast(&self) -> &Tables
        ensures value { result.now ≡ self.now.fast }
        ensures one { length self.now.fast.rooms ≡ 1 }
    {
        &self.fast
    }
}

impl Model for DiskTables {
    ghost Value = { DiskRows };

    ghost view = { view_of };

    ghost invariant = { AreWholeDisk };
}

// So many entries, each of them Never.
fn never_costs(alloc: Global, count: u32) -> Result<Vec<Cost>, AllocError>
    ensures count { IfOk result (λ costs. length costs.items ≡ count) }
    ensures never { IfOk result (λ costs. All (λ cost. cost ≡ Cost.Never) costs.items) }
{
    let mut costs = Vec::with_capacity(alloc, count as usize)?;
    for _ in 0..count {
        costs.push(Cost::Never)?;
    }
    Ok(costs)
}

// Adds the entries over both levels to the tables of level 0, for a book that has a plan.
fn with_disk(alloc: Global, fast: Tables, book: &Book) -> Result<DiskTables, AllocError>
    requires fits { FastestTablesFit fast.steps book.now }
    requires sizes { AreFor fast.steps (fastest book.now) fast }
    requires greatest { IsGreatest fast.steps (fastest book.now) (tables_in fast) }
    requires plan { HasDiskPlan book.now }
    ensures { IfOk result (AreGreatestDiskFor fast.steps book.now) }
{
    book.is_within_limits();
    let column = fast_column(alloc, &fast)?;
    let forward = book.forward() as u64;
    let disk = book.level(1);
    let held = held_column(alloc, &column, forward, disk.read as u64)?;
    let fresh = fresh_column(alloc, &column, &held, forward, disk.write as u64)?;
    let disk_held = costs_of(alloc, &held)?;
    let disk_fresh = costs_of(alloc, &fresh)?;
    Ok(DiskTables {
        fast,
        disk_fresh,
        disk_held,
    })
}

// The cost of each stretch with level 0 alone and all its slots.
fn fast_column(alloc: Global, fast: &Tables) -> Result<Vec<u64>, AllocError>
    requires one { length fast.now.rooms ≡ 1 }
    requires low { (l v : ℕ) → 1 ≤ l → l ≤ fast.now.steps → (tables_in fast.now).fresh 0 l (slice_index fast.now.rooms 0) ≡ number v → v < 2 ^ 61 }
    ensures count { IfOk result (λ column. length column.items ≡ fast.now.steps) }
    ensures low { IfOk result (λ column. All (λ n. n ≤ 2 ^ 61) column.items) }
    ensures value { IfOk result (λ column. (r : ℕ) → r < fast.now.steps →
        entry (slice_index column.items r) ≡ (tables_in fast.now).fresh 0 (r + 1) (slice_index fast.now.rooms 0)) }
{
    let room = fast.room(0);
    let mut column = Vec::new(alloc);
    for r in 0..fast.steps() {
        column.push(number_of(fast.fresh(0, r + 1, room)))?;
    }
    Ok(column)
}

// The number in memory of an entry.
fn number_of(cost: Cost) -> u64
    requires { (v : ℕ) → cost ≡ Cost.Number v → v < 2 ^ 61 }
    ensures value { entry result ≡ value_of cost }
    ensures low { result ≤ 2 ^ 61 }
{
    match cost {
        Cost::Number(n) => n,
        Cost::Never => NEVER,
    }
}

// The least cost of the splits of row r, without that of the first image.
fn least_cost(fresh: &[u64], held: &[u64], r: usize, forward: u64) -> u64
    requires forward { forward < 2 ^ 32 }
    requires few { r < 8192 }
    requires rows { (r ≤ length fresh.now) × (r ≤ length held.now) }
    requires fresh { All (λ n. n ≤ 2 ^ 61) fresh.now }
    requires held { All (λ n. n ≤ 2 ^ 62) held.now }
    ensures { result ≡ least_split forward (slice_index fresh.now) (slice_index held.now) r r }
{
    let mut least = NEVER;
    for i in 0..r {
        let cost = (i as u64 + 1) * forward + fresh[r - (i + 1)] + held[i];
        if cost < least {
            least = cost;
        }
    }
    least
}

// The cost of each stretch whose first state is held on level 1.
fn held_column(alloc: Global, fast: &[u64], forward: u64, read: u64) -> Result<Vec<u64>, AllocError>
    requires forward { forward < 2 ^ 32 }
    requires read { read < 2 ^ 32 }
    requires few { length fast.now ≤ 8192 }
    requires fast { All (λ n. n ≤ 2 ^ 61) fast.now }
    ensures count { IfOk result (λ held. length held.items ≡ length fast.now) }
    ensures column { IfOk result (λ held. IsHeldColumn forward read fast.now held.items) }
{
    let mut held = Vec::with_capacity(alloc, fast.len())?;
    for r in 0..fast.len() {
        let split = least_cost(fast, &held, r, forward);
        held.push(read + fast[r].min(split))?;
    }
    Ok(held)
}

// The cost of each stretch whose first state is in work.
fn fresh_column(
    alloc: Global,
    fast: &[u64],
    held: &[u64],
    forward: u64,
    write: u64,
) -> Result<Vec<u64>, AllocError>
    requires forward { forward < 2 ^ 32 }
    requires write { write < 2 ^ 32 }
    requires few { length fast.now ≤ 8192 }
    requires fast { All (λ n. n ≤ 2 ^ 61) fast.now }
    requires held { All (λ n. n ≤ 2 ^ 62) held.now }
    requires count { length held.now ≡ length fast.now }
    ensures count { IfOk result (λ fresh. length fresh.items ≡ length fast.now) }
    ensures column { IfOk result (λ fresh. IsFreshColumn forward write fast.now held.now fresh.items) }
{
    let mut fresh = Vec::with_capacity(alloc, fast.len())?;
    for r in 0..fast.len() {
        let split = least_cost(&fresh, held, r, forward);
        fresh.push(fast[r].min(write + split))?;
    }
    Ok(fresh)
}

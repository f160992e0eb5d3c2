// Tables of least costs.
ghost use Rattle.std.specs.Prelude.{◌≡◌, ◌↔◌, ℕ, ◌+◌, ◌^◌, ◌<◌, ◌≤◌, true, length, All, IfOk, slice_index};
ghost use Rattle.level_book.specs.Prelude.{IsGreatest};
ghost use Rattle.cost_tables.specs.TableRows.{AreFor, AreGreatestFor, TablesFit, FastestTablesFit, fastest, tables_in, value_of, TableRows};
ghost use Rattle.cost_tables.specs.Shapes.{AreShaped, AreShort};
ghost use Rattle.cost_tables.specs.TableUpdates.{AreAllNever, IsOther};
ghost use Rattle.cost_tables.specs.Entries.{fresh_in};
ghost use Rattle.cost_tables.specs.Rows.{IsRow};
ghost use Rattle.cost_tables.specs.TableInvariant.{first_in, view_of, AreWhole};

use crate::cells::{Cells, levels_of, never_cells, short_levels};
use crate::cost::Cost;
use crate::costs::Costs;
use crate::rows::{NEVER, Row, level_rows};
use level_book::Book;
use plan_types::{Gate, NoGate};
use std::alloc::{AllocError, Global};
use std::marker::Model;
use std::thread::Threads;

// The most steps of the tables.
const MOST_STEPS: u32 = 2048;

const MOST_STEPS_OF_ONE: u32 = 8192;

const MOST_SLOTS: u32 = 64;

/// Tables of least costs, for a number of steps and the levels of a book.
#[derive(Drop)]
pub struct Tables {
    steps: u32,
    rooms: Vec<u32>,
    levels: Vec<Vec<Cells>>,
}

impl Tables {
    /// Whether tables can be built: at most 2,048 steps, and at most 64 images on a level. It takes no memory.
    pub fn fits(steps: u32, book: &Book) -> bool
        ensures { result ≡ true ↔ TablesFit steps book.now }
    {
        if steps > MOST_STEPS {
            return false;
        }
        for k in 0..book.levels() {
            if book.room(k, steps) > MOST_SLOTS {
                return false;
            }
        }
        true
    }

    /// The greatest under-table, the same for every number of workers. Only a lack of memory refuses it. If a thread
    /// can't be started, the caller does its work.
    pub fn build<R: Threads + Sync>(
        rt: &R,
        alloc: Global,
        steps: u32,
        book: &Book,
        workers: u32,
    ) -> Result<Tables, AllocError>
        requires fits { TablesFit steps book.now }
        requires workers { (1 ≤ workers) × (workers ≤ 64) }
        ensures { IfOk result (AreGreatestFor steps book.now) }
    {
        Tables::build_with(rt, alloc, steps, book, workers, &NoGate)
    }

    /// The tables that `build` gives, where each worker passes a gate before it fills a piece. A row has min(workers,
    /// the level's room) pieces.
    pub fn build_with<R: Threads + Sync, G: Gate + Sync>(
        rt: &R,
        alloc: Global,
        steps: u32,
        book: &Book,
        workers: u32,
        gate: &G,
    ) -> Result<Tables, AllocError>
        requires fits { TablesFit steps book.now }
        requires workers { (1 ≤ workers) × (workers ≤ 64) }
        ensures { IfOk result (AreGreatestFor steps book.now) }
    {
        let mut base = first_base(alloc, steps, book.forward() as u64 + book.reverse() as u64)?;
        let mut levels = Vec::new(alloc);
        let mut rooms = Vec::new(alloc);
        for k in 0..book.levels() {
            let room = book.room(k, steps);
            let rows = level_rows(
                rt,
                alloc,
                gate,
                workers as usize,
                &base,
                room as usize,
                Costs::of(book, k),
            )?;
            base = column(alloc, &rows, room as usize)?;
            levels.push(rows)?;
            rooms.push(room)?;
        }
        let levels = levels_of(alloc, &levels)?;
        Ok(Tables {
            steps,
            rooms,
            levels,
        })
    }

    /// Whether tables of the fastest level can be built: at most 8,192 steps, and at most 64 images. It takes no
    /// memory.
    pub fn fits_fastest(steps: u32, book: &Book) -> bool
        ensures { result ≡ true ↔ FastestTablesFit steps book.now }
    {
        let _levels = book.levels();
        steps <= MOST_STEPS_OF_ONE && book.room(0, steps) <= MOST_SLOTS
    }

    /// The greatest under-table of the fastest level alone, as if the book had no other. Any number of workers gives
    /// the same. Only a lack of memory refuses it.
    pub fn build_fastest<R: Threads + Sync>(
        rt: &R,
        alloc: Global,
        steps: u32,
        book: &Book,
        workers: u32,
    ) -> Result<Tables, AllocError>
        requires fits { FastestTablesFit steps book.now }
        requires workers { (1 ≤ workers) × (workers ≤ 64) }
        ensures sizes { IfOk result (AreFor steps (fastest book.now)) }
        ensures greatest { IfOk result (λ t. IsGreatest steps (fastest book.now) (tables_in t)) }
    {
        let _levels = book.levels();
        let room = book.room(0, steps);
        let costs = Costs::of(book, 0);
        let base = first_base(alloc, steps, costs.forward + costs.reverse)?;
        let rows = level_rows(
            rt,
            alloc,
            &NoGate,
            workers as usize,
            &base,
            room as usize,
            costs,
        )?;
        let mut levels = Vec::new(alloc);
        levels.push(rows)?;
        let mut rooms = Vec::new(alloc);
        rooms.push(room)?;
        let levels = levels_of(alloc, &levels)?;
        Ok(Tables {
            steps,
            rooms,
            levels,
        })
    }

    /// Tables with every entry Never, to be filled by `set_fresh` and `set_held`. Only a lack of memory refuses them.
    pub fn never(alloc: Global, steps: u32, book: &Book) -> Result<Tables, AllocError>
        requires { TablesFit steps book.now }
        ensures sizes { IfOk result (AreFor steps book.now) }
        ensures never { IfOk result (λ t. AreAllNever steps book.now (tables_in t)) }
    {
        let mut levels = Vec::new(alloc);
        let mut rooms = Vec::new(alloc);
        for k in 0..book.levels() {
            let room = book.room(k, steps);
            levels.push(never_cells(alloc, steps, room)?)?;
            rooms.push(room)?;
        }
        Ok(Tables {
            steps,
            rooms,
            levels,
        })
    }

    /// Tables of the fastest level alone, as if the book had no other, with every entry Never. Only a lack of memory
    /// refuses them.
    pub fn never_fastest(alloc: Global, steps: u32, book: &Book) -> Result<Tables, AllocError>
        requires { FastestTablesFit steps book.now }
        ensures sizes { IfOk result (AreFor steps (fastest book.now)) }
        ensures never { IfOk result (λ t. AreAllNever steps (fastest book.now) (tables_in t)) }
    {
        let _levels = book.levels();
        let room = book.room(0, steps);
        let mut levels = Vec::new(alloc);
        levels.push(never_cells(alloc, steps, room)?)?;
        let mut rooms = Vec::new(alloc);
        rooms.push(room)?;
        Ok(Tables {
            steps,
            rooms,
            levels,
        })
    }

    /// Whether the tables fit so many steps and the levels of a book. It takes no memory.
    pub fn sized(&self, steps: u32, book: &Book) -> bool
        ensures { result ≡ true ↔ AreFor steps book.now self.now }
    {
        if self.steps != steps || self.rooms.len() != book.levels() as usize {
            return false;
        }
        for k in 0..book.levels() {
            if self.rooms[k as usize] != book.room(k, steps) {
                return false;
            }
        }
        true
    }

    /// Whether they fit so many steps and the fastest level of a book alone. It takes no memory.
    pub fn sized_fastest(&self, steps: u32, book: &Book) -> bool
        ensures { result ≡ true ↔ AreFor steps (fastest book.now) self.now }
    {
        let _levels = book.levels();
        self.steps == steps && self.rooms.len() == 1 && self.rooms[0] == book.room(0, steps)
    }

    /// The entry of level k for l steps and m free slots, with the first state in work. It takes no memory.
    pub fn fresh(&self, k: u8, l: u32, m: u32) -> Cost
        requires k { k < length self.now.rooms }
        requires l { (1 ≤ l) × (l ≤ self.now.steps) }
        requires m { m ≤ slice_index self.now.rooms k }
        ensures { value_of result ≡ (tables_in self.now).fresh k l m }
    {
        self.levels[k as usize][l as usize - 1].fresh[m as usize]
    }

    /// The entry of level k for l steps and m free slots, with the first state held beside them. It takes no memory.
    pub fn held(&self, k: u8, l: u32, m: u32) -> Cost
        requires k { k < length self.now.rooms }
        requires l { (1 ≤ l) × (l ≤ self.now.steps) }
        requires m { m < slice_index self.now.rooms k }
        ensures { value_of result ≡ (tables_in self.now).held k l m }
    {
        self.levels[k as usize][l as usize - 1].held[m as usize]
    }

    /// Sets the entry of level k for l steps and m free slots, with the first state in work. It takes no memory.
    pub fn set_fresh(&mut self, k: u8, l: u32, m: u32, cost: Cost)
        requires k { k < length self.old.rooms }
        requires l { (1 ≤ l) × (l ≤ self.old.steps) }
        requires m { m ≤ slice_index self.old.rooms k }
        ensures steps { self.new.steps ≡ self.old.steps }
        ensures rooms { self.new.rooms ≡ self.old.rooms }
        ensures entry { (tables_in self.new).fresh k l m ≡ value_of cost }
        ensures others { (i j n : ℕ) → 1 ≤ j → IsOther i j n k l m → (tables_in self.new).fresh i j n ≡ (tables_in self.old).fresh i j n }
        ensures held { self.new.held ≡ self.old.held }
    {
        self.levels[k as usize][l as usize - 1].fresh[m as usize] = cost;
    }

    /// Sets the entry of level k for l steps and m free slots. The first state is held beside them. It takes no memory.
    pub fn set_held(&mut self, k: u8, l: u32, m: u32, cost: Cost)
        requires k { k < length self.old.rooms }
        requires l { (1 ≤ l) × (l ≤ self.old.steps) }
        requires m { m < slice_index self.old.rooms k }
        ensures steps { self.new.steps ≡ self.old.steps }
        ensures rooms { self.new.rooms ≡ self.old.rooms }
        ensures entry { (tables_in self.new).held k l m ≡ value_of cost }
        ensures others { (i j n : ℕ) → 1 ≤ j → IsOther i j n k l m → (tables_in self.new).held i j n ≡ (tables_in self.old).held i j n }
        ensures fresh { self.new.fresh ≡ self.old.fresh }
    {
        self.levels[k as usize][l as usize - 1].held[m as usize] = cost;
    }

    /// Does nothing. Its contract is a law: there is exactly one entry for each number of steps and free slots.
    pub fn is_shaped(&self)
        ensures { AreShaped self.now }
    {
        let _steps = self.steps;
    }

    /// Changes nothing. Its contract is a law: each entry is Never or a number of 64 bits.
    pub fn is_short(&self)
        ensures { AreShort self.now }
    {
        short_levels(&self.levels);
    }

    /// The number of levels.
    pub fn levels(&self) -> u8
        ensures value { result ≡ length self.now.rooms }
        ensures range { (1 ≤ result) × (result ≤ 4) }
    {
        self.rooms.len() as u8
    }

    /// The most free slots of a level.
    pub fn room(&self, k: u8) -> u32
        requires { k < length self.now.rooms }
        ensures { result ≡ slice_index self.now.rooms k }
    {
        self.rooms[k as usize]
    }

    /// The number of steps of the tables.
    pub fn steps(&self) -> u32
        ensures { result ≡ self.now.steps }
    {
        self.steps
    }
}

impl Model for Tables {
    ghost Value = { TableRows };

    ghost view = { view_of };

    ghost invariant = { AreWhole };
}

// The costs of stretches without an image: one step alone.
fn first_base(alloc: Global, steps: u32, one: u64) -> Result<Vec<u64>, AllocError>
    requires { one ≤ 2 ^ 61 }
    ensures count { IfOk result (λ base. length base.items ≡ steps) }
    ensures low { IfOk result (λ base. All (λ n. n ≤ 2 ^ 61) base.items) }
    ensures value { IfOk result (λ base. (r : ℕ) → r < steps → slice_index base.items r ≡ first_in one r) }
{
    let mut base = Vec::new(alloc);
    for r in 0..steps {
        base.push(if r == 0 { one } else { NEVER })?;
    }
    Ok(base)
}

// The entries of a level with all its slots, with the first state in work.
fn column(alloc: Global, rows: &[Row], room: usize) -> Result<Vec<u64>, AllocError>
    requires { All (IsRow room) rows.now }
    ensures count { IfOk result (λ column. length column.items ≡ length rows.now) }
    ensures low { IfOk result (λ column. All (λ n. n ≤ 2 ^ 61) column.items) }
    ensures value { IfOk result (λ column. (r : ℕ) → r < length rows.now → slice_index column.items r ≡ fresh_in rows.now r room) }
{
    let mut column = Vec::new(alloc);
    for row in rows {
        column.push(row.fresh[room])?;
    }
    Ok(column)
}

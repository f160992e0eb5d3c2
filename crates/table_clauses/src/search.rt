// The clauses of one entry, and of the entries of one column.
ghost use Rattle.std.specs.Prelude.{◌≡◌, ◌↔◌, ℕ, ◌+◌, ◌≤◌, true, IfSome, length};
ghost use Rattle.level_book.specs.Prelude.{number};
ghost use Rattle.cost_tables.specs.Prelude.{AreCheap, value_of};
ghost use Rattle.table_clauses.specs.ClauseFailures.{IsAbove};
ghost use Rattle.table_clauses.specs.Splits.{at_step, AreBelowSplits};
ghost use Rattle.table_clauses.specs.Columns.{FasterFails, MovedFails, BeforeSplitFails, StoredFails, FreshColumnFails, HeldColumnFails, IsFreshReached, IsHeldReached, IsFirstClause, Finds, InColumn};
ghost use Rattle.table_clauses.specs.ShorterColumns.{fresh_shorter, held_shorter};

use crate::compare::{is_at_most, is_within};
use crate::entry::Entry;
use crate::splits::{Splits, breaks_split};
use cost_tables::{Cost, Costs};

// The columns of tables F and H for a level and a number of free slots.
#[derive(Drop)]
pub(crate) struct Pair {
    pub fresh: Vec<Cost>,
    pub held: Vec<Cost>,
}

// The columns that the clauses of table F mention. They are its own, the faster level's with all its slots, and its
// level's with a free slot less.
#[derive(Drop)]
pub(crate) struct FreshColumns {
    pub own: Vec<Cost>,
    pub faster: Option<Vec<Cost>>,
    pub before: Option<Pair>,
}

// The columns that the clauses of table H mention. They are those of its level and free slots, and that of the faster
// level with all its slots.
#[derive(Drop)]
pub(crate) struct HeldColumns {
    pub faster: Option<Vec<Cost>>,
    pub here: Pair,
}

// Whether the entry of one step is above a number.
pub(crate) fn breaks_one(own: Cost, l: u32, most: u64) -> bool
    ensures { result ≡ true ↔ (l ≡ 1) × IsAbove (value_of own) (number most) }
{
    if l != 1 {
        return false;
    }
    !is_within(own, Cost::Number(most))
}

// Whether an entry is above that of the faster level.
fn breaks_faster(own: Cost, faster: &Option<Vec<Cost>>, l: u32) -> bool
    requires l { 1 ≤ l }
    requires long { IfSome faster.now (λ column. l ≤ length column.items) }
    ensures { result ≡ true ↔ FasterFails (value_of own) faster.now l }
{
    match faster {
        Some(column) => !is_within(own, column[l as usize - 1]),
        None => false,
    }
}

// Whether an entry is above what it costs to read the first state and use the faster levels.
fn breaks_moved(own: Cost, read: u64, faster: &Option<Vec<Cost>>, l: u32) -> bool
    requires l { 1 ≤ l }
    requires long { IfSome faster.now (λ column. l ≤ length column.items) }
    ensures { result ≡ true ↔ MovedFails (value_of own) read faster.now l }
{
    match faster {
        Some(column) => !is_at_most(own, read, Cost::Number(0), column[l as usize - 1]),
        None => false,
    }
}

// Whether an entry is above what it costs to store the first state and split the stretch.
fn breaks_before(own: Cost, costs: Costs, before: &Option<Pair>, least: &[u64], l: u32) -> bool
    requires l { (1 ≤ l) × (l ≤ 8192) }
    requires cheap { AreCheap costs }
    requires long { IfSome before.now (λ pair. (l ≤ length pair.fresh.items) × (l ≤ length pair.held.items)) }
    requires enough { IfSome before.now (λ _. l ≤ length least.now) }
    requires below { IfSome before.now (λ pair. AreBelowSplits costs.forward (at_step pair.fresh.items) (at_step pair.held.items) least.now) }
    ensures { result ≡ true ↔ BeforeSplitFails (value_of own) costs before.now l }
{
    match before {
        Some(pair) => {
            let splits = Splits::new(costs.write, costs.forward, &pair.fresh, &pair.held);
            breaks_split(own, &splits, least[l as usize - 1], l)
        }
        None => false,
    }
}

// Whether an entry is above what it costs to store the first state, where the stretch isn't split.
fn breaks_stored(own: Cost, write: u64, before: &Option<Pair>, l: u32) -> bool
    requires l { 1 ≤ l }
    requires long { IfSome before.now (λ pair. l ≤ length pair.held.items) }
    ensures { result ≡ true ↔ StoredFails (value_of own) write before.now l }
{
    match before {
        Some(pair) => {
            let held = pair.held[l as usize - 1];
            !is_at_most(own, write, Cost::Number(0), held)
        }
        None => false,
    }
}

// A column of a table, with what its clauses compare the entries with.
pub(crate) trait Column {
    // The clause fails at the entry for so many steps.
    ghost fails: { Self → ℕ → ℕ → Type 0 };

    // The clauses can be looked at for up to so many steps.
    ghost reaches: { Self → ℕ → Type 0 };

    // The first clause that fails at the entry for l steps.
    fn first_clause(&self, l: u32) -> Option<u8>
        requires l { 1 ≤ l }
        requires reaches { reaches self.now l }
        ensures { IsFirstClause (fails self.now l) result };

    // They can then be looked at for fewer steps.
    ghost shorter: { (column : Self) (l steps : ℕ) → l ≤ steps → reaches column steps → reaches column l };
}

// Columns, what their level costs, and lower bounds of splits. For table F they are the splits with a free slot less.
#[derive(Clone, Copy)]
pub(crate) struct Compared<'a, T> {
    pub columns: &'a T,
    pub costs: Costs,
    pub least: &'a [u64],
}

// The column of table F.
impl<'a> Column for Compared<'a, FreshColumns> {
    ghost fails = { λ column. FreshColumnFails column.costs column.columns.now };

    ghost reaches = { IsFreshReached };

    ghost shorter = { fresh_shorter };

    fn first_clause(&self, l: u32) -> Option<u8> {
        let columns = self.columns;
        let costs = self.costs;
        let own = columns.own[l as usize - 1];
        if breaks_one(own, l, costs.forward + costs.reverse) {
            return Some(1);
        }
        if breaks_faster(own, &columns.faster, l) {
            return Some(2);
        }
        if breaks_before(own, costs, &columns.before, self.least, l) {
            return Some(3);
        }
        if breaks_stored(own, costs.write, &columns.before, l) {
            return Some(4);
        }
        None
    }
}

// The column of table H.
impl<'a> Column for Compared<'a, HeldColumns> {
    ghost fails = { λ column. HeldColumnFails column.costs column.columns.now };

    ghost reaches = { IsHeldReached };

    ghost shorter = { held_shorter };

    fn first_clause(&self, l: u32) -> Option<u8> {
        let here = &self.columns.here;
        let costs = self.costs;
        let own = here.held[l as usize - 1];
        if breaks_one(own, l, costs.read + costs.forward + costs.reverse) {
            return Some(5);
        }
        if breaks_moved(own, costs.read, &self.columns.faster, l) {
            return Some(6);
        }
        let splits = Splits::new(costs.read, costs.forward, &here.fresh, &here.held);
        if breaks_split(own, &splits, self.least[l as usize - 1], l) {
            return Some(7);
        }
        None
    }
}

// The first place in a column of this table, level and number of free slots.
pub(crate) fn first_in_column<C: Column>(
    column: &C,
    table: u8,
    level: u8,
    free: u32,
    steps: u32,
) -> Option<Entry>
    requires { C.reaches column.now steps }
    ensures { Finds (InColumn table level free steps (C.fails column.now)) result }
{
    for r in 0..steps {
        if let Some(clause) = column.first_clause(r + 1) {
            return Some(Entry {
                table,
                level,
                free,
                steps: r + 1,
                clause,
            });
        }
    }
    None
}

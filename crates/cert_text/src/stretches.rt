// The entries of tables, by the first state of their stretches.
ghost use Rattle.std.specs.Prelude.{◌≡◌, ◌<◌, ◌≤◌, length, slice_index_or};
ghost use Rattle.cost_tables.specs.Prelude.{value_of};
ghost use Rattle.cert_text.specs.Stretches.{letter_of, column_of, rows_of, entries_of, disk_entries_of};
ghost use Rattle.cert_text.specs.Rows.{Keeps};

use cost_tables::{Cost, Tables};
use disk_gen::DiskTables;

// Which stretches entries are for.
#[derive(Clone, Copy)]
pub(crate) enum Stretches {
    // Those whose first state is in work.
    Fresh,
    // Those whose first state is held on the level, which is level 1 for the entries over both levels.
    Held,
}

impl Stretches {
    // The word that begins the line of the entries over both levels.
    pub(crate) fn letters(self) -> &'static [u8]
        ensures value { result.now ≡ column_of self }
        ensures short { length result.now ≤ 20 }
    {
        match self {
            Stretches::Fresh => b"Fd",
            Stretches::Held => b"Hd",
        }
    }

    // The word that begins a line of a level's entries, which is the first letter of that.
    pub(crate) fn letter(self) -> &'static [u8]
        ensures value { result.now ≡ letter_of self }
        ensures short { length result.now ≤ 20 }
    {
        &self.letters()[..1]
    }

    // How many lines level k has.
    pub(crate) fn rows(self, tables: &Tables, k: u8) -> u32
        requires k { k < length tables.now.rooms }
        requires narrow { slice_index_or tables.now.rooms k 0 ≤ 64 }
        ensures { result ≡ rows_of self tables.now k }
    {
        match self {
            Stretches::Fresh => tables.room(k) + 1,
            Stretches::Held => tables.room(k),
        }
    }

    // The entry of level k for l steps and m free slots.
    pub(crate) fn entry(self, tables: &Tables, k: u8, l: u32, m: u32) -> Cost
        requires k { k < length tables.now.rooms }
        requires l { (1 ≤ l) × (l ≤ tables.now.steps) }
        requires m { m < rows_of self tables.now k }
        ensures { value_of result ≡ entries_of self tables.now k m l }
    {
        match self {
            Stretches::Fresh => tables.fresh(k, l, m),
            Stretches::Held => tables.held(k, l, m),
        }
    }

    // Sets that entry.
    pub(crate) fn set(self, tables: &mut Tables, k: u8, l: u32, m: u32, cost: Cost)
        requires k { k < length tables.old.rooms }
        requires l { (1 ≤ l) × (l ≤ tables.old.steps) }
        requires m { m < rows_of self tables.old k }
        ensures keeps { Keeps self (λ i j n. (i ≡ k) × (j ≡ l) × (n ≡ m)) tables.old tables.new }
        ensures entry { entries_of self tables.new k m l ≡ value_of cost }
    {
        match self {
            Stretches::Fresh => tables.set_fresh(k, l, m, cost),
            Stretches::Held => tables.set_held(k, l, m, cost),
        }
    }

    // The entry over both levels for l steps.
    pub(crate) fn disk_entry(self, tables: &DiskTables, l: u32) -> Cost
        requires { (1 ≤ l) × (l ≤ tables.now.fast.steps) }
        ensures { value_of result ≡ disk_entries_of self tables.now l }
    {
        match self {
            Stretches::Fresh => tables.disk_fresh(l),
            Stretches::Held => tables.disk_held(l),
        }
    }
}

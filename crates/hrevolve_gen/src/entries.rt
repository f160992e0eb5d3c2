// Which right side an entry of the tables is.
ghost use Rattle.std.specs.Prelude.{◌≡◌, ◌≢◌, ◌↔◌, ℕ, suc, ◌+◌, ◌-◌, ◌*◌, ◌^◌, ◌<◌, ◌≤◌, true, false, length, slice_index};
ghost use Rattle.level_book.specs.Prelude.{number, sum_of};
ghost use Rattle.cost_tables.specs.Prelude.{tables_in, value_of};
ghost use Rattle.hrevolve_gen.specs.ReadableTables.{split_cost};

use cost_tables::{Cost, Tables};

/// Whether an entry is the sum of a number and two entries. All values are allowed, even if the sum overflows a number.
pub fn is_sum(own: Cost, n: u64, a: Cost, b: Cost) -> bool
    ensures { result ≡ true ↔ value_of own ≡ sum_of n (value_of a) (value_of b) }
{
    match a {
        Cost::Number(x) => match b {
            Cost::Number(y) => match own {
                Cost::Number(v) => v as u128 == n as u128 + x as u128 + y as u128,
                Cost::Never => false,
            },
            Cost::Never => own == Cost::Never,
        },
        Cost::Never => own == Cost::Never,
    }
}

// Whether the stretch costs as much without level k, with its first state in work.
pub(crate) fn is_faster_fresh(tables: &Tables, own: Cost, k: u8, l: u32) -> bool
    requires k { k < length tables.now.rooms }
    requires l { (2 ≤ l) × (l ≤ tables.now.steps) }
    ensures yes { result ≡ true → (1 ≤ k) × (value_of own ≡ (tables_in tables.now).fresh (k - 1) l (slice_index tables.now.rooms (k - 1))) }
    ensures no { result ≡ false → (j : ℕ) → suc j ≡ k → value_of own ≢ (tables_in tables.now).fresh j l (slice_index tables.now.rooms j) }
{
    if k == 0 {
        return false;
    }
    tables.fresh(k - 1, l, tables.room(k - 1)) == own
}

// Whether the stretch costs as much without level k, with its first state held there.
pub(crate) fn is_faster_held(tables: &Tables, own: Cost, read: u64, k: u8, l: u32) -> bool
    requires k { k < length tables.now.rooms }
    requires l { (2 ≤ l) × (l ≤ tables.now.steps) }
    requires read { read < 2 ^ 32 }
    ensures yes { result ≡ true → (1 ≤ k)
        × (value_of own ≡ sum_of read (number 0) ((tables_in tables.now).fresh (k - 1) l (slice_index tables.now.rooms (k - 1)))) }
    ensures no { result ≡ false → (j : ℕ) → suc j ≡ k →
        value_of own ≢ sum_of read (number 0) ((tables_in tables.now).fresh j l (slice_index tables.now.rooms j)) }
{
    if k == 0 {
        return false;
    }
    let faster = tables.fresh(k - 1, l, tables.room(k - 1));
    is_sum(own, read, Cost::Number(0), faster)
}

// The fewest steps after which a split costs so much.
pub(crate) fn split(tables: &Tables, own: Cost, n: u64, forward: u64, k: u8, l: u32, m: u32) -> u32
    requires few { tables.now.steps ≤ 8192 }
    requires k { k < length tables.now.rooms }
    requires l { (2 ≤ l) × (l ≤ tables.now.steps) }
    requires m { m < slice_index tables.now.rooms k }
    requires n { n < 2 ^ 32 }
    requires forward { forward < 2 ^ 32 }
    requires some { (j : ℕ) × (1 ≤ j) × (j < l) × (value_of own ≡ split_cost (tables_in tables.now) n forward k l m j) }
    ensures range { (1 ≤ result) × (result < l) }
    ensures equal { value_of own ≡ split_cost (tables_in tables.now) n forward k l m result }
    ensures least { (j : ℕ) → 1 ≤ j → j < result → value_of own ≢ split_cost (tables_in tables.now) n forward k l m j }
{
    for j in 1..l {
        let fresh = tables.fresh(k, l - j, m);
        let held = tables.held(k, j, m);
        if is_sum(own, n + j as u64 * forward, fresh, held) {
            return j;
        }
    }
    1
}

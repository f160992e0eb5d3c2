// Exact comparisons of entries.
ghost use Rattle.std.specs.Prelude.{◌≡◌, ◌↔◌, true};
ghost use Rattle.level_book.specs.Prelude.{number, IsAtMost, sum_of};
ghost use Rattle.cost_tables.specs.Prelude.{value_of};

use cost_tables::Cost;

// Whether an entry is at most another.
pub(crate) fn is_within(own: Cost, limit: Cost) -> bool
    ensures { result ≡ true ↔ IsAtMost (value_of own) (value_of limit) }
{
    match limit {
        Cost::Number(most) => match own {
            Cost::Number(own) => own <= most,
            Cost::Never => false,
        },
        Cost::Never => true,
    }
}

// Whether an entry is at most the sum of a number and two entries.
pub(crate) fn is_at_most(own: Cost, n: u64, a: Cost, b: Cost) -> bool
    ensures { result ≡ true ↔ IsAtMost (value_of own) (sum_of n (value_of a) (value_of b)) }
{
    match a {
        Cost::Number(a) => match b {
            Cost::Number(b) => is_at_most_number(own, n as u128 + a as u128 + b as u128),
            Cost::Never => true,
        },
        Cost::Never => true,
    }
}

// Whether an entry is at most a number.
fn is_at_most_number(own: Cost, most: u128) -> bool
    ensures { result ≡ true ↔ IsAtMost (value_of own) (number most) }
{
    match own {
        Cost::Number(own) => own as u128 <= most,
        Cost::Never => false,
    }
}

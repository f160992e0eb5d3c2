// Laws over tables. Each function does nothing; its contract is the law.
ghost use Rattle.std.specs.Prelude.{ℕ};
ghost use Rattle.level_book.specs.Prelude.{BookCosts, Tables};
ghost use Rattle.cost_tables.specs.Laws.{GreatestIsExact, GreatestExist};

/// In the greatest under-table for at most 8,192 steps and a book's costs each entry is attained.
pub fn greatest_is_exact()
    ensures { (steps : ℕ) (book : BookCosts) (t : Tables) → GreatestIsExact steps book t }
{}

/// For at most 8,192 steps and a book's costs there are greatest tables.
pub fn greatest_tables_exist()
    ensures { (steps : ℕ) (book : BookCosts) → GreatestExist steps book }
{}

// Laws of the table of instructions. Each function does nothing; its contract is the law.
ghost use Rattle.std.specs.Prelude.{ℕ, ◌≤◌, count_by};
ghost use Rattle.rv_decode.specs.Rows.{rows};

/// No two rows of the table match one word.
pub fn rows_are_apart()
    ensures { (word : ℕ) → count_by (λ row. row.takes word) rows ≤ 1 }
{}

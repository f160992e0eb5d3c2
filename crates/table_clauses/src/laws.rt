// Laws over tables. Each function does nothing; its contract is the law.
ghost use Rattle.std.specs.Prelude.{ℕ};
ghost use Rattle.level_book.specs.Prelude.{BookCosts, Tables, DiskTables};
ghost use Rattle.table_clauses.specs.Laws.{UnderWhereNoneFails, DiskUnderWhereNoneFails, UnderOrFirst, DiskUnderOrFirst};

/// Tables are an under-table exactly where no clause fails at any place.
pub fn under_where_none_fails()
    ensures { (steps : ℕ) (book : BookCosts) (t : Tables) → UnderWhereNoneFails steps book t }
{}

/// Disk tables are a disk under-table exactly where no clause fails at any place.
pub fn disk_under_where_none_fails()
    ensures { (steps : ℕ) (book : BookCosts) (t : DiskTables) → DiskUnderWhereNoneFails steps book t }
{}

/// Tables are an under-table, or a clause fails at a first place.
pub fn under_or_first_failure()
    ensures { (steps : ℕ) (book : BookCosts) (t : Tables) → UnderOrFirst steps book t }
{}

/// Disk tables are a disk under-table, or a clause fails at a first place.
pub fn disk_under_or_first_failure()
    ensures { (steps : ℕ) (book : BookCosts) (t : DiskTables) → DiskUnderOrFirst steps book t }
{}

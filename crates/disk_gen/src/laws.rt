// Laws over the lists. Each function does nothing; its contract is the law.
ghost use Rattle.std.specs.Prelude.{ℕ, List};
ghost use Rattle.plan_types.specs.declared.action.Action.{Action};
ghost use Rattle.level_book.specs.Prelude.{BookCosts, DiskTables};
ghost use Rattle.disk_gen.specs.Laws.{StretchesAreLeast, PeriodicIsValid, PeriodicIsCounted, DiskPlanIsUnique, GreatestDiskExist, DiskListExists, DiskListEndsForward};

/// The number of stretches is the least whole n with steps ≤ n · period.
pub fn stretches_are_least()
    ensures { (steps period : ℕ) → StretchesAreLeast steps period }
{}

/// Where there is a plan, the list is valid for its book.
pub fn periodic_is_valid()
    ensures { (steps period : ℕ) (book : BookCosts) → PeriodicIsValid steps period book }
{}

/// Where there is a plan and a step, the list has four actions for each step.
pub fn periodic_is_counted()
    ensures { (steps period : ℕ) (book : BookCosts) → PeriodicIsCounted steps period book }
{}

/// All disk tables of the greatest entries give at most one list.
pub fn disk_plans_are_unique()
    ensures { (steps : ℕ) (book : BookCosts) (s t : DiskTables) (list other : List Action) → DiskPlanIsUnique steps book s t list other }
{}

/// Where there is a plan, at most 8,192 steps and a book's costs have greatest disk tables.
pub fn greatest_disk_tables_exist()
    ensures { (steps : ℕ) (book : BookCosts) → GreatestDiskExist steps book }
{}

/// Disk tables whose entries are attained, like the greatest ones, give a list.
pub fn disk_lists_exist()
    ensures { (steps : ℕ) (book : BookCosts) (t : DiskTables) → DiskListExists steps book t }
{}

/// In a list that is read, EndForward comes directly after the first Forward with Tape.
pub fn disk_lists_end_forward_at_the_first_tape()
    ensures { (steps : ℕ) (book : BookCosts) (t : DiskTables) (list : List Action) → DiskListEndsForward steps book t list }
{}

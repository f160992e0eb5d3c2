// Laws over the classes of lists and their tables. Each function does nothing; its contract is the law.
ghost use Rattle.std.specs.Prelude.{ℕ, List};
ghost use Rattle.plan_types.specs.declared.action.Action.{Action};
ghost use Rattle.level_book.specs.Prelude.{BookCosts, Tables, DiskTables};
ghost use Rattle.class_bounds.specs.Laws.{NestedCostsAtLeast, LeastOfTheNested, DiskCostsAtLeast, LeastOfTheDisk};

/// A nested list costs at least the top entry of every under-table.
pub fn nested_lists_cost_at_least()
    ensures { (steps : ℕ) (book : BookCosts) (t : Tables) (list : List Action) → NestedCostsAtLeast steps book t list }
{}

/// If a list costs the top entry of an under-table, no nested list costs less.
pub fn least_of_the_nested()
    ensures { (steps : ℕ) (book : BookCosts) (t : Tables) (list other : List Action) → LeastOfTheNested steps book t list other }
{}

/// A list of the disk class costs at least the top entry of every disk under-table.
pub fn disk_lists_cost_at_least()
    ensures { (steps : ℕ) (book : BookCosts) (t : DiskTables) (list : List Action) → DiskCostsAtLeast steps book t list }
{}

/// If a list costs the top entry of a disk under-table, no list of the disk class costs less.
pub fn least_of_the_disk()
    ensures { (steps : ℕ) (book : BookCosts) (t : DiskTables) (list other : List Action) → LeastOfTheDisk steps book t list other }
{}

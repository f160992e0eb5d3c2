// Laws over the lists that are read. Each function does nothing; its contract is the law.
ghost use Rattle.std.specs.Prelude.{ℕ, List};
ghost use Rattle.plan_types.specs.declared.action.Action.{Action};
ghost use Rattle.level_book.specs.Prelude.{BookCosts, Tables};
ghost use Rattle.hrevolve_gen.specs.Laws.{ListIsUnique, PlanIsUnique, ListExists, ListEndsForward};

/// At most one list is read from tables.
pub fn lists_are_unique()
    ensures { (steps : ℕ) (book : BookCosts) (t : Tables) (list other : List Action) → ListIsUnique steps book t list other }
{}

/// All tables of the greatest entries give at most one list.
pub fn plans_are_unique()
    ensures { (steps : ℕ) (book : BookCosts) (s t : Tables) (list other : List Action) → PlanIsUnique steps book s t list other }
{}

/// Tables whose entries are attained, like the greatest ones, give a list wherever there is a plan.
pub fn lists_exist()
    ensures { (steps : ℕ) (book : BookCosts) (t : Tables) → ListExists steps book t }
{}

/// In a list that is read, EndForward comes directly after the first Forward with Tape.
pub fn lists_end_forward_at_the_first_tape()
    ensures { (steps : ℕ) (book : BookCosts) (t : Tables) (list : List Action) → ListEndsForward steps book t list }
{}

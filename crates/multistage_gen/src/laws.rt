// Laws over the planned lists. Each function does nothing; its contract is the law.
ghost use Rattle.std.specs.Prelude.{ℕ, List};
ghost use Rattle.plan_types.specs.declared.action.Action.{Action};
ghost use Rattle.level_book.specs.Prelude.{BookCosts};
ghost use Rattle.multistage_gen.specs.MultistageList.{PlansAreUnique, PlanExists};
ghost use Rattle.multistage_gen.specs.Threshold.{LeastOfTheMultistage, PlannedIsLeast};

/// There is at most one planned list for so many steps and a book.
pub fn plans_are_unique()
    ensures { (steps : ℕ) (book : BookCosts) → PlansAreUnique steps book }
{}

/// If the places of a multistage list meet a threshold, no list of the class costs less.
pub fn least_of_the_multistage()
    ensures { (steps : ℕ) (book : BookCosts) → LeastOfTheMultistage steps book }
{}

/// No list of the multistage class costs less than the planned one.
pub fn planned_lists_are_least()
    ensures { (steps : ℕ) (book : BookCosts) (list other : List Action) → PlannedIsLeast steps book list other }
{}

/// There is a planned list wherever the book has two levels and Revolve has a list.
pub fn plans_exist()
    ensures { (steps : ℕ) (book : BookCosts) → PlanExists steps book }
{}

// Laws of the classes. Each function does nothing; its contract is the law.
ghost use Rattle.std.specs.Prelude.{ℕ, List};
ghost use Rattle.plan_types.specs.declared.action.Action.{Action};
ghost use Rattle.level_book.specs.declared.book.Slots.{Slots};
ghost use Rattle.level_book.specs.Prelude.{BookCosts};
ghost use Rattle.class_rules.specs.Laws.{NestedOrNot, DiskOrNot, MultistageOrNot, PlacesHaveLevels};

/// A valid list is in the nested class or it isn't.
pub fn nested_or_not()
    ensures { (steps : ℕ) (slots : List Slots) (list : List Action) → NestedOrNot steps slots list }
{}

/// A valid list is in the disk class or it isn't.
pub fn disk_or_not()
    ensures { (steps : ℕ) (slots : List Slots) (list : List Action) → DiskOrNot steps slots list }
{}

/// A list is in the multistage class or it isn't.
pub fn multistage_or_not()
    ensures { (steps : ℕ) (book : BookCosts) (list : List Action) → MultistageOrNot steps book list }
{}

/// The places of a list of the multistage class have levels.
pub fn places_have_levels()
    ensures { (steps : ℕ) (book : BookCosts) (list : List Action) → PlacesHaveLevels steps book list }
{}

// Laws over the written lists. Each function does nothing; its contract is the law.
ghost use Rattle.std.specs.Prelude.{ℕ, List};
ghost use Rattle.level_book.specs.declared.book.Slots.{Slots};
ghost use Rattle.level_book.specs.Prelude.{BookCosts};
ghost use Rattle.revolve_gen.specs.Laws.{WrittenByRules, RevolveIsValid, LevelAtIsFirst, BookIsRoomy, RevolveIsCounted, BookListIsRight};
ghost use Rattle.revolve_gen.specs.Multistage.{LevelsAreFree, UsesItsSlots, MultistageIsValid, CostIsByPlaces};

/// The list follows the two rules.
pub fn revolve_is_by_the_rules()
    ensures { (l c : ℕ) → WrittenByRules l c }
{}

/// The list is valid, on whichever levels its places are.
pub fn revolve_is_valid()
    ensures { (steps : ℕ) (slots : List Slots) → RevolveIsValid steps slots }
{}

/// The level of a place is the first whose slots, summed with those of earlier levels, exceed the place.
pub fn levels_are_the_first()
    ensures { (slots : List Slots) (p : ℕ) → LevelAtIsFirst slots p }
{}

/// The slots of a book, in order, are as many places as the book has room for.
pub fn books_are_roomy()
    ensures { (steps : ℕ) (book : BookCosts) → BookIsRoomy steps book }
{}

/// The list has four actions for each step, and N + t(N, c) forward steps.
pub fn revolve_is_counted()
    ensures { (level : ℕ → ℕ) (steps c : ℕ) → RevolveIsCounted level steps c }
{}

/// If the book has a slot or there are fewer than two steps, the list is valid. Its counts of actions and forward steps
/// are these.
pub fn book_lists_are_right()
    ensures { (steps : ℕ) (book : BookCosts) → BookListIsRight steps book }
{}

/// Nothing else of the list depends on the levels of the places.
pub fn levels_are_free()
    ensures { (steps c : ℕ) → LevelsAreFree steps c }
{}

/// The list uses no more places than it has slots.
pub fn revolve_uses_its_slots()
    ensures { (steps c : ℕ) → UsesItsSlots steps c }
{}

/// A list of the multistage class is valid.
pub fn multistage_lists_are_valid()
    ensures { (steps : ℕ) (book : BookCosts) → MultistageIsValid steps book }
{}

/// The cost of a list of the multistage class is a sum over its places.
pub fn cost_is_by_places()
    ensures { (steps : ℕ) (book : BookCosts) → CostIsByPlaces steps book }
{}

// Laws over the texts of books, and over nested lists. Each function does nothing; its contract is the law.
ghost use Rattle.std.specs.Prelude.{◌≡◌, ◌≢◌, ◌⊎◌, ℕ, List, [], ◌++◌};
ghost use Rattle.plan_types.specs.declared.action.Action.{Action};
ghost use Rattle.level_book.specs.declared.book.Slots.{Slots};
ghost use Rattle.level_book.specs.declared.fault.BookFault.{BookFault};
ghost use Rattle.level_book.specs.BookCosts.{BookCosts};
ghost use Rattle.level_book.specs.BookFaults.{IsBookText, IsRefused};
ghost use Rattle.level_book.specs.Configuration.{Configuration, start};
ghost use Rattle.level_book.specs.Valid.{Leads};
ghost use Rattle.level_book.specs.NestedClass.{Image, IsNestedFrom};

/// Bytes are the text of one book at most.
pub fn texts_say_one_book()
    ensures { (bytes : List ℕ) (book other : BookCosts) → IsBookText bytes book → IsBookText bytes other → book ≡ other }
{}

/// Bytes that are the text of a book are refused only for lack of memory.
pub fn books_are_not_refused()
    ensures { (bytes : List ℕ) (book : BookCosts) (fault : BookFault) → IsBookText bytes book → IsRefused bytes fault → fault ≡ BookFault.Memory }
{}

/// Bytes that are no book have one fault.
pub fn faults_are_unique()
    ensures { (bytes : List ℕ) (fault other : BookFault) → IsRefused bytes fault → IsRefused bytes other → fault ≢ BookFault.Memory →
        other ≢ BookFault.Memory → fault ≡ other }
{}

/// Bytes are the text of a book, or are refused for a cause other than lack of memory.
pub fn texts_are_books_or_refused()
    ensures { (bytes : List ℕ) → ((book : BookCosts) × IsBookText bytes book) ⊎ ((fault : BookFault) × (fault ≢ BookFault.Memory) × IsRefused bytes fault) }
{}

/// In a nested list the steps left are those still to be reversed. Suppose that its first actions lead to a
/// configuration. Then the rest is nested, with the number of steps still to be reversed there.
pub fn left_is_still_to_be_reversed()
    ensures { (steps : ℕ) (slots : List Slots) (front rest : List Action) (c : Configuration) → IsNestedFrom steps [] (front ++ rest) →
        Leads steps slots (start steps slots) front c → (images : List Image) × IsNestedFrom c.reverse images rest }
{}

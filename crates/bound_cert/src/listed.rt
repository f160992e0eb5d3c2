// A list, and what it is for.
ghost use Rattle.std.specs.Prelude.{◌≡◌};
ghost use Rattle.level_book.specs.Prelude.{forward, cost};
ghost use Rattle.bound_cert.specs.ValidLists.{IsValid};

use cost_fold::{tally, total};
use level_book::Book;
use plan_types::Action;

// A list for so many steps and a book.
#[derive(Drop)]
pub(crate) struct Listed<'a> {
    pub(crate) list: &'a [Action],
    pub(crate) steps: u32,
    pub(crate) book: &'a Book,
}

impl<'a> Listed<'a> {
    // The forward steps of a valid list, taped ones included.
    pub(crate) fn forward_steps(&self) -> u64
        requires { IsValid self.now }
        ensures { result ≡ forward self.now.list.now }
    {
        // A valid list names only the book's levels, of which there are at most four.
        let _levels = self.book.levels();
        tally(self.list).forward
    }

    // What a valid list costs.
    pub(crate) fn cost(&self) -> u64
        requires { IsValid self.now }
        ensures { result ≡ cost self.now.list.now self.now.book.now }
    {
        // A valid list names only the book's levels, of which there are at most four.
        let _levels = self.book.levels();
        total(&tally(self.list), self.book)
    }
}

// A run that a console moves about in.

use input_journal::Journal;
use level_book::Book;
use rv_machine::State;

/// A run of so many steps, and the book whose levels keep its marks.
#[derive(Drop)]
pub struct MarkedRun {
    pub start: State,
    pub journal: Journal,
    pub count: u32,
    pub book: Book,
}

// What steps and images cost.
ghost use Rattle.std.specs.Prelude.{◌<◌, length};
ghost use Rattle.cost_tables.specs.LevelCosts.{AreCosts};

use level_book::Book;

/// What steps cost, and an image on a level.
#[derive(Clone, Copy)]
pub struct Costs {
    pub forward: u64,
    pub reverse: u64,
    pub write: u64,
    pub read: u64,
}

impl Costs {
    /// Those of a book on level k.
    pub fn of(book: &Book, k: u8) -> Costs
        requires { k < length book.now.levels }
        ensures { AreCosts book.now k result }
    {
        let level = book.level(k);
        Costs {
            forward: book.forward() as u64,
            reverse: book.reverse() as u64,
            write: level.write as u64,
            read: level.read as u64,
        }
    }
}

// What counts cost by a book.
ghost use Rattle.std.specs.Prelude.{◌≡◌, List};
ghost use Rattle.plan_types.specs.declared.action.Action.{Action};
ghost use Rattle.level_book.specs.Prelude.{cost};
ghost use Rattle.cost_fold.specs.CountsOf.{AreCountsOf, price};

use crate::counts::Counts;
use level_book::Book;

/// What counts cost by a book. It takes no memory.
pub fn total(counts: &Counts, book: &Book) -> u64
    ensures price { result ≡ price counts.now book.now }
    ensures cost { (list : List Action) → AreCountsOf list counts.now → result ≡ cost list book.now }
{
    book.is_within_limits();
    let mut sum = counts.forward * u64::from(book.forward())
        + counts.reversed * u64::from(book.reverse());
    for k in 0..book.levels() {
        let level = book.level(k);
        sum += counts.writes[k as usize] * u64::from(level.write)
            + counts.reads[k as usize] * u64::from(level.read);
    }
    sum
}

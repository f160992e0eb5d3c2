// What a schedule costs.
ghost use Rattle.std.specs.Prelude.{◌≡◌, ℕ, ◌*◌, ◌^◌, ◌<◌, ◌≤◌, List, length};
ghost use Rattle.plan_types.specs.declared.limits.TheConstants.{MOST_ACTIONS, MOST_COST, MOST_STEPS};
ghost use Rattle.cost_fold.specs.Prelude.{all_of};
ghost use Rattle.cost_report.specs.Prelude.{report_lines};
ghost use Rattle.level_book.specs.Prelude.{slots_of, Valid};
ghost use Rattle.reversal.specs.Prelude.{write, Moment, beside, EndsShowing, course_of, DecidesCost, IsDecided, list_report};

use crate::decision::valid_in;
use crate::job::Job;
use cost_fold::{Counts, tally};
use cost_report::report;
use endings::Outcome;
use keepers::Sink;
use level_book::Book;
use plan_types::Action;
use std::alloc::Global;

/// The counts of a list, and the book that gives the costs.
#[derive(Drop)]
pub struct CostReport {
    pub counts: Counts,
    pub book: Book,
}

impl CostReport {
    /// Writes what the counts cost, a line in each write.
    pub fn write<O: Sink>(self, out: &mut O) -> Outcome
        requires { all_of self.counts * MOST_COST < 2 ^ 64 }
        ensures { (other : Moment) (steps : ℕ) → EndsShowing (course_of (write (report_lines self.book self.counts))) result
            (beside O.Sink other out.old steps)
            (beside O.Sink other out.new steps) }
    {
        match report(&self.counts, &self.book, out) {
            Ok(()) => Outcome::Done,
            Err(_) => Outcome::Sink { place: 0 },
        }
    }
}

/// The decision on a request for the cost of a schedule.
pub fn decide_cost(alloc: Global, steps: u32, book: &[u8], schedule: &[u8]) -> Result<Job, Outcome>
    requires steps { steps ≤ MOST_STEPS }
    requires short { length schedule.now ≤ 536870912 }
    ensures { (counts : List ℕ) → IsDecided (DecidesCost steps book.now schedule.now) counts result }
{
    let (book, list) = valid_in(alloc, steps, book, schedule)?;
    let counts = counts_of(&list, steps, &book);
    Ok(Job::Report(CostReport { counts, book }))
}

// The counts of a valid list.
fn counts_of(list: &[Action], steps: u32, book: &Book) -> Counts
    requires steps { steps ≤ MOST_STEPS }
    requires few { length list.now ≤ MOST_ACTIONS }
    requires valid { Valid steps (slots_of book.now) list.now }
    ensures report { report_lines book.now result ≡ list_report book.now list.now }
    ensures bounded { all_of result * MOST_COST < 2 ^ 64 }
{
    // A valid list names only the book's levels, of which there are at most four.
    let _levels = book.levels();
    tally(list)
}

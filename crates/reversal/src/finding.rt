// The search of a run for the last state with a digest.
ghost use Rattle.std.specs.Prelude.{ℕ, ◌≤◌, List};
ghost use Rattle.plan_types.specs.declared.limits.TheConstants.{MOST_STEPS};
ghost use Rattle.requests.specs.Prelude.{stack_pages, worker_count};
ghost use Rattle.reversal.specs.Prelude.{seek, Moment, beside, Decided, find_table, IsSearchable, Works, text_of, IsDecided};

use crate::asking::write_answer;
use crate::decision::beginning_of;
use crate::job::Job;
use endings::Outcome;
use input_journal::Journal;
use keepers::Sink;
use plan_types::NoGate;
use requests::{Find, Loaded, Options};
use rv_machine::{State, Steps};
use segment_sweep::{Marks, find_digest};
use std::alloc::Global;
use std::sync::ledger::Ledger;
use std::thread::Threads;

/// A run up to a state with a number, the wanted digest, and the number of workers.
#[derive(Drop)]
pub struct Finding {
    pub start: State,
    pub journal: Journal,
    pub steps: u32,
    pub workers: u32,
    pub digest: [u8; 32],
}

impl Finding {
    /// Finds the last state with the digest, and writes its number, or that there is none. If memory runs out, nothing
    /// is written.
    pub fn find<R: Threads + Sync, O: Sink, L: Ledger>(
        self,
        rt: &R,
        alloc: Global,
        out: &mut O,
        counter: &mut Steps<L>,
    ) -> Outcome
        requires { IsSearchable self }
        ensures { (other : Moment) → Works (seek self.start self.journal self.steps self.workers self.digest) result
            (beside O.Sink other out.old counter.old)
            (beside O.Sink other out.new counter.new) }
    {
        let Finding {
            start,
            journal,
            steps,
            workers,
            digest,
        } = self;
        let Ok(marks) = Marks::make(alloc, &start, &journal, steps, workers, counter) else {
            return Outcome::Memory;
        };
        let Ok(place) = find_digest(rt, alloc, &marks, &journal, &digest, &NoGate) else {
            return Outcome::Memory;
        };
        write_answer(place, out)
    }
}

/// The decision on a search for the last state with a digest.
pub fn decide_find(
    alloc: Global,
    options: &Options,
    find: &Find<'_>,
    loaded: &mut Loaded,
) -> Result<Job, Outcome>
    requires stack { (1 ≤ stack_pages options.now) × (stack_pages options.now ≤ 1024) }
    requires workers { (1 ≤ worker_count options.now) × (worker_count options.now ≤ 64) }
    requires steps { find.now.steps ≤ MOST_STEPS }
    ensures { (counts : List ℕ) →
        IsDecided (Decided (find_table options.now find.now.steps find.now.digest loaded.old.program.items (text_of loaded.old.journal))) counts result }
{
    let (start, journal) = beginning_of(alloc, options, &loaded.program, loaded.journal.take())?;
    Ok(Job::Find(Finding {
        start,
        journal,
        steps: find.steps as u32,
        workers: options.worker_count() as u32,
        digest: find.digest,
    }))
}

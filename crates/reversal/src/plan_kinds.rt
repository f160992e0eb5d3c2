// The decisions on requests for plans.
ghost use Rattle.std.specs.Prelude.{ℕ, ◌≤◌, List};
ghost use Rattle.requests.specs.Prelude.{plan_limit, within, IsWithin};
ghost use Rattle.reversal.specs.Prelude.{DecidesPlan, IsDecided};

use crate::disk::decide_disk;
use crate::hrevolve::decide_hrevolve;
use crate::job::Job;
use crate::multistage::decide_multistage;
use crate::planning::decide_revolve;
use endings::Outcome;
use requests::{PlanFor, PlanKind};
use std::alloc::Global;
use std::thread::Threads;

/// The decision on a request for a plan of some kind. So many workers fill its tables, if it has any.
pub fn decide_plan<R: Threads + Sync>(
    rt: &R,
    alloc: Global,
    workers: u32,
    plan: &PlanFor<'_>,
    book: &[u8],
) -> Result<Job, Outcome>
    requires workers { (1 ≤ workers) × (workers ≤ 64) }
    requires steps { IsWithin (within (plan_limit plan.now.kind) plan.now.steps) }
    ensures { (counts : List ℕ) → IsDecided (DecidesPlan plan.now.kind plan.now.steps book.now) counts result }
{
    let steps = plan.steps as u32;
    match plan.kind {
        PlanKind::Revolve => decide_revolve(alloc, steps, book),
        PlanKind::Multistage => decide_multistage(alloc, steps, book),
        PlanKind::Disk => decide_disk(rt, alloc, workers, steps, book),
        PlanKind::Hrevolve => decide_hrevolve(rt, alloc, workers, steps, book),
    }
}

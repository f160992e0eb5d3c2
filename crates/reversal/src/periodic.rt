// The periodic list for the two levels of a book, as text.
ghost use Rattle.std.specs.Prelude.{◌≡◌, ◌⊎◌, ℕ, ◌≤◌, List, IfOk, IfErr, OnOk};
ghost use Rattle.plan_types.specs.declared.limits.TheConstants.{MOST_STEPS};
ghost use Rattle.level_book.specs.Prelude.{total_room};
ghost use Rattle.disk_gen.specs.Prelude.{periodic_list, HasPeriodicPlan};
ghost use Rattle.endings.specs.Prelude.{no_memory};
ghost use Rattle.reversal.specs.Prelude.{DecidesPlanPeriodic, IsDecided, IsUnperiodic};

use crate::actions::Actions;
use crate::decision::book_in;
use crate::job::Job;
use crate::planning::plan_job;
use disk_gen::Periodic;
use endings::Outcome;
use level_book::Book;
use requests::PlanPeriodic;
use revolve_gen::GenFault;
use std::alloc::Global;

/// The decision on a request for a periodic plan: the text of its list.
pub fn decide_periodic(alloc: Global, plan: &PlanPeriodic<'_>, book: &[u8]) -> Result<Job, Outcome>
    requires steps { plan.now.steps ≤ MOST_STEPS }
    requires some { 1 ≤ plan.now.period }
    requires small { plan.now.period ≤ MOST_STEPS }
    ensures { (counts : List ℕ) → IsDecided (DecidesPlanPeriodic plan.now.steps plan.now.period book.now) counts result }
{
    let book = book_in(alloc, book)?;
    let periodic = periodic_for(alloc, plan.steps as u32, plan.period as u32, &book)?;
    let job = plan_job(alloc, Actions::Periodic(periodic), book, None)?;
    Ok(job)
}

// The periodic list for so many steps, a period and a book.
fn periodic_for(alloc: Global, steps: u32, period: u32, book: &Book) -> Result<Periodic, Outcome>
    requires steps { steps ≤ MOST_STEPS }
    requires some { 1 ≤ period }
    requires small { period ≤ MOST_STEPS }
    ensures list { IfOk result (λ p. p ≡ periodic_list steps period book.now) }
    ensures plan { OnOk result (HasPeriodicPlan steps period book.now) }
    ensures refused { IfErr result (λ e. (e ≡ no_memory) ⊎ IsUnperiodic steps period book.now e) }
{
    match Periodic::new(alloc, steps, period, book) {
        Ok(periodic) => Ok(periodic),
        Err(GenFault::NoPlan(rule)) => Err(Outcome::NoPlan {
            steps,
            room: book.total_room(steps),
            rule,
        }),
        Err(GenFault::Memory) => Err(Outcome::Memory),
    }
}

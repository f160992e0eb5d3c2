// The multistage plan for the two levels of a book, as text.
ghost use Rattle.std.specs.Prelude.{◌≡◌, ◌⊎◌, ℕ, ◌≤◌, List, length, IfOk, IfErr};
ghost use Rattle.plan_types.specs.declared.limits.TheConstants.{MOST_STEPS};
ghost use Rattle.level_book.specs.Prelude.{total_room};
ghost use Rattle.revolve_gen.specs.Prelude.{HasPlan, IsMultistage};
ghost use Rattle.multistage_gen.specs.Prelude.{IsPlaced, IsMultistageList};
ghost use Rattle.endings.specs.Prelude.{no_memory, no_plan};
ghost use Rattle.reversal.specs.Prelude.{DecidesPlanMultistage, IsDecided};

use crate::actions::Actions;
use crate::decision::book_in;
use crate::job::Job;
use crate::planning::plan_job;
use bound_cert::certify_places;
use endings::Outcome;
use level_book::Book;
use multistage_gen::Multistage;
use revolve_gen::GenFault;
use std::alloc::Global;

/// The decision on a multistage plan by the bytes of its book: the texts of its list and certificate.
pub fn decide_multistage(alloc: Global, steps: u32, book: &[u8]) -> Result<Job, Outcome>
    requires steps { steps ≤ MOST_STEPS }
    ensures { (counts : List ℕ) → IsDecided (DecidesPlanMultistage steps book.now) counts result }
{
    let book = book_in(alloc, book)?;
    let plan = plan_for(alloc, steps, &book)?;
    let certificate = certify_places(&plan);
    let job = plan_job(alloc, Actions::Multistage(plan), book, Some(certificate))?;
    Ok(job)
}

// The multistage plan for so many steps and a book.
fn plan_for(alloc: Global, steps: u32, book: &Book) -> Result<Multistage, Outcome>
    requires { steps ≤ MOST_STEPS }
    ensures list { IfOk result (λ plan. IsMultistageList steps book.now plan.actions) }
    ensures class { IfOk result (λ plan. IsMultistage steps book.now plan.actions) }
    ensures places { IfOk result (IsPlaced steps book.now) }
    ensures refused { IfErr result (λ e. (e ≡ no_memory)
        ⊎ ((length book.now.levels ≡ 2 → ⊥) × (e ≡ no_plan steps (total_room book.now steps) 2))
        ⊎ ((length book.now.levels ≡ 2) × (HasPlan steps (total_room book.now steps) → ⊥) × (e ≡ no_plan steps (total_room book.now steps) 1))) }
{
    match Multistage::begin(alloc, steps, book) {
        Ok(plan) => Ok(plan),
        Err(GenFault::NoPlan(rule)) => Err(Outcome::NoPlan {
            steps,
            room: book.total_room(steps),
            rule,
        }),
        Err(GenFault::Memory) => Err(Outcome::Memory),
    }
}

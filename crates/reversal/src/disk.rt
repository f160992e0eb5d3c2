// The list of DiskRevolve for memory and an unlimited disk, and its tables, as text.
ghost use Rattle.std.specs.Prelude.{◌≡◌, ◌⊎◌, ℕ, ◌≤◌, List, IfOk, IfErr, OnOk};
ghost use Rattle.cost_tables.specs.Prelude.{FastestTablesFit};
ghost use Rattle.disk_gen.specs.Prelude.{HasDiskPlan, AreGreatestDiskFor};
ghost use Rattle.endings.specs.Prelude.{no_memory};
ghost use Rattle.reversal.specs.Prelude.{DecidesPlanDisk, IsDecided, IsUndisked};

use crate::actions::{Actions, Listed};
use crate::decision::book_in;
use crate::job::Job;
use crate::planning::plan_job;
use bound_cert::certify_disk;
use disk_gen::{DiskTables, disk_list};
use endings::Outcome;
use level_book::Book;
use revolve_gen::GenFault;
use std::alloc::Global;
use std::thread::Threads;

// The most images in memory that tables count.
const MOST_IMAGES: u32 = 64;

/// The decision on a plan of DiskRevolve by its book: the texts of its list and certificate. Any number of workers
/// gives the same.
pub fn decide_disk<R: Threads + Sync>(
    rt: &R,
    alloc: Global,
    workers: u32,
    steps: u32,
    book: &[u8],
) -> Result<Job, Outcome>
    requires workers { (1 ≤ workers) × (workers ≤ 64) }
    requires steps { steps ≤ 8192 }
    ensures { (counts : List ℕ) → IsDecided (DecidesPlanDisk steps book.now) counts result }
{
    let book = book_in(alloc, book)?;
    let _levels = book.levels();
    let room = book.room(0, steps);
    if room > MOST_IMAGES {
        return Err(Outcome::Limit {
            number: room as u64,
            bound: MOST_IMAGES as u64,
            rule: 9,
        });
    }
    let tables = tables_for(rt, alloc, workers, steps, &book)?;
    let list = disk_list(alloc, &tables, steps, &book)?;
    book.is_within_limits();
    let certificate = certify_disk(tables);
    let job = plan_job(
        alloc,
        Actions::Listed(Listed::new(list)),
        book,
        Some(certificate),
    )?;
    Ok(job)
}

// The tables for so many steps and a book.
fn tables_for<R: Threads + Sync>(
    rt: &R,
    alloc: Global,
    workers: u32,
    steps: u32,
    book: &Book,
) -> Result<DiskTables, Outcome>
    requires workers { (1 ≤ workers) × (workers ≤ 64) }
    requires fits { FastestTablesFit steps book.now }
    ensures tables { IfOk result (AreGreatestDiskFor steps book.now) }
    ensures plan { OnOk result (HasDiskPlan book.now) }
    ensures refused { IfErr result (λ e. (e ≡ no_memory) ⊎ IsUndisked steps book.now e) }
{
    match DiskTables::build(rt, alloc, steps, book, workers) {
        Ok(tables) => Ok(tables),
        Err(GenFault::NoPlan(rule)) => Err(Outcome::NoPlan {
            steps,
            room: book.total_room(steps),
            rule,
        }),
        Err(GenFault::Memory) => Err(Outcome::Memory),
    }
}

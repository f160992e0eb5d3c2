// The list of H-Revolve for the levels of a book, and its tables, as text.
ghost use Rattle.std.specs.Prelude.{◌≡◌, ◌⊎◌, ℕ, ◌<◌, ◌≤◌, List, length, IfOk, IfErr, OnOk, MatchOption};
ghost use Rattle.level_book.specs.Prelude.{room, slots_of, Nested};
ghost use Rattle.cost_tables.specs.Prelude.{AreGreatestFor, tables_in};
ghost use Rattle.hrevolve_gen.specs.Prelude.{IsWritten, HasNestedPlan};
ghost use Rattle.endings.specs.Prelude.{no_memory};
ghost use Rattle.reversal.specs.Prelude.{IsFirstWide, DecidesPlanHrevolve, IsDecided, IsUnnested};

use crate::actions::{Actions, Listed};
use crate::decision::book_in;
use crate::job::Job;
use crate::planning::plan_job;
use bound_cert::certify_nested;
use cost_tables::Tables;
use endings::Outcome;
use hrevolve_gen::hrevolve_list;
use level_book::Book;
use plan_types::Action;
use revolve_gen::GenFault;
use std::alloc::Global;
use std::thread::Threads;

// The most images on a level that tables count.
const MOST_IMAGES: u32 = 64;

/// The decision on a plan of H-Revolve by its book: the texts of its list and certificate. Any number of workers gives
/// the same.
pub fn decide_hrevolve<R: Threads + Sync>(
    rt: &R,
    alloc: Global,
    workers: u32,
    steps: u32,
    book: &[u8],
) -> Result<Job, Outcome>
    requires workers { (1 ≤ workers) × (workers ≤ 64) }
    requires steps { steps ≤ 2048 }
    ensures { (counts : List ℕ) → IsDecided (DecidesPlanHrevolve steps book.now) counts result }
{
    let book = book_in(alloc, book)?;
    if let Some(level) = first_wide(steps, &book) {
        return Err(Outcome::Limit {
            number: book.room(level, steps) as u64,
            bound: MOST_IMAGES as u64,
            rule: 9,
        });
    }
    let tables = Tables::build(rt, alloc, steps, &book, workers)?;
    let list = list_for(alloc, &tables, steps, &book)?;
    book.is_within_limits();
    let certificate = certify_nested(tables);
    let job = plan_job(
        alloc,
        Actions::Listed(Listed::new(list)),
        book,
        Some(certificate),
    )?;
    Ok(job)
}

// The first level that can hold more images than tables count.
fn first_wide(steps: u32, book: &Book) -> Option<u8>
    ensures { MatchOption result ((k : ℕ) → k < length book.now.levels → room book.now k steps ≤ 64) (IsFirstWide steps book.now) }
{
    for level in 0..book.levels() {
        if book.room(level, steps) > MOST_IMAGES {
            return Some(level);
        }
    }
    None
}

// The list that is read from the tables for so many steps and a book.
fn list_for(alloc: Global, tables: &Tables, steps: u32, book: &Book) -> Result<Vec<Action>, Outcome>
    requires { AreGreatestFor steps book.now tables.now }
    ensures list { IfOk result (λ list. IsWritten steps book.now (tables_in tables.now) list.items) }
    ensures nested { IfOk result (λ list. Nested steps (slots_of book.now) list.items) }
    ensures plan { OnOk result (HasNestedPlan steps book.now) }
    ensures refused { IfErr result (λ e. (e ≡ no_memory) ⊎ IsUnnested steps book.now e) }
{
    match hrevolve_list(alloc, tables, steps, book) {
        Ok(list) => Ok(list),
        Err(GenFault::NoPlan(_)) => Err(Outcome::NoPlan {
            steps,
            room: book.total_room(steps),
            rule: 1,
        }),
        Err(GenFault::Memory) => Err(Outcome::Memory),
    }
}

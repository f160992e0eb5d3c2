// That workers fill entries of tables in parallel, each its own piece, and one worker fills them equally. A contract
// says what the entries are, and cases of whole calls show it.
ghost use Rattle.std.specs.Prelude.{◌<◌, ◌≤◌};

use crate::barrier::Barrier;
use cost_tables::{Cost, Tables};
use level_book::Book;
use std::alloc::Global;
use std::process::Abort;
use std::test::Fail;
use std::thread::Threads;

// An entry, or None where the tables have none.
fn fresh(tables: &Tables, k: u8, l: u32, m: u32) -> Option<Cost> {
    if k < tables.levels() && 1 <= l && l <= tables.steps() && m <= tables.room(k) {
        Some(tables.fresh(k, l, m))
    } else {
        None
    }
}

fn held(tables: &Tables, k: u8, l: u32, m: u32) -> Option<Cost> {
    if k < tables.levels() && 1 <= l && l <= tables.steps() && m < tables.room(k) {
        Some(tables.held(k, l, m))
    } else {
        None
    }
}

// Whether two tables have equal sizes and entries.
fn are_same(a: &Tables, b: &Tables) -> bool {
    if a.steps() != b.steps() || a.levels() != b.levels() {
        return false;
    }
    for k in 0..a.levels() {
        for l in 1..=a.steps() {
            for m in 0..65 {
                if fresh(a, k, l, m) != fresh(b, k, l, m) || held(a, k, l, m) != held(b, k, l, m) {
                    return false;
                }
            }
        }
    }
    true
}

// So many workers fill the entries for so many steps and slots as one alone does. Each makes so many calls. All run in
// parallel in the calls after the first rows, which are shared one at a time.
fn fill<R: Threads + Sync>(
    rt: &R,
    abort: &impl Abort,
    alloc: Global,
    steps: u32,
    workers: u32,
    calls: u32,
) -> Result<(), Fail>
    requires { (1 ≤ workers) × (workers ≤ 64) }
{
    let gate = Barrier::new(alloc, workers, 17)?;
    let book = Book::plain(workers);
    assert!(abort; Tables::fits(steps, &book));
    let tables = Tables::build_with(rt, alloc, steps, &book, workers, &gate)?;
    assert_eq!(abort; gate.calls(), Some(calls));
    let alone = Tables::build(rt, alloc, steps, &book, 1)?;
    assert!(abort; are_same(&alone, &tables));
    Ok(())
}

// Of the rows for 20 steps 16 are shared one at a time, the others by two. Of those for 100 steps 16 are shared by two,
// 18 by three, and 16 by four. Then 15 are shared by five, 18 by six, and the last one alone.
#[test]
fn workers_are_at_work_at_once_on_all_rows(rt: HostRuntime) -> Result<(), Fail> {
    fill(&rt, &rt, rt.alloc(), 20, 3, 18)?;
    fill(&rt, &rt, rt.alloc(), 100, 64, 41)
}

// Each row has two entries, so each of two workers fills one. The four rows are shared one at a time, and they meet at
// each.
#[test]
fn two_workers_fill_the_entries_of_a_row_together(rt: HostRuntime) -> Result<(), Fail> {
    let gate = Barrier::new(rt.alloc(), 2, 0)?;
    let book = Book::plain(2);
    assert!(rt; Tables::fits(4, &book));
    let tables = Tables::build_with(&rt, rt.alloc(), 4, &book, 2, &gate)?;
    assert_eq!(rt; gate.calls(), Some(4));
    assert_eq!(rt; held(&tables, 0, 4, 0), Some(Cost::Number(14)));
    assert_eq!(rt; held(&tables, 0, 4, 1), Some(Cost::Number(12)));
    Ok(())
}

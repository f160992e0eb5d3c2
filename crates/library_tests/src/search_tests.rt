// That the workers of a search run in parallel, from the first state of their segments to the last, and that a worker
// ends only at a place after its segment. That every number of workers gives the same answer.
ghost use Rattle.std.specs.Prelude.{◌≡◌, ◌≤◌, ◌<◌};
ghost use Rattle.rv_machine.specs.Prelude.{IsBlankOf};
ghost use Rattle.plan_types.specs.declared.limits.TheConstants.{MOST_STEPS};

use crate::barrier::Barrier;
use crate::states::first_state;
use input_journal::Journal;
use plan_types::{Gate, NoGate};
use rv_machine::{Steps, advance};
use segment_sweep::{Marks, find_digest};
use state_image::image_digest;
use std::alloc::Global;
use std::marker::Brand;
use std::process::Abort;
use std::sync::atomic::AtomicU32;
use std::sync::atomic::Ordering::SeqCst;
use std::sync::ledger::{Blank, Ledger};
use std::test::Fail;
use std::thread;
use std::thread::Threads;

// ADDI x5, x5, 1 and XORI x5, x5, 1. With a jump back behind it, the states of the first all differ. Those of the second
// repeat after four steps.
const COUNT_UP: u32 = 0x00128293;

const TURN_OVER: u32 = 0x0012c293;

// JAL x0, -4
const JUMP_BACK: u32 = 0xffdff06f;

// A search in the run of a word and a jump back to it: the number of its last state, and the state whose digest is
// wanted, or none, whose digest no state has.
#[derive(Clone, Copy)]
struct Search {
    word: u32,
    last: u32,
    wanted: Option<u32>,
    workers: u32,
}

impl Search {
    fn new(word: u32, last: u32, wanted: Option<u32>, workers: u32) -> Search
        ensures { result ≡ record { word = word; last = last; wanted = wanted; workers = workers } }
    {
        Search {
            word,
            last,
            wanted,
            workers,
        }
    }
}

// What the workers of a search find, each through the gate.
fn found_by<L: Ledger, R: Threads + Sync, G: Gate + Sync>(
    rt: &R,
    abort: &impl Abort,
    alloc: Global,
    search: Search,
    gate: &G,
    blank: Blank,
) -> Result<Option<u32>, Fail>
    requires workers { (1 ≤ search.workers) × (search.workers ≤ 64) }
    requires few { search.last ≤ MOST_STEPS }
    requires ledger { IsBlankOf blank.name blank.parts L.name L.parts }
{
    let journal = Journal::none(alloc);
    let mut steps = Steps::<L>::new(blank);
    let start = first_state(abort, alloc, &[0x10], &[search.word, JUMP_BACK], 0)?;
    let mut digest = [0; 32];
    if let Some(number) = search.wanted {
        let mut state = start.clone()?;
        advance(&mut state, &journal, number, &mut steps);
        digest = image_digest(&state);
    }
    let marks = Marks::make(
        alloc,
        &start,
        &journal,
        search.last,
        search.workers,
        &mut steps,
    )?;
    Ok(find_digest(rt, alloc, &marks, &journal, &digest, gate)?)
}

fn find<R: Threads + Sync, G: Gate + Sync>(
    rt: &R,
    abort: &impl Abort,
    alloc: Global,
    wanted: Search,
    gate: &G,
) -> Result<Option<u32>, Fail>
    requires workers { (1 ≤ wanted.workers) × (wanted.workers ≤ 64) }
    requires few { wanted.last ≤ MOST_STEPS }
{
    found_by::<Brand, R, G>(rt, abort, alloc, wanted, gate, Blank::new(1))
}

// No state has the wanted digest, so each of the workers goes through its segment of twenty states.
#[test]
fn workers_search_at_once(rt: HostRuntime) -> Result<(), Fail> {
    for workers in [2, 4, 64] {
        let gate = Barrier::new(rt.alloc(), workers, 17)?;
        let wanted = Search::new(COUNT_UP, 20 * workers - 1, None, workers);
        assert_eq!(rt; find(&rt, &rt, rt.alloc(), wanted, &gate)?, None);
        assert_eq!(rt; gate.calls(), Some(20));
    }
    Ok(())
}

// Waits until there were so many calls, but not forever.
fn wait(calls: &AtomicU32, count: u32) {
    for _ in 0..1_000_000u32 {
        if calls.load(SeqCst) >= count {
            return;
        }
        thread::yield_now();
    }
}

// Segment 1 waits at its first state until segment 0 comes to a certain state, counted from 1. There segment 0 waits
// until segment 1 comes to another one.
#[derive(Drop)]
struct Handover {
    calls: [AtomicU32; 2],
    first: u32,
    second: u32,
}

impl Handover {
    fn new(first: u32, second: u32) -> Handover {
        Handover {
            calls: [AtomicU32::new(0), AtomicU32::new(0)],
            first,
            second,
        }
    }
}

impl Gate for Handover {
    fn enter(&self, segment: u32) {
        if segment >= 2 {
            return;
        }
        let before = self.calls[segment as usize].fetch_add(1, SeqCst);
        if segment == 1 && before == 0 {
            wait(&self.calls[0], self.first);
        }
        if segment == 0 && before.saturating_add(1) == self.first {
            wait(&self.calls[1], self.second);
        }
    }
}

#[test]
fn a_worker_ends_only_at_a_place_behind_its_segment(rt: HostRuntime) -> Result<(), Fail> {
    // Two segments of 501 states. State 510 is the tenth of the second one.
    let gate = Handover::new(10, 11);
    let wanted = Search::new(COUNT_UP, 1000, Some(510), 2);
    assert_eq!(rt; find(&rt, &rt, rt.alloc(), wanted, &gate)?, Some(510));
    assert_eq!(rt; gate.calls[0].load(SeqCst), 10);
    // Two segments of four states. State 2 equals state 6. The place that was stored ends no worker behind it.
    let gate = Handover::new(4, 0);
    let wanted = Search::new(TURN_OVER, 7, Some(2), 2);
    assert_eq!(rt; find(&rt, &rt, rt.alloc(), wanted, &gate)?, Some(6));
    assert_eq!(rt; gate.calls[1].load(SeqCst), 4);
    Ok(())
}

// The first state is that of each fourth step.
#[test]
fn every_number_of_workers_finds_the_same(rt: HostRuntime) -> Result<(), Fail> {
    for workers in [1, 2, 5, 64] {
        let first = Search::new(TURN_OVER, 42, Some(0), workers);
        assert_eq!(rt; find(&rt, &rt, rt.alloc(), first, &NoGate)?, Some(40));
        let none = Search::new(TURN_OVER, 42, None, workers);
        assert_eq!(rt; find(&rt, &rt, rt.alloc(), none, &NoGate)?, None);
    }
    Ok(())
}

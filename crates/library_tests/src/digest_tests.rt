// The digests of the states of a unit, taken with workers in parallel.
ghost use Rattle.std.specs.Prelude.{◌≡◌, ◌<◌, IfOk};
ghost use Rattle.std.specs.List.{AllByRecursion};
ghost use Rattle.rv_machine.specs.Prelude.{IsBlankOf};
ghost use Rattle.unit_undo.specs.Prelude.{LeadsBack, led_back};
ghost use Rattle.unit_digests.specs.Prelude.{states_of, AreDigests, HasPages};

use crate::barrier::Barrier;
use crate::states::first_state;
use crate::undo_tests::{COUNTING, JOURNAL, take};
use input_journal::read_journal;
use plan_types::NoGate;
use rv_machine::{State, Steps};
use state_image::image_digest;
use std::alloc::{AllocError, Global};
use std::marker::Brand;
use std::process::Abort;
use std::sync::ledger::{Blank, Ledger};
use std::test::Fail;
use std::thread::Threads;
use unit_digests::Digesters;
use unit_undo::Undo;

// The digest of each state that an undo list leads back to is known.
fn check_digests(rt: &impl Abort, undo: &mut Undo, state: &mut State, known: &[Option<[u8; 32]>])
    requires { LeadsBack undo.old.entries state.old (led_back undo.old.entries state.old) }
{
    while undo.count() > 0 {
        undo.back(state);
        match known.get(undo.count() as usize) {
            Some(Some(digest)) => assert!(rt; *digest == image_digest(state)),
            _ => assert!(rt; false, "each digest is known"),
        }
    }
}

// So many workers take the digests of a unit of twenty steps at once, each so many of them. That of the first state may
// be known before. Then an earlier call took it, with room for no other.
#[derive(Drop)]
struct Case {
    workers: u32,
    first_known: bool,
    calls: u32,
}

// What is known before: at most the digest of the first state. There is room for all digests.
fn known_before<R: Threads + Sync>(
    rt: &R,
    alloc: Global,
    state: &State,
    undo: &Undo,
    digesters: &mut Digesters,
    first_known: bool,
) -> Result<Vec<Option<[u8; 32]>>, AllocError>
    requires back { LeadsBack undo.now.entries state.now (led_back undo.now.entries state.now) }
    requires pages { AllByRecursion (HasPages state.now) digesters.old }
    ensures known { IfOk result (λ known. AreDigests known.items (states_of undo.now.entries state.now)) }
    ensures same { digesters.new ≡ digesters.old }
{
    let mut known = Vec::with_capacity(alloc, 1)?;
    if first_known {
        digesters.digest(rt, &NoGate, state, undo, &mut known);
    }
    known.reserve(20)?;
    Ok(known)
}

// The digests are right, and all workers take them at once.
fn take_digests<L: Ledger, R: Threads + Sync>(
    rt: &R,
    abort: &impl Abort,
    alloc: Global,
    case: &Case,
    blank: Blank,
) -> Result<(), Fail>
    requires { IsBlankOf blank.name blank.parts L.name L.parts }
{
    let journal = read_journal(alloc, Vec::from_slice(alloc, JOURNAL)?)?;
    let mut steps = Steps::<L>::new(blank);
    let mut state = first_state(abort, alloc, &[0x10, 0x11, 0x12], &COUNTING, 0)?;
    let mut undo = Undo::begin(alloc, 20, &journal)?;
    take(&mut undo, &mut state, &journal, 20, &mut steps);
    let mut digesters = Digesters::begin(alloc, &state, 20, case.workers)?;
    let gate = Barrier::new(alloc, case.workers, 0)?;
    let mut known = known_before(rt, alloc, &state, &undo, &mut digesters, case.first_known)?;
    digesters.digest(rt, &gate, &state, &undo, &mut known);
    assert_eq!(abort; gate.calls(), Some(case.calls));
    check_digests(abort, &mut undo, &mut state, known.as_slice());
    Ok(())
}

#[test]
fn workers_take_the_digests_of_a_unit(rt: HostRuntime) -> Result<(), Fail> {
    for (workers, first_known, calls) in [(2, false, 10), (20, false, 1), (19, true, 1)] {
        let case = Case {
            workers,
            first_known,
            calls,
        };
        take_digests::<Brand, _>(&rt, &rt, rt.alloc(), &case, Blank::new(1))?;
    }
    Ok(())
}

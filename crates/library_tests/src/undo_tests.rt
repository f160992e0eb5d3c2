// Units of one step, of two, and of more than a program takes before it stops.
ghost use Rattle.std.specs.Prelude.{◌≡◌, ◌<◌, ◌≤◌};
ghost use Rattle.rv_machine.specs.Prelude.{state_number, IsBlankOf};
ghost use Rattle.unit_undo.specs.Prelude.{LeadsBack, led_back, HasSteps, IsMadeFor};

use crate::states::first_state;
use input_journal::{Journal, read_journal};
use rv_machine::{State, Status, Steps, step};
use std::alloc::{AllocError, Global};
use std::marker::Brand;
use std::process::Abort;
use std::sync::ledger::{Blank, Ledger};
use std::test::Fail;
use unit_undo::Undo;

// Reads the journal two bytes at a time to 0x11fff, across the end of a page. Counts the reads at 0x12004, and then
// exits.
pub(crate) const COUNTING: [u32; 13] = [
    0x00012437, 0x00000513, 0xfff40593, 0x00200613, 0x03f00893, 0x00000073, 0x00050a63, 0x00442283,
    0x00128293, 0x00542223, 0xfddff06f, 0x05d00893, 0x00000073,
];

pub(crate) const JOURNAL: &[u8] = b"RVJL\x01\0\0\0\x02\0\0\0\x02\0\0\0\x05\x06\x01\0\0\0\x07";

// Takes a unit of steps. The undo list leads back over all states before the last.
pub(crate) fn take<L: Ledger>(
    undo: &mut Undo,
    state: &mut State,
    journal: &Journal,
    count: u32,
    steps: &mut Steps<L>,
)
    requires made { IsMadeFor journal.now undo.old }
    requires few { count ≤ undo.old.unit }
    ensures has { HasSteps undo.new state.old journal.now count }
    ensures room { (undo.new.unit ≡ undo.old.unit) × (undo.new.room ≡ undo.old.room) }
    ensures state { state.new ≡ state_number state.old journal.now count }
{
    undo.clear();
    for _ in 0..count {
        undo.push(state, journal);
        step(state, journal, steps);
    }
}

// Two states are equal in what the program changes.
fn check_same(rt: &impl Abort, a: &State, b: &State) {
    assert_eq!(rt;
        (a.pc, a.status, a.item, a.offset),
        (b.pc, b.status, b.item, b.offset)
    );
    assert!(rt; a.x == b.x && a.written == b.written);
    for at in [0x11ffc, 0x12000, 0x12004] {
        assert!(rt; a.pages.load32(at) == b.pages.load32(at));
    }
}

// Goes back over all states.
fn go_back(undo: &mut Undo, state: &mut State)
    requires { LeadsBack undo.old.entries state.old (led_back undo.old.entries state.old) }
    ensures { (undo.new.unit ≡ undo.old.unit) × (undo.new.room ≡ undo.old.room) }
{
    while undo.count() > 0 {
        undo.back(state);
    }
}

// Goes through a unit and back over it, and stays at its end.
fn check_unit<L: Ledger>(
    rt: &impl Abort,
    undo: &mut Undo,
    state: &mut State,
    journal: &Journal,
    unit: u32,
    steps: &mut Steps<L>,
) -> Result<(), AllocError>
    requires made { IsMadeFor journal.now undo.old }
    requires few { unit ≤ undo.old.unit }
    ensures { (undo.new.unit ≡ undo.old.unit) × (undo.new.room ≡ undo.old.room) }
{
    let before = state.clone()?;
    take(undo, state, journal, unit, steps);
    assert_eq!(rt; undo.count(), unit);
    let after = state.clone()?;
    go_back(undo, state);
    check_same(rt, state, &before);
    *state = after;
    Ok(())
}

// The program has read both items, and exited.
fn check_end(rt: &impl Abort, state: &State) {
    assert_eq!(rt; (state.pc, state.status), (0x10030, Status::Exited(0)));
    assert_eq!(rt; (state.item, state.pages.load32(0x12004)), (2, Some(2)));
}

// Goes through so many units from the start on, and back over each of them.
fn check_units<L: Ledger>(
    rt: &impl Abort,
    alloc: Global,
    journal: &Journal,
    unit: u32,
    units: u32,
    steps: &mut Steps<L>,
) -> Result<(), AllocError>
    requires { (1 ≤ unit) × (unit ≤ 1024) }
{
    let mut state = first_state(rt, alloc, &[0x10, 0x11, 0x12], &COUNTING, 0)?;
    let mut undo = Undo::begin(alloc, unit, journal)?;
    for _ in 0..units {
        check_unit(rt, &mut undo, &mut state, journal, unit, steps)?;
    }
    check_end(rt, &state);
    Ok(())
}

// Goes through the program by units of one step, of two, and of 1,024, and back over each unit.
fn check_sizes<L: Ledger>(
    rt: &impl Abort,
    alloc: Global,
    journal: &Journal,
    blank: Blank,
) -> Result<(), AllocError>
    requires { IsBlankOf blank.name blank.parts L.name L.parts }
{
    let mut steps = Steps::<L>::new(blank);
    check_units(rt, alloc, journal, 1, 30, &mut steps)?;
    check_units(rt, alloc, journal, 2, 15, &mut steps)?;
    check_units(rt, alloc, journal, 1024, 1, &mut steps)
}

#[test]
fn units_are_undone(rt: HostRuntime) -> Result<(), Fail> {
    let journal = read_journal(rt.alloc(), Vec::from_slice(rt.alloc(), JOURNAL)?)?;
    Ok(check_sizes::<Brand>(&rt, rt.alloc(), &journal, Blank::new(1))?)
}

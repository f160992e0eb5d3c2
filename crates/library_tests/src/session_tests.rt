// Lists performed over four words, with working and failing keepers and writers.
ghost use Rattle.std.specs.Prelude.{◌≡◌, ◌*◌, ◌<◌, ◌≤◌};
ghost use Rattle.rv_machine.specs.Prelude.{IsBlankOf};
ghost use Rattle.plan_types.specs.declared.limits.TheConstants.{MOST_STEPS};
ghost use Rattle.reverse_runner.specs.Prelude.{HaveRoom, slot_counts};

use crate::sessions::{STACK, four, have_room, three};
use crate::states::first_state;
use input_journal::Journal;
use keepers::{FlipKeeper, Keeper, MemoryKeeper, MemorySink, Op};
use level_book::{Book, read_book};
use plan_types::{Action, Dest};
use reverse_runner::{LineWriter, RunFault, Session, Visitor};
use rv_machine::Steps;
use std::alloc::{AllocError, Global};
use std::marker::Brand;
use std::process::Abort;
use std::sync::ledger::{Blank, Ledger};
use std::test::Fail;

// addi x10, x0, 7; addi x5, x0, 1; addi x6, x5, 2; addi x17, x0, 93.
const FOUR_WORDS: [u32; 4] = [0x00700513, 0x00100293, 0x00228313, 0x05d00893];

const LINE: usize = 365;

// The most bytes of an image of 17 pages.
const ROOM: u32 = 69_864;

// A page for words, and sixteen for the stack.
const MAPPED: [u32; 17] = [
    0x10, 0xbfff0, 0xbfff1, 0xbfff2, 0xbfff3, 0xbfff4, 0xbfff5, 0xbfff6, 0xbfff7, 0xbfff8, 0xbfff9,
    0xbfffa, 0xbfffb, 0xbfffc, 0xbfffd, 0xbfffe, 0xbffff,
];

// Two levels with a slot each.
const TWO_LEVELS: &[u8] =
    br#"{"forward":1,"reverse":1,"levels":[{"name":"RAM","slots":1,"write":0,"read":0},{"name":"DISK","slots":1,"write":1,"read":1}]}"#;

// It reverses two steps over them. The image of state 0 is copied to level 1, moved back to level 0, and loaded from there.
fn travels() -> [Action; 12] {
    let copied = Action::Copy {
        n: 0,
        from: 0,
        dest: Dest::Level(1),
    };
    let moved = Action::Move {
        n: 0,
        from: 1,
        dest: Dest::Level(0),
    };
    [
        Action::store(0, 1, 0),
        copied,
        Action::tape(1, 2),
        Action::EndForward,
        Action::reverse(2, 1),
        Action::take(0, 0),
        Action::advance(0, 1),
        moved,
        Action::take(0, 0),
        Action::tape(0, 1),
        Action::reverse(1, 0),
        Action::EndReverse,
    ]
}

// What a session showed: how many actions it performed, and how it refused others, in their order.
#[derive(Drop)]
struct Seen {
    done: u64,
    faults: Vec<RunFault>,
}

// Performs an action if it breaks no rule, and says how it was refused.
fn refusal<K: Keeper, V: Visitor, L: Ledger>(
    action: &Action,
    session: &mut Session,
    keepers: &mut Vec<K>,
    visitor: &mut V,
    steps: &mut Steps<L>,
) -> Option<RunFault>
    requires { HaveRoom session.old.situation.steps session.old.situation.slots (slot_counts K.Storage keepers.old.items) }
    ensures { HaveRoom session.new.situation.steps session.new.situation.slots (slot_counts K.Storage keepers.new.items) }
{
    match session.config().judge(action) {
        Ok(()) => session.perform(action, keepers, visitor, steps).err(),
        Err(_) => None,
    }
}

// Performs each action that breaks no rule when its turn comes, and says how others were refused.
fn go_through<K: Keeper, V: Visitor, L: Ledger>(
    alloc: Global,
    list: &[Action],
    session: &mut Session,
    keepers: &mut Vec<K>,
    visitor: &mut V,
    steps: &mut Steps<L>,
) -> Result<Vec<RunFault>, AllocError>
    requires { HaveRoom session.old.situation.steps session.old.situation.slots (slot_counts K.Storage keepers.old.items) }
{
    let mut faults = Vec::new(alloc);
    for action in list {
        if let Some(fault) = refusal(action, session, keepers, visitor, steps) {
            faults.push(fault)?;
        }
    }
    Ok(faults)
}

// A session over the four words performs a list for so many steps.
fn performed<K: Keeper, L: Ledger>(
    rt: &impl Abort,
    alloc: Global,
    list: &[Action],
    count: u32,
    unit: u32,
    book: Book,
    keepers: &mut Vec<K>,
    out: &mut MemorySink,
    blank: Blank,
) -> Result<Seen, AllocError>
    requires count { count ≤ MOST_STEPS }
    requires unit { (1 ≤ unit) × (unit ≤ 1024) }
    requires few { unit * count ≤ MOST_STEPS }
    requires ledger { IsBlankOf blank.name blank.parts L.name L.parts }
{
    assert!(rt;
        have_room(keepers.as_slice(), &book, count),
        "each level has a keeper"
    );
    let mut steps = Steps::<L>::new(blank);
    let mut writer = LineWriter::new(out);
    let mut session = Session::begin(
        alloc,
        first_state(rt, alloc, &MAPPED, &FOUR_WORDS, STACK)?,
        Journal::none(alloc),
        count,
        unit,
        book,
    )?;
    let faults = go_through(alloc, list, &mut session, keepers, &mut writer, &mut steps)?;
    Ok(Seen {
        done: session.done(),
        faults,
    })
}

// Performs a list for four steps on one level with two slots.
fn four_steps<K: Keeper>(
    rt: &impl Abort,
    alloc: Global,
    list: &[Action],
    keepers: &mut Vec<K>,
    out: &mut MemorySink,
) -> Result<Seen, AllocError> {
    performed::<K, Brand>(
        rt,
        alloc,
        list,
        4,
        1,
        Book::plain(2),
        keepers,
        out,
        Blank::new(1),
    )
}

// Performs the list for three steps, each a unit of so many instructions.
fn three_units<K: Keeper>(
    rt: &impl Abort,
    alloc: Global,
    unit: u32,
    keepers: &mut Vec<K>,
    out: &mut MemorySink,
) -> Result<Seen, AllocError>
    requires { (1 ≤ unit) × (unit ≤ 1024) }
{
    performed::<K, Brand>(
        rt,
        alloc,
        &three(),
        3,
        unit,
        Book::plain(2),
        keepers,
        out,
        Blank::new(1),
    )
}

// How often a keeper was called, by put, get and free, and how many slots hold an image.
fn calls(keeper: &MemoryKeeper) -> (u64, u64, u64, u32) {
    let counts = keeper.counts();
    (counts.puts, counts.gets, counts.frees, keeper.filled())
}

// Performs a list over a keeper with one failing call. The action is refused, and so are all later ones. It returns how
// many actions were performed, and how often the keeper was called.
fn refused(
    rt: &impl Abort,
    alloc: Global,
    list: &[Action],
    op: Op,
    call: u64,
) -> Result<(u64, Option<(u64, u64, u64, u32)>), AllocError> {
    let failing = vec![in alloc; (op, call)]?;
    let mut keepers = vec![in alloc; MemoryKeeper::new(alloc, 2).failing(failing)]?;
    let mut out = MemorySink::new(alloc, 4096)?;
    let seen = four_steps(rt, alloc, list, &mut keepers, &mut out)?;
    assert_eq!(rt;
        seen.faults.as_slice(),
        [RunFault::Keeper(0), RunFault::Ended].as_slice()
    );
    Ok((seen.done, keepers.first().map(calls)))
}

// Whether an image of level 0 came back with other bytes.
fn is_damage(fault: &RunFault) -> bool {
    match fault {
        RunFault::Damaged { level, put, got } => *level == 0 && put != got,
        _ => false,
    }
}

// The number of line ends.
fn line_ends(bytes: &[u8]) -> usize {
    let mut count = 0usize;
    for byte in bytes {
        if *byte == b'\n' {
            count = count.saturating_add(1);
        }
    }
    count
}

// Performs the list over a keeper whose first get has a wrong bit. The Copy is refused, and so are all later actions.
fn damaged(rt: &impl Abort, alloc: Global) -> Result<(), Fail> {
    let mut keepers = vec![in alloc; FlipKeeper::new(alloc, 2, 1, 40)]?;
    let mut out = MemorySink::new(alloc, 4096)?;
    let seen = four_steps(rt, alloc, &four(), &mut keepers, &mut out)?;
    assert_eq!(rt; seen.done, 5);
    let (first, later) = seen.faults.split_first().ok_or("nothing was refused")?;
    assert!(rt; is_damage(first), "the Copy is refused");
    assert_eq!(rt; later, [RunFault::Ended, RunFault::Ended].as_slice());
    Ok(())
}

#[test]
fn a_session_whose_visitor_failed_has_ended(rt: HostRuntime) -> Result<(), Fail> {
    let failing = vec![in rt.alloc(); 2u64]?;
    let mut keepers = vec![in rt.alloc(); MemoryKeeper::new(rt.alloc(), 2)]?;
    let mut out = MemorySink::new(rt.alloc(), 4096)?.failing(failing);
    let seen = four_steps(&rt, rt.alloc(), &four(), &mut keepers, &mut out)?;
    assert_eq!(rt; seen.done, 4);
    // The rules allow a Copy and two Moves after the Reverse that was refused. None of them calls the keeper.
    assert_eq!(rt;
        seen.faults.as_slice(),
        [
            RunFault::Visitor,
            RunFault::Ended,
            RunFault::Ended,
            RunFault::Ended,
        ]
        .as_slice()
    );
    assert_eq!(rt; line_ends(out.bytes()), 1);
    assert_eq!(rt; out.bytes().len(), LINE);
    assert_eq!(rt; keepers.first().map(calls), Some((2, 0, 0, 2)));
    Ok(())
}

#[test]
fn a_session_whose_keeper_failed_has_ended(rt: HostRuntime) -> Result<(), Fail> {
    let stores = [Action::store(0, 1, 0), Action::store(0, 1, 0)];
    let at_store = refused(&rt, rt.alloc(), &stores, Op::Put, 1)?;
    assert_eq!(rt; at_store, (0, Some((1, 0, 0, 0))));
    let at_get = refused(&rt, rt.alloc(), &four(), Op::Get, 2)?;
    assert_eq!(rt; at_get, (9, Some((2, 2, 0, 2))));
    let at_free = refused(&rt, rt.alloc(), &four(), Op::Free, 1)?;
    assert_eq!(rt; at_free, (9, Some((2, 2, 1, 2))));
    damaged(&rt, rt.alloc())
}

// Images travel between two levels with a slot each.
fn travel(rt: &impl Abort, alloc: Global, out: &mut MemorySink) -> Result<(), Fail> {
    let book = read_book(alloc, TWO_LEVELS)?;
    let fast = MemoryKeeper::new(alloc, 1);
    let slow = MemoryKeeper::new(alloc, 1);
    let mut keepers = vec![in alloc; fast, slow]?;
    let blank = Blank::new(1);
    let seen = performed::<MemoryKeeper, Brand>(
        rt,
        alloc,
        &travels(),
        2,
        1,
        book,
        &mut keepers,
        out,
        blank,
    )?;
    assert_eq!(rt; seen.done, 12);
    assert!(rt; seen.faults.is_empty(), "nothing is refused");
    assert_eq!(rt; keepers.first().map(calls), Some((2, 3, 2, 0)));
    assert_eq!(rt; keepers.last().map(calls), Some((1, 1, 1, 0)));
    Ok(())
}

// The list of four steps gives five states.
fn stay(rt: &impl Abort, alloc: Global, out: &mut MemorySink) -> Result<(), Fail> {
    let mut keepers = vec![in alloc; MemoryKeeper::new(alloc, 2)]?;
    let seen = four_steps(rt, alloc, &four(), &mut keepers, out)?;
    assert_eq!(rt;
        (seen.done, line_ends(out.bytes()), out.bytes().len()),
        (16, 5, 5 * LINE)
    );
    assert_eq!(rt; keepers.first().map(calls), Some((2, 3, 2, 0)));
    Ok(())
}

#[test]
fn images_travel_between_levels(rt: HostRuntime) -> Result<(), Fail> {
    let mut out = MemorySink::new(rt.alloc(), 4096)?;
    travel(&rt, rt.alloc(), &mut out)?;
    // The states are the last three that a list of four steps gives over one level.
    let mut all = MemorySink::new(rt.alloc(), 4096)?;
    stay(&rt, rt.alloc(), &mut all)?;
    assert_eq!(rt; all.bytes().get(2 * LINE..), Some(out.bytes()));
    Ok(())
}

#[test]
fn a_unit_hands_out_each_state(rt: HostRuntime) -> Result<(), Fail> {
    let mut keepers = vec![in rt.alloc(); MemoryKeeper::new(rt.alloc(), 2)]?;
    let mut out = MemorySink::new(rt.alloc(), 8192)?;
    let seen = three_units(&rt, rt.alloc(), 3, &mut keepers, &mut out)?;
    assert_eq!(rt; seen.done, 12);
    assert!(rt; seen.faults.is_empty(), "nothing is refused");
    assert_eq!(rt; line_ends(out.bytes()), 10);
    let mut keepers = vec![in rt.alloc(); MemoryKeeper::with_room(rt.alloc(), 2, ROOM)?]?;
    let mut few = MemorySink::new(rt.alloc(), 8192)?;
    three_units(&rt, rt.alloc(), 1, &mut keepers, &mut few)?;
    assert_eq!(rt; line_ends(few.bytes()), 4);
    // the lines of states 3 to 0 are the last four of those of states 9 to 0
    let start = out.bytes().len().saturating_sub(few.bytes().len());
    assert_eq!(rt; out.bytes().get(start..), Some(few.bytes()));
    Ok(())
}

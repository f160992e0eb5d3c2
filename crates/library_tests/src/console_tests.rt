// Scripts for a console: over a program that stores a word twice, and over one that sums its input.
ghost use Rattle.std.specs.Prelude.{◌≡◌, ◌<◌, ◌≤◌};
ghost use Rattle.rv_machine.specs.Prelude.{IsBlankOf};
ghost use Rattle.plan_types.specs.declared.limits.TheConstants.{MOST_SLOTS};

use crate::sessions::{STACK, have_room};
use crate::states::first_state;
use input_journal::{Journal, read_journal};
use keepers::{Keeper, MemoryKeeper, MemorySink};
use level_book::{Book, read_book};
use line_texts::Fault;
use reverse_console::{Console, MarkedRun, answer_all, read_orders};
use rv_machine::Steps;
use std::alloc::{AllocError, Global};
use std::marker::Brand;
use std::process::Abort;
use std::sync::ledger::{Blank, Ledger};
use std::test::Fail;

// addi x5, x0, 1; sw x5, 0(x2); sw x5, 0(x2); addi x6, x5, 2.
const TWO_STORES: [u32; 4] = [0x00100293, 0x00512023, 0x00512023, 0x00228313];

// It sums how many bytes it reads, in the word at 0x11000.
const ADDER: [u32; 13] = [
    0x00011437, 0x00000513, 0x00440593, 0x00100613, 0x03f00893, 0x00000073, 0x00050a63, 0x00042283,
    0x00128293, 0x00542023, 0xfddff06f, 0x05d00893, 0x00000073,
];

// Two levels with four slots and with eight.
const TWO_LEVELS: &[u8] =
    br#"{"forward":1,"reverse":1,"levels":[{"name":"RAM","slots":4,"write":0,"read":0},{"name":"DISK","slots":8,"write":2,"read":1}]}"#;

// Answers a script, and writes the answers to a sink. It returns the last place.
fn answered<K: Keeper, L: Ledger>(
    rt: &impl Abort,
    alloc: Global,
    over: MarkedRun,
    script: &[u8],
    keepers: &mut Vec<K>,
    out: &mut MemorySink,
    blank: Blank,
) -> Result<u32, Fail>
    requires { IsBlankOf blank.name blank.parts L.name L.parts }
{
    let count = over.count;
    assert!(rt; count <= 1_000_000);
    assert!(rt; script.len() < 4096);
    assert!(rt;
        over.book.total_room(count.max(1)) >= 1,
        "some level has a slot"
    );
    assert!(rt;
        have_room(keepers.as_slice(), &over.book, count.max(1)),
        "each level has a keeper"
    );
    let orders = read_orders(alloc, script, count)?;
    let mut steps = Steps::<L>::new(blank);
    let mut console = Console::begin(alloc, over, keepers, &mut steps)?;
    answer_all(&mut console, orders.as_slice(), keepers, out, &mut steps)?;
    Ok(console.place())
}

// The answers to a script, over keepers in memory.
fn answered_in_memory(
    rt: &impl Abort,
    alloc: Global,
    over: MarkedRun,
    script: &[u8],
    keepers: &mut Vec<MemoryKeeper>,
    out: &mut MemorySink,
) -> Result<u32, Fail> {
    answered::<MemoryKeeper, Brand>(rt, alloc, over, script, keepers, out, Blank::new(1))
}

// Whether the lines begin with these texts, and there are no more of them.
fn lines_begin(bytes: &[u8], fronts: &[&[u8]]) -> bool {
    let mut rest = bytes;
    for front in fronts {
        if !rest.starts_with(front) {
            return false;
        }
        rest = behind_line(rest);
    }
    rest.is_empty()
}

// What comes after the first line.
fn behind_line(bytes: &[u8]) -> &[u8] {
    for (i, byte) in bytes.iter().enumerate() {
        if *byte == b'\n' {
            return &bytes[i + 1..];
        }
    }
    b""
}

const ORDERS: &[u8] = b"# between the two stores
goto 7
back-write 0xbffffff0
  back-write\t0xbffffff0
back-write 0xbffffff0

step 9\r
back-change 0xbffffff0
run-to 0x0001000c
run-to 0x00010000
#run-to 0x00010008
back-to 0x00010000
step 2
back 1
back 3";

const ANSWERS: [&[u8]; 12] = [
    b"7 ", b"2 ", b"1 ", b"none\n", b"7 ", b"1 ", b"3 ", b"none\n", b"0 ", b"2 ", b"1 ", b"0 ",
];

// Whether the orders have the expected answers, over so many slots.
fn is_gone_through(rt: &impl Abort, alloc: Global, slots: u32) -> Result<bool, Fail>
    requires { slots ≤ MOST_SLOTS }
{
    let mut keepers = vec![in alloc; MemoryKeeper::new(alloc, slots)]?;
    let over = MarkedRun {
        start: first_state(rt, alloc, &[0x10, 0xbffff], &TWO_STORES, STACK)?,
        journal: Journal::none(alloc),
        count: 7,
        book: Book::plain(slots),
    };
    let mut out = MemorySink::new(alloc, 8192)?;
    let place = answered_in_memory(rt, alloc, over, ORDERS, &mut keepers, &mut out)?;
    Ok(place == 0 && lines_begin(out.bytes(), &ANSWERS))
}

#[test]
fn orders_are_answered_from_any_number_of_marks(rt: HostRuntime) -> Result<(), Fail> {
    assert!(rt; is_gone_through(&rt, rt.alloc(), 1)?);
    assert!(rt; is_gone_through(&rt, rt.alloc(), 3)?);
    assert!(rt; is_gone_through(&rt, rt.alloc(), 9)?);
    Ok(())
}

// Three items of 30 bytes.
fn three_items(alloc: Global) -> Result<Vec<u8>, AllocError> {
    let mut bytes = Vec::from_slice(alloc, b"RVJL\x01\0\0\0\x03\0\0\0")?;
    for _ in 0..3 {
        bytes.extend_from_slice(b"\x1e\0\0\0")?;
        bytes.extend_from_slice(&[7; 30])?;
    }
    Ok(bytes)
}

const TOUR: &[u8] = b"goto 1000
back-write 0x00011000
back 1
back-to 0x00010014
back-change 0x00011000
run-to 0x0001002c
back-to 0x00020000
";

const PLACES: [&[u8]; 7] = [
    b"1000 ",
    b"899 00010024 ",
    b"898 ",
    b"895 00010014 ",
    b"889 ",
    b"907 0001002c ",
    b"none\n",
];

#[test]
fn a_program_that_adds_up_is_gone_through(rt: HostRuntime) -> Result<(), Fail> {
    let alloc = rt.alloc();
    let mut keepers = vec![in alloc; MemoryKeeper::new(alloc, 4), MemoryKeeper::new(alloc, 8)]?;
    let items = three_items(alloc)?;
    let over = MarkedRun {
        start: first_state(&rt, alloc, &[0x10, 0x11, 0xbffff], &ADDER, STACK)?,
        journal: read_journal(alloc, items)?,
        count: 1000,
        book: read_book(alloc, TWO_LEVELS)?,
    };
    let mut out = MemorySink::new(alloc, 8192)?;
    let place = answered_in_memory(&rt, alloc, over, TOUR, &mut keepers, &mut out)?;
    assert_eq!(rt; place, 907);
    assert!(rt; lines_begin(out.bytes(), &PLACES));
    assert_eq!(rt; keepers.first().map(|keeper| keeper.counts().puts), Some(4));
    assert_eq!(rt; keepers.last().map(|keeper| keeper.counts().puts), Some(8));
    Ok(())
}

// Texts, and the rule, the line and the column of their first faults in a run of 1,000 steps.
const FAULTS: [(&[u8], u8, u32, u32); 8] = [
    (b"go 5\nback x", 1, 1, 1),
    (b"\n#\n step\t", 1, 3, 7),
    (b"back 5 # far", 1, 1, 8),
    (b"step 2\nback 01", 2, 2, 6),
    (b"goto 1000001", 2, 1, 6),
    (b"run-to 0x1 9", 3, 1, 8),
    (b"goto 1001", 4, 1, 6),
    (b"back-write 0xfffffffd", 4, 1, 12),
];

// The fault of a text, in a run of 1,000 steps.
fn fault_of(rt: &impl Abort, alloc: Global, text: &[u8]) -> Option<Fault> {
    assert!(rt; text.len() < 100);
    read_orders(alloc, text, 1000).err()
}

#[test]
fn the_first_fault_of_a_script_is_answered(rt: HostRuntime) {
    for (text, rule, line, column) in &FAULTS {
        let fault = Fault::At {
            rule: *rule,
            line: *line,
            column: *column,
        };
        assert_eq!(rt; fault_of(&rt, rt.alloc(), text), Some(fault));
    }
}

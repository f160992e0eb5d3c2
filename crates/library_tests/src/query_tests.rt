// Questions on a program that stores a word twice, over a list of four steps.
ghost use Rattle.std.specs.Prelude.{◌≡◌, ◌<◌, ◌≤◌, IfOk};
ghost use Rattle.std.specs.Bool.{OnTrue};
ghost use Rattle.rv_machine.specs.Prelude.{IsBlankOf};
ghost use Rattle.level_book.specs.Prelude.{slots_of, Valid};
ghost use Rattle.reverse_runner.specs.Prelude.{slot_counts};
ghost use Rattle.reverse_queries.specs.Prelude.{AwaitsList};

use crate::sessions::{STACK, four, have_room};
use crate::states::first_state;
use input_journal::Journal;
use keepers::{Keeper, MemoryKeeper, MemorySink};
use level_book::Book;
use plan_types::Action;
use reverse_queries::{last_change, last_write, state_at};
use reverse_runner::{LineWriter, RunFault, Session};
use rv_machine::Steps;
use rv_pages::LAST_WORD;
use schedule_rules::{Verdict, check};
use std::alloc::{AllocError, Global};
use std::marker::Brand;
use std::process::Abort;
use std::sync::ledger::{Blank, Ledger};
use std::test::Fail;

// addi x5, x0, 1; sw x5, 0(x2); sw x5, 0(x2); addi x6, x5, 2.
const WORDS: [u32; 4] = [0x00100293, 0x00512023, 0x00512023, 0x00228313];

// The questions of these tests.
#[derive(Clone, Copy, PartialEq, Eq)]
enum Ask {
    State(u32),
    LastWrite(u32),
    LastChange(u32),
}

// What was answered, how many actions were performed for it, and how many images were fetched.
#[derive(Drop)]
struct Answer {
    step: Result<Option<u32>, RunFault>,
    done: u64,
    gets: Option<u64>,
}

// Whether a list reverses four steps by the slots of a book.
fn is_valid(alloc: Global, list: &[Action], book: &Book) -> Result<bool, AllocError>
    ensures { IfOk result (λ valid. OnTrue valid (Valid 4 (slots_of book.now) list.now)) }
{
    match check(alloc, list, 4, book)? {
        Verdict::Valid => Ok(true),
        Verdict::Broken { .. } => Ok(false),
    }
}

// Asks a session of four steps at its start. A state is written to a sink.
fn ask_session<K: Keeper, L: Ledger>(
    list: &[Action],
    session: &mut Session,
    keepers: &mut Vec<K>,
    ask: Ask,
    out: &mut MemorySink,
    steps: &mut Steps<L>,
) -> Result<Option<u32>, RunFault>
    requires four { session.old.situation.steps ≡ 4 }
    requires awaits { AwaitsList session.old list.now (slot_counts K.Storage keepers.old.items) }
{
    match ask {
        Ask::State(place) if place <= session.unit() * 4 => {
            let mut writer = LineWriter::new(out);
            state_at(session, list, keepers, place, &mut writer, steps)?;
            Ok(None)
        }
        Ask::LastWrite(word) if word <= LAST_WORD => {
            last_write(session, list, keepers, word, steps)
        }
        Ask::LastChange(word) if word <= LAST_WORD => {
            last_change(session, list, keepers, word, steps)
        }
        _ => Ok(None),
    }
}

// Asks over a list of four steps. It returns the answer, and how many actions were performed for it.
fn performed<K: Keeper, L: Ledger>(
    rt: &impl Abort,
    alloc: Global,
    list: &[Action],
    book: Book,
    keepers: &mut Vec<K>,
    unit: u32,
    ask: Ask,
    out: &mut MemorySink,
    blank: Blank,
) -> Result<(Result<Option<u32>, RunFault>, u64), AllocError>
    requires ledger { IsBlankOf blank.name blank.parts L.name L.parts }
    requires unit { (1 ≤ unit) × (unit ≤ 1024) }
{
    assert!(rt;
        have_room(keepers.as_slice(), &book, 4),
        "the level has a keeper"
    );
    let valid = is_valid(alloc, list, &book)?;
    assert!(rt; valid, "the list reverses four steps");
    let mut steps = Steps::<L>::new(blank);
    let start = first_state(rt, alloc, &[0x10, 0xbffff], &WORDS, STACK)?;
    let mut session = Session::begin(alloc, start, Journal::none(alloc), 4, unit, book)?;
    let step = ask_session(list, &mut session, keepers, ask, out, &mut steps);
    Ok((step, session.done()))
}

// Asks over the list of four steps, each of so many machine steps, on one level with two slots.
fn answered(
    rt: &impl Abort,
    alloc: Global,
    unit: u32,
    ask: Ask,
    out: &mut MemorySink,
) -> Result<Answer, AllocError>
    requires { (1 ≤ unit) × (unit ≤ 1024) }
{
    let mut keepers = vec![in alloc; MemoryKeeper::new(alloc, 2)]?;
    let (step, done) = performed::<MemoryKeeper, Brand>(
        rt,
        alloc,
        &four(),
        Book::plain(2),
        &mut keepers,
        unit,
        ask,
        out,
        Blank::new(1),
    )?;
    Ok(Answer {
        step,
        done,
        gets: keepers.first().map(|keeper| keeper.counts().gets),
    })
}

// The step that was answered for a word.
fn step(rt: &impl Abort, alloc: Global, ask: Ask) -> Result<Option<u32>, Fail> {
    let mut out = MemorySink::new(alloc, 0)?;
    Ok(answered(rt, alloc, 1, ask, &mut out)?.step?)
}

#[test]
fn a_state_is_handed_out_alone(rt: HostRuntime) -> Result<(), Fail> {
    let mut out = MemorySink::new(rt.alloc(), 4096)?;
    let answer = answered(&rt, rt.alloc(), 1, Ask::State(2), &mut out)?;
    assert_eq!(rt; answer.step, Ok(None));
    assert_eq!(rt; (answer.done, answer.gets), (9, Some(1)));
    assert!(rt; out.bytes().starts_with(b"2 "), "the line of state 2");
    Ok(())
}

#[test]
fn an_answer_stands_inside_a_unit(rt: HostRuntime) -> Result<(), Fail> {
    let mut out = MemorySink::new(rt.alloc(), 4096)?;
    let answer = answered(&rt, rt.alloc(), 2, Ask::LastWrite(STACK), &mut out)?;
    assert_eq!(rt;
        (answer.step?, answer.done, answer.gets),
        (Some(2), 12, Some(2))
    );
    let answer = answered(&rt, rt.alloc(), 2, Ask::State(2), &mut out)?;
    assert_eq!(rt;
        (answer.step?, answer.done, answer.gets),
        (None, 12, Some(2))
    );
    assert!(rt; out.bytes().starts_with(b"2 "), "the line of state 2");
    Ok(())
}

#[test]
fn the_last_write_may_leave_the_bytes_as_they_are(rt: HostRuntime) -> Result<(), Fail> {
    assert_eq!(rt; step(&rt, rt.alloc(), Ask::LastWrite(STACK))?, Some(2));
    assert_eq!(rt; step(&rt, rt.alloc(), Ask::LastWrite(STACK + 3))?, Some(2));
    assert_eq!(rt; step(&rt, rt.alloc(), Ask::LastWrite(STACK + 4))?, None);
    Ok(())
}

#[test]
fn the_last_change_is_of_a_mapped_byte(rt: HostRuntime) -> Result<(), Fail> {
    assert_eq!(rt; step(&rt, rt.alloc(), Ask::LastChange(STACK))?, Some(1));
    assert_eq!(rt; step(&rt, rt.alloc(), Ask::LastChange(STACK - 3))?, Some(1));
    assert_eq!(rt; step(&rt, rt.alloc(), Ask::LastChange(STACK + 1))?, None);
    assert_eq!(rt; step(&rt, rt.alloc(), Ask::LastChange(0x5000))?, None);
    Ok(())
}

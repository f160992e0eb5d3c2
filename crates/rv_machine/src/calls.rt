// How a system call changes a state.
ghost use Rattle.std.specs.Prelude.{◌≡◌, ◌+◌, ◌<◌, ◌^◌, if◌then◌else◌, [], length, slice_get, Some};
ghost use Rattle.rv_pages.specs.Prelude.{bytes_at, page_numbers};
ghost use Rattle.input_journal.specs.Prelude.{IsShort};
ghost use Rattle.rv_machine.specs.StateChanges.{addresses};
ghost use Rattle.rv_machine.specs.SystemCalls.{are_mapped, bytes_read, moved, read_from, sent, exited, called, written_by_call};
ghost use Rattle.rv_machine.specs.Output.{output_of_call};

use crate::changes::put;
use crate::span::Span;
use crate::state::State;
use crate::status::Status;
use input_journal::Journal;

// The calls, by what a7 holds.
const READ: u32 = 63;

const WRITE: u32 = 64;

const EXIT: u32 = 93;

const EXIT_GROUP: u32 = 94;

// The registers of a call's arguments and number. The answer replaces the first argument.
const A0: usize = 10;

const A1: usize = 11;

const A2: usize = 12;

const A7: usize = 17;

pub(crate) const ANSWER: u8 = 10;

// The answers -14, "bad address", and -38, "function not implemented".
const NOT_MAPPED: u32 = 0xffff_fff2;

const NO_SUCH_CALL: u32 = 0xffff_ffda;

/// Performs the system call that the registers of the state name. It takes no memory.
#[inline(never)]
pub(crate) fn call(state: &mut State, journal: &Journal)
    ensures state { state.new ≡ called state.old journal.now }
    ensures mapped { page_numbers state.new.memory ≡ page_numbers state.old.memory }
{
    match state.x[A7] {
        READ => read(state, journal),
        WRITE => write(state),
        EXIT | EXIT_GROUP => exit(state),
        _ => put(state, ANSWER, NO_SUCH_CALL),
    }
}

fn read(state: &mut State, journal: &Journal)
    ensures state { state.new ≡ read_from state.old (slice_get journal.now state.old.item) }
    ensures mapped { page_numbers state.new.memory ≡ page_numbers state.old.memory }
{
    if state.item >= journal.count() {
        put(state, ANSWER, 0);
        return;
    }
    let item = journal.item(state.item);
    let bytes = next_bytes(state, item);
    if state.pages.store_bytes(state.x[A1], bytes) {
        let count = bytes.len() as u32;
        move_on(state, item, count);
        put(state, ANSWER, count);
    } else {
        put(state, ANSWER, NOT_MAPPED);
    }
}

// The bytes of an item that a read takes.
fn next_bytes<'a>(state: &State, item: &'a [u8]) -> &'a [u8]
    ensures value { result.now ≡ bytes_read state.now item.now }
    ensures few { length result.now < 2 ^ 32 }
{
    let start = (state.offset as usize).min(item.len());
    let count = (state.x[A2] as usize).min(item.len() - start);
    &item[start..start + count]
}

// Moves the place in the recorded input so many bytes of an item further.
fn move_on(state: &mut State, item: &[u8], count: u32)
    requires next { state.old.item + 1 < 2 ^ 32 }
    requires short { IsShort item.now }
    ensures { state.new ≡ moved state.old item.now count }
{
    let end = state.offset as usize + count as usize;
    if end >= item.len() {
        state.item += 1;
        state.offset = 0;
    } else {
        state.offset = end as u32;
    }
}

fn write(state: &mut State)
    ensures { state.new ≡ sent state.old }
{
    let count = state.x[A2];
    if state.pages.are_mapped(state.x[A1], count) {
        state.written = state.written.wrapping_add(count as u64);
        put(state, ANSWER, count);
    } else {
        put(state, ANSWER, NOT_MAPPED);
    }
}

fn exit(state: &mut State)
    ensures { state.new ≡ exited state.old }
{
    state.status = Status::Exited((state.x[A0] % 256) as u8);
}

/// Where a call writes, if the bytes there are mapped; no address, if it doesn't read recorded input.
pub(crate) fn span_read(state: &State, journal: &Journal) -> Span
    ensures { written_by_call state.now journal.now
        ≡ (if are_mapped state.now.memory result.at result.count then addresses result.at result.count else []) }
{
    if state.x[A7] != READ || state.item >= journal.count() {
        return Span::NONE;
    }
    Span {
        at: state.x[A1],
        count: next_bytes(state, journal.item(state.item)).len() as u32,
    }
}

/// The bytes that a call writes to the output; no addresses, if it doesn't write mapped bytes.
pub(crate) fn span_sent(state: &State) -> Span
    ensures { bytes_at state.now.memory result.at result.count ≡ Some (output_of_call state.now) }
{
    let (at, count) = (state.x[A1], state.x[A2]);
    if state.x[A7] == WRITE && state.pages.are_mapped(at, count) {
        Span { at, count }
    } else {
        Span::NONE
    }
}

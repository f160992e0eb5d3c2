// What the next step of a state does, and what it may change.
ghost use Rattle.std.specs.Prelude.{◌≡◌, ◌<◌, cond, if◌then◌else◌, [], Some, None, IfSome, IsFalse};
ghost use Rattle.rv_pages.specs.Prelude.{bytes_at, page_numbers};
ghost use Rattle.rv_machine.specs.Effects.{bytes_of, NamesRegister};
ghost use Rattle.rv_machine.specs.StateChanges.{addresses};
ghost use Rattle.rv_machine.specs.StepTable.{effect_at_pc, is_running, register_of, register_changed, written_by, written};
ghost use Rattle.rv_machine.specs.SystemCalls.{are_mapped};
ghost use Rattle.rv_machine.specs.Output.{output};
ghost use Rattle.rv_machine.specs.CodePage.{IsFound};
ghost use Rattle.rv_machine.specs.Watchers.{IsNext};

use crate::calls::{ANSWER, span_read, span_sent};
use crate::code_page::CodePage;
use crate::effect::Effect::{self, Call, Jump, Load, Put, Store};
use crate::effect::Width::{self, Byte, Half, Word};
use crate::effect::effect_of;
use crate::memo::Memo;
use crate::span::Span;
use crate::state::State;
use crate::status::Status;
use input_journal::Journal;
use rv_decode::Inst::{Ecall, Sb, Sh, Sw};
use rv_decode::{Inst, decode};

/// The instruction of a state's next step. None: the state is stopped, or the step traps because it has no instruction.
#[derive(Clone, Copy)]
pub struct Next {
    pub(crate) inst: Option<Inst>,
}

impl Next {
    /// The next step of a state. It takes no memory.
    pub fn of(state: &State) -> Next
        ensures { IsNext result state.now }
    {
        let inst = match (state.status, state.pages.load32(state.pc)) {
            (Status::Running, Some(word)) => decode(word),
            _ => None,
        };
        Next { inst }
    }

    // The next instruction, from a page that was found and the instructions decoded before. Loops over steps use it.
    #[inline(always)]
    pub(crate) fn by(state: &State, code: &mut CodePage, memo: &mut Memo) -> Next
        requires { IsFound (page_numbers state.now.memory) code.old }
        ensures next { IsNext result state.now }
        ensures found { IsFound (page_numbers state.now.memory) code.new }
    {
        let Status::Running = state.status else {
            return Next { inst: None };
        };
        match code.fetch(&state.pages, state.pc) {
            Some(word) => Next {
                inst: memo.decode(state.pc, word),
            },
            None => Next { inst: None },
        }
    }

    // The effect of the step.
    #[inline(always)]
    pub(crate) fn effect(&self, state: &State) -> Option<Effect>
        requires { IsNext self.now state.now }
        ensures effect { result ≡ cond (is_running state.now.status) (effect_at_pc state.now) None }
        ensures register { IfSome result NamesRegister }
    {
        match self.inst {
            Some(inst) => Some(effect_of(inst, state.pc, &state.x)),
            None => None,
        }
    }

    /// Where the step writes, if all the bytes there are mapped; it writes nothing otherwise. `changes` checks whether
    /// they are mapped; this doesn't.
    #[inline(always)]
    pub fn aim(&self, state: &State, journal: &Journal) -> Span
        requires { IsNext self.now state.now }
        ensures { written state.now journal.now
            ≡ (if are_mapped state.now.memory result.at result.count then addresses result.at result.count else []) }
    {
        if !self.may_write(state, journal) {
            return Span::NONE;
        }
        match self.effect(state) {
            Some(Store(at, width, _)) => span_stored(at, width),
            Some(Call) => span_read(state, journal),
            _ => Span::NONE,
        }
    }

    // Whether the step stores or calls. No other one writes.
    #[inline(always)]
    fn may_write(&self, state: &State, journal: &Journal) -> bool
        requires { IsNext self.now state.now }
        ensures { IsFalse result → written state.now journal.now ≡ [] }
    {
        matches!(self.inst, Some(Sb { .. } | Sh { .. } | Sw { .. } | Ecall))
    }

    /// The bytes that the step writes to the program's output.
    #[inline(always)]
    pub fn output(&self, state: &State) -> Span
        requires { IsNext self.now state.now }
        ensures { bytes_at state.now.memory result.at result.count ≡ Some (output state.now) }
    {
        match self.effect(state) {
            Some(Call) => span_sent(state),
            _ => Span::NONE,
        }
    }

    /// Which register the step may change, and which bytes it writes. It takes no memory.
    #[inline(always)]
    pub fn changes(&self, state: &State, journal: &Journal) -> Changes
        requires { IsNext self.now state.now }
        ensures register { result.register ≡ register_changed state.now }
        ensures few { result.register < 32 }
        ensures bytes { addresses result.at result.count ≡ written state.now journal.now }
    {
        match self.effect(state) {
            Some(effect) => changes_by(state, journal, effect),
            None => Changes::none(),
        }
    }
}

/// What a step may change in the registers and in the memory.
#[derive(Clone, Copy)]
pub struct Changes {
    /// The number of a register. x0, which always is 0, means none.
    pub register: u8,
    /// The first address that is written.
    pub at: u32,
    /// How many addresses are written, one after the other, modulo 2 ^ 32.
    pub count: u32,
}

impl Changes {
    // No register and no bytes.
    #[inline(always)]
    pub(crate) fn none() -> Changes
        ensures register { result.register ≡ 0 }
        ensures bytes { addresses result.at result.count ≡ [] }
    {
        Changes {
            register: 0,
            at: 0,
            count: 0,
        }
    }

    // A register, and so many bytes from an address on, if all of them are mapped.
    #[inline(always)]
    pub(crate) fn of(register: u8, state: &State, span: Span) -> Changes
        ensures register { result.register ≡ register }
        ensures bytes { addresses result.at result.count ≡ (if are_mapped state.now.memory span.at span.count then addresses span.at span.count else []) }
    {
        let all = state.pages.are_mapped(span.at, span.count);
        Changes {
            register,
            at: span.at,
            count: if all { span.count } else { 0 },
        }
    }
}

// Which register an effect may change, and which bytes it writes.
#[inline(always)]
fn changes_by(state: &State, journal: &Journal, effect: Effect) -> Changes
    requires { NamesRegister effect }
    ensures register { result.register ≡ register_of effect }
    ensures few { result.register < 32 }
    ensures bytes { addresses result.at result.count ≡ written_by state.now journal.now (Some effect) }
{
    match effect {
        Put(rd, _) | Jump(rd, _) | Load(rd, _, _, _) => Changes {
            register: rd,
            at: 0,
            count: 0,
        },
        Store(at, width, _) => Changes::of(0, state, span_stored(at, width)),
        Call => Changes::of(ANSWER, state, span_read(state, journal)),
        _ => Changes::none(),
    }
}

// Where a store writes, if it does not trap.
#[inline(always)]
fn span_stored(at: u32, width: Width) -> Span
    ensures { result ≡ record { at = at; count = bytes_of width } }
{
    let count = match width {
        Byte => 1,
        Half => 2,
        Word => 4,
    };
    Span { at, count }
}

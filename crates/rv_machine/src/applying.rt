// How an effect changes a state.
ghost use Rattle.std.specs.Prelude.{◌≡◌, ◌*◌, ◌<◌, cond, is_some, IsTrue, IsFalse};
ghost use Rattle.std.specs.Option.{option_map};
ghost use Rattle.rv_decode.specs.Prelude.{sign_extended};
ghost use Rattle.rv_pages.specs.Prelude.{number_at, with_number, page_numbers};
ghost use Rattle.rv_machine.specs.Effects.{bytes_of, NamesRegister};
ghost use Rattle.rv_machine.specs.StepTable.{applied, jumped};

use crate::calls::call;
use crate::changes::{go_on, put, trap};
use crate::effect::Effect::{self, Branch, Break, Call, Jump, Load, Nothing, Put, Store};
use crate::effect::Width::{self, Byte, Half, Word};
use crate::state::State;
use input_journal::Journal;
use rv_pages::Pages;

// The causes of traps that an effect has.
const MISALIGNED: u8 = 0;

const BREAKPOINT: u8 = 3;

const LOAD_UNMAPPED: u8 = 5;

const STORE_UNMAPPED: u8 = 7;

/// Applies the effect to the state, with the recorded input.
#[inline(always)]
pub(crate) fn apply(state: &mut State, journal: &Journal, effect: Effect)
    requires { NamesRegister effect }
    ensures state { state.new ≡ applied state.old journal.now effect }
    ensures mapped { page_numbers state.new.memory ≡ page_numbers state.old.memory }
{
    match effect {
        Put(rd, value) => put(state, rd, value),
        Jump(rd, target) => jump(state, rd, target),
        Branch(true, target) => jump(state, 0, target),
        Branch(false, _) | Nothing => go_on(state),
        Load(rd, at, width, with_sign) => match load(&state.pages, at, width, with_sign) {
            Some(value) => put(state, rd, value),
            None => trap(state, LOAD_UNMAPPED),
        },
        Store(at, width, value) => {
            if store(&mut state.pages, at, width, value) {
                go_on(state);
            } else {
                trap(state, STORE_UNMAPPED);
            }
        }
        Call => call(state, journal),
        Break => trap(state, BREAKPOINT),
    }
}

#[inline(always)]
fn jump(state: &mut State, rd: u8, target: u32)
    requires { rd < 32 }
    ensures { state.new ≡ jumped state.old rd target }
{
    if target % 4 != 0 {
        trap(state, MISALIGNED);
    } else {
        let next = state.pc.wrapping_add(4);
        state.set_register(rd, next);
        state.pc = target;
    }
}

// The number of so many mapped bytes at an address, as a word, with sign extension or without.
#[inline(always)]
fn load(pages: &Pages, at: u32, width: Width, with_sign: bool) -> Option<u32>
    ensures { result ≡ option_map (λ n. cond with_sign (sign_extended (8 * bytes_of width) n) n) (number_at pages.now at (bytes_of width)) }
{
    match (width, with_sign) {
        (Byte, true) => Some(signed_byte(pages.load8(at)?)),
        (Byte, false) => Some(pages.load8(at)? as u32),
        (Half, true) => Some(signed_half(pages.load16(at)?)),
        (Half, false) => Some(pages.load16(at)? as u32),
        (Word, _) => pages.load32(at),
    }
}

#[inline(always)]
fn signed_byte(byte: u8) -> u32
    ensures { result ≡ sign_extended 8 byte }
{
    (byte.cast_signed() as i32).cast_unsigned()
}

#[inline(always)]
fn signed_half(half: u16) -> u32
    ensures { result ≡ sign_extended 16 half }
{
    (half.cast_signed() as i32).cast_unsigned()
}

// Stores the lowest bytes of a value, if all their addresses are mapped, and returns whether it did.
#[inline(always)]
fn store(pages: &mut Pages, at: u32, width: Width, value: u32) -> bool
    ensures stored { result ≡ is_some (number_at pages.old at (bytes_of width)) }
    ensures written { IsTrue result → pages.new ≡ with_number pages.old at (bytes_of width) value }
    ensures refused { IsFalse result → pages.new ≡ pages.old }
    ensures mapped { page_numbers pages.new ≡ page_numbers pages.old }
{
    match width {
        Byte => pages.store8(at, (value & 0xff) as u8),
        Half => pages.store16(at, (value & 0xffff) as u16),
        Word => pages.store32(at, value),
    }
}

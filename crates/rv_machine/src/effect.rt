// What an instruction does to a state.
ghost use Rattle.std.specs.Prelude.{◌≡◌, ◌+◌, ◌<◌, slice_index};
ghost use Rattle.rv_decode.specs.Prelude.{HasRanges};
ghost use Rattle.rv_pages.specs.Prelude.{wrapped};
ghost use Rattle.rv_machine.specs.Numbers.{signed_lt, shifted_right_signed as shifted_right_signed_of};
ghost use Rattle.rv_machine.specs.Effects.{effect_of as effect_table, NamesRegister};

use crate::products::{
    high_signed, high_signed_unsigned, high_unsigned, quotient_signed, quotient_unsigned,
    remainder_signed, remainder_unsigned,
};
use Effect::{Branch, Break, Call, Jump, Load, Nothing, Put, Store};
use Width::{Byte, Half, Word};
use rv_decode::Inst;
use rv_decode::Inst::{
    Add, Addi, And, Andi, Auipc, Beq, Bge, Bgeu, Blt, Bltu, Bne, Div, Divu, Ebreak, Ecall, Fence,
    Jal, Jalr, Lb, Lbu, Lh, Lhu, Lui, Lw, Mul, Mulh, Mulhsu, Mulhu, Or, Ori, Rem, Remu, Sb, Sh,
    Sll, Slli, Slt, Slti, Sltiu, Sltu, Sra, Srai, Srl, Srli, Sub, Sw, Xor, Xori,
};

/// How many bytes a load or a store moves: one, two or four.
#[derive(Clone, Copy)]
pub(crate) enum Width {
    Byte,
    Half,
    Word,
}

/// What an instruction does. Unless a case says otherwise, pc moves to the next word.
#[derive(Clone, Copy)]
pub(crate) enum Effect {
    /// The register with a number gets a value.
    Put(u8, u32),
    /// The register with a number gets the address of the next word, and pc becomes a target.
    Jump(u8, u32),
    /// pc becomes a target, if the branch is taken.
    Branch(bool, u32),
    /// Loads a register from an address, with sign extension or without.
    Load(u8, u32, Width, bool),
    /// Stores the lowest bytes of a value at an address.
    Store(u32, Width, u32),
    /// Nothing else.
    Nothing,
    /// A call of the system.
    Call,
    /// A breakpoint.
    Break,
}

/// The effect of an instruction at an address, with these registers.
#[inline(always)]
pub(crate) fn effect_of(inst: Inst, pc: u32, x: &[u32; 32]) -> Effect
    requires { HasRanges inst }
    ensures table { result ≡ effect_table (λ n. slice_index x.now n) pc inst }
    ensures register { NamesRegister result }
{
    match inst {
        Lui { rd, imm } => Put(rd, imm),
        Auipc { rd, imm } => Put(rd, pc.wrapping_add(imm)),
        Jal { rd, imm } => Jump(rd, pc.wrapping_add(imm)),
        Jalr { rd, rs1, imm } => Jump(rd, address(x, rs1, imm) >> 1 << 1),
        Beq { rs1, rs2, imm } => Branch(get(x, rs1) == get(x, rs2), pc.wrapping_add(imm)),
        Bne { rs1, rs2, imm } => Branch(get(x, rs1) != get(x, rs2), pc.wrapping_add(imm)),
        Blt { rs1, rs2, imm } => Branch(is_less(get(x, rs1), get(x, rs2)), pc.wrapping_add(imm)),
        Bge { rs1, rs2, imm } => Branch(!is_less(get(x, rs1), get(x, rs2)), pc.wrapping_add(imm)),
        Bltu { rs1, rs2, imm } => Branch(get(x, rs1) < get(x, rs2), pc.wrapping_add(imm)),
        Bgeu { rs1, rs2, imm } => Branch(get(x, rs1) >= get(x, rs2), pc.wrapping_add(imm)),
        Lb { rd, rs1, imm } => Load(rd, address(x, rs1, imm), Byte, true),
        Lh { rd, rs1, imm } => Load(rd, address(x, rs1, imm), Half, true),
        Lw { rd, rs1, imm } => Load(rd, address(x, rs1, imm), Word, false),
        Lbu { rd, rs1, imm } => Load(rd, address(x, rs1, imm), Byte, false),
        Lhu { rd, rs1, imm } => Load(rd, address(x, rs1, imm), Half, false),
        Sb { rs1, rs2, imm } => Store(address(x, rs1, imm), Byte, get(x, rs2)),
        Sh { rs1, rs2, imm } => Store(address(x, rs1, imm), Half, get(x, rs2)),
        Sw { rs1, rs2, imm } => Store(address(x, rs1, imm), Word, get(x, rs2)),
        Fence { .. } => Nothing,
        Ecall => Call,
        Ebreak => Break,
        Addi { rd, rs1, imm } => Put(rd, get(x, rs1).wrapping_add(imm)),
        Slti { rd, rs1, imm } => Put(rd, is_less(get(x, rs1), imm) as u32),
        Sltiu { rd, rs1, imm } => Put(rd, (get(x, rs1) < imm) as u32),
        Xori { rd, rs1, imm } => Put(rd, get(x, rs1) ^ imm),
        Ori { rd, rs1, imm } => Put(rd, get(x, rs1) | imm),
        Andi { rd, rs1, imm } => Put(rd, get(x, rs1) & imm),
        Slli { rd, rs1, imm } => Put(rd, get(x, rs1) << imm),
        Srli { rd, rs1, imm } => Put(rd, get(x, rs1) >> imm),
        Srai { rd, rs1, imm } => Put(rd, shifted_right_signed(get(x, rs1), imm)),
        Add { rd, rs1, rs2 } => Put(rd, get(x, rs1).wrapping_add(get(x, rs2))),
        Sub { rd, rs1, rs2 } => Put(rd, get(x, rs1).wrapping_sub(get(x, rs2))),
        Sll { rd, rs1, rs2 } => Put(rd, get(x, rs1) << (get(x, rs2) % 32)),
        Slt { rd, rs1, rs2 } => Put(rd, is_less(get(x, rs1), get(x, rs2)) as u32),
        Sltu { rd, rs1, rs2 } => Put(rd, (get(x, rs1) < get(x, rs2)) as u32),
        Xor { rd, rs1, rs2 } => Put(rd, get(x, rs1) ^ get(x, rs2)),
        Srl { rd, rs1, rs2 } => Put(rd, get(x, rs1) >> (get(x, rs2) % 32)),
        Sra { rd, rs1, rs2 } => Put(rd, shifted_right_signed(get(x, rs1), get(x, rs2) % 32)),
        Or { rd, rs1, rs2 } => Put(rd, get(x, rs1) | get(x, rs2)),
        And { rd, rs1, rs2 } => Put(rd, get(x, rs1) & get(x, rs2)),
        Mul { rd, rs1, rs2 } => Put(rd, get(x, rs1).wrapping_mul(get(x, rs2))),
        Mulh { rd, rs1, rs2 } => Put(rd, high_signed(get(x, rs1), get(x, rs2))),
        Mulhsu { rd, rs1, rs2 } => Put(rd, high_signed_unsigned(get(x, rs1), get(x, rs2))),
        Mulhu { rd, rs1, rs2 } => Put(rd, high_unsigned(get(x, rs1), get(x, rs2))),
        Div { rd, rs1, rs2 } => Put(rd, quotient_signed(get(x, rs1), get(x, rs2))),
        Divu { rd, rs1, rs2 } => Put(rd, quotient_unsigned(get(x, rs1), get(x, rs2))),
        Rem { rd, rs1, rs2 } => Put(rd, remainder_signed(get(x, rs1), get(x, rs2))),
        Remu { rd, rs1, rs2 } => Put(rd, remainder_unsigned(get(x, rs1), get(x, rs2))),
    }
}

// The register with a number.
#[inline(always)]
fn get(x: &[u32; 32], register: u8) -> u32
    requires { register < 32 }
    ensures { result ≡ slice_index x.now register }
{
    x[register as usize]
}

// The address that a load, a store or a jump goes to.
#[inline(always)]
fn address(x: &[u32; 32], register: u8, offset: u32) -> u32
    requires { register < 32 }
    ensures { result ≡ wrapped (slice_index x.now register + offset) }
{
    x[register as usize].wrapping_add(offset)
}

// Whether a word is below another one, both in two's complement.
#[inline(always)]
fn is_less(a: u32, b: u32) -> bool
    ensures { result ≡ signed_lt a b }
{
    a.cast_signed() < b.cast_signed()
}

#[inline(always)]
fn shifted_right_signed(a: u32, places: u32) -> u32
    requires { places < 32 }
    ensures { result ≡ shifted_right_signed_of a places }
{
    (a.cast_signed() >> places).cast_unsigned()
}

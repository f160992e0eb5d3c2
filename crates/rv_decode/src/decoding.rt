// From a word to its instruction.
ghost use Rattle.std.specs.Prelude.{◌≡◌, IfSome};
ghost use Rattle.rv_decode.specs.Formats.{opcode as opcode_of};
ghost use Rattle.rv_decode.specs.Rows.{decoded, first_of, branches, loads, stores, on_immediates, on_registers, others, jumps};
ghost use Rattle.rv_decode.specs.Ranges.{HasRanges};

use crate::fields::{
    funct3, funct7, imm_b, imm_i, imm_j, imm_s, imm_u, opcode, rd, rs1, rs2, shift_amount,
};
use crate::instruction::Inst;
use Inst::{
    Add, Addi, And, Andi, Auipc, Beq, Bge, Bgeu, Blt, Bltu, Bne, Div, Divu, Ebreak, Ecall, Fence,
    Jal, Jalr, Lb, Lbu, Lh, Lhu, Lui, Lw, Mul, Mulh, Mulhsu, Mulhu, Or, Ori, Rem, Remu, Sb, Sh,
    Sll, Slli, Slt, Slti, Sltiu, Sltu, Sra, Srai, Srl, Srli, Sub, Sw, Xor, Xori,
};

// The words that are an instruction as a whole.
const ECALL: u32 = 0x00000073;

const EBREAK: u32 = 0x00100073;

/// The instruction that a word means, or `None` for an illegal word. It takes no memory.
#[inline(always)]
pub fn decode(word: u32) -> Option<Inst>
    ensures table { result ≡ decoded word }
    ensures ranges { IfSome result HasRanges }
{
    match opcode(word) {
        0b0110111 => Some(Lui {
            rd: rd(word),
            imm: imm_u(word),
        }),
        0b0010111 => Some(Auipc {
            rd: rd(word),
            imm: imm_u(word),
        }),
        0b1101111 => Some(Jal {
            rd: rd(word),
            imm: imm_j(word),
        }),
        0b1100111 => jalr(word),
        0b1100011 => branch(word),
        0b0000011 => load(word),
        0b0100011 => store(word),
        0b0010011 => on_immediate(word),
        0b0110011 => on_register(word),
        0b0001111 => fence(word),
        0b1110011 => system(word),
        _ => None,
    }
}

#[inline(always)]
fn jalr(word: u32) -> Option<Inst>
    requires { opcode_of word ≡ 0b1100111 }
    ensures { result ≡ first_of jumps word }
{
    let (rd, rs1, imm) = (rd(word), rs1(word), imm_i(word));
    match funct3(word) {
        0b000 => Some(Jalr { rd, rs1, imm }),
        _ => None,
    }
}

#[inline(always)]
fn branch(word: u32) -> Option<Inst>
    requires { opcode_of word ≡ 0b1100011 }
    ensures { result ≡ first_of branches word }
{
    let (rs1, rs2, imm) = (rs1(word), rs2(word), imm_b(word));
    match funct3(word) {
        0b000 => Some(Beq { rs1, rs2, imm }),
        0b001 => Some(Bne { rs1, rs2, imm }),
        0b100 => Some(Blt { rs1, rs2, imm }),
        0b101 => Some(Bge { rs1, rs2, imm }),
        0b110 => Some(Bltu { rs1, rs2, imm }),
        0b111 => Some(Bgeu { rs1, rs2, imm }),
        _ => None,
    }
}

#[inline(always)]
fn load(word: u32) -> Option<Inst>
    requires { opcode_of word ≡ 0b0000011 }
    ensures { result ≡ first_of loads word }
{
    let (rd, rs1, imm) = (rd(word), rs1(word), imm_i(word));
    match funct3(word) {
        0b000 => Some(Lb { rd, rs1, imm }),
        0b001 => Some(Lh { rd, rs1, imm }),
        0b010 => Some(Lw { rd, rs1, imm }),
        0b100 => Some(Lbu { rd, rs1, imm }),
        0b101 => Some(Lhu { rd, rs1, imm }),
        _ => None,
    }
}

#[inline(always)]
fn store(word: u32) -> Option<Inst>
    requires { opcode_of word ≡ 0b0100011 }
    ensures { result ≡ first_of stores word }
{
    let (rs1, rs2, imm) = (rs1(word), rs2(word), imm_s(word));
    match funct3(word) {
        0b000 => Some(Sb { rs1, rs2, imm }),
        0b001 => Some(Sh { rs1, rs2, imm }),
        0b010 => Some(Sw { rs1, rs2, imm }),
        _ => None,
    }
}

#[inline(always)]
fn on_immediate(word: u32) -> Option<Inst>
    requires { opcode_of word ≡ 0b0010011 }
    ensures { result ≡ first_of on_immediates word }
{
    let (rd, rs1, imm, amount) = (rd(word), rs1(word), imm_i(word), shift_amount(word));
    match (funct3(word), funct7(word)) {
        (0b000, _) => Some(Addi { rd, rs1, imm }),
        (0b010, _) => Some(Slti { rd, rs1, imm }),
        (0b011, _) => Some(Sltiu { rd, rs1, imm }),
        (0b100, _) => Some(Xori { rd, rs1, imm }),
        (0b110, _) => Some(Ori { rd, rs1, imm }),
        (0b111, _) => Some(Andi { rd, rs1, imm }),
        (0b001, 0b0000000) => Some(Slli {
            rd,
            rs1,
            imm: amount,
        }),
        (0b101, 0b0000000) => Some(Srli {
            rd,
            rs1,
            imm: amount,
        }),
        (0b101, 0b0100000) => Some(Srai {
            rd,
            rs1,
            imm: amount,
        }),
        _ => None,
    }
}

#[inline(always)]
fn on_register(word: u32) -> Option<Inst>
    requires { opcode_of word ≡ 0b0110011 }
    ensures { result ≡ first_of on_registers word }
{
    let (rd, rs1, rs2) = (rd(word), rs1(word), rs2(word));
    match (funct3(word), funct7(word)) {
        (0b000, 0b0000000) => Some(Add { rd, rs1, rs2 }),
        (0b000, 0b0100000) => Some(Sub { rd, rs1, rs2 }),
        (0b001, 0b0000000) => Some(Sll { rd, rs1, rs2 }),
        (0b010, 0b0000000) => Some(Slt { rd, rs1, rs2 }),
        (0b011, 0b0000000) => Some(Sltu { rd, rs1, rs2 }),
        (0b100, 0b0000000) => Some(Xor { rd, rs1, rs2 }),
        (0b101, 0b0000000) => Some(Srl { rd, rs1, rs2 }),
        (0b101, 0b0100000) => Some(Sra { rd, rs1, rs2 }),
        (0b110, 0b0000000) => Some(Or { rd, rs1, rs2 }),
        (0b111, 0b0000000) => Some(And { rd, rs1, rs2 }),
        (0b000, 0b0000001) => Some(Mul { rd, rs1, rs2 }),
        (0b001, 0b0000001) => Some(Mulh { rd, rs1, rs2 }),
        (0b010, 0b0000001) => Some(Mulhsu { rd, rs1, rs2 }),
        (0b011, 0b0000001) => Some(Mulhu { rd, rs1, rs2 }),
        (0b100, 0b0000001) => Some(Div { rd, rs1, rs2 }),
        (0b101, 0b0000001) => Some(Divu { rd, rs1, rs2 }),
        (0b110, 0b0000001) => Some(Rem { rd, rs1, rs2 }),
        (0b111, 0b0000001) => Some(Remu { rd, rs1, rs2 }),
        _ => None,
    }
}

#[inline(always)]
fn fence(word: u32) -> Option<Inst>
    requires { opcode_of word ≡ 0b0001111 }
    ensures { result ≡ first_of others word }
{
    match funct3(word) {
        0b000 => Some(Fence { word }),
        _ => None,
    }
}

#[inline(always)]
fn system(word: u32) -> Option<Inst>
    requires { opcode_of word ≡ 0b1110011 }
    ensures { result ≡ first_of others word }
{
    match word {
        ECALL => Some(Ecall),
        EBREAK => Some(Ebreak),
        _ => None,
    }
}

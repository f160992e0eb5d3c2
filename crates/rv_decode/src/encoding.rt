// From an instruction to its word.
ghost use Rattle.std.specs.Prelude.{◌≡◌, ℕ, ◌%◌, ◌^◌, ◌<◌, Some};
ghost use Rattle.rv_decode.specs.Rows.{decoded};
ghost use Rattle.rv_decode.specs.Ranges.{HasRanges};
ghost use Rattle.rv_decode.specs.Words.{word_of, IsOperation, word_r, word_i, word_s, word_b, word_u, word_j};

use crate::instruction::Inst;
use Inst::{
    Add, Addi, And, Andi, Auipc, Beq, Bge, Bgeu, Blt, Bltu, Bne, Div, Divu, Ebreak, Ecall, Fence,
    Jal, Jalr, Lb, Lbu, Lh, Lhu, Lui, Lw, Mul, Mulh, Mulhsu, Mulhu, Or, Ori, Rem, Remu, Sb, Sh,
    Sll, Slli, Slt, Slti, Sltiu, Sltu, Sra, Srai, Srl, Srli, Sub, Sw, Xor, Xori,
};

// The opcodes of the instructions that share one.
const BRANCH: u32 = 0b1100011;

const LOAD: u32 = 0b0000011;

const STORE: u32 = 0b0100011;

const OP_IMM: u32 = 0b0010011;

const OP: u32 = 0b0110011;

/// The word of an instruction.
pub fn encode(inst: &Inst) -> u32
    requires { HasRanges inst.now }
    ensures read_again { decoded result ≡ Some inst.now }
    ensures only_word { (word : ℕ) → word < 2 ^ 32 → decoded word ≡ Some inst.now → result ≡ word }
{
    word_from(inst)
}

// The word by the instruction's format.
fn word_from(inst: &Inst) -> u32
    requires { HasRanges inst.now }
    ensures { result ≡ word_of inst.now }
{
    match *inst {
        Lui { rd, imm } => u_word(0b0110111, rd, imm),
        Auipc { rd, imm } => u_word(0b0010111, rd, imm),
        Jal { rd, imm } => j_word(0b1101111, rd, imm),
        Jalr { rd, rs1, imm } => i_word(0b1100111, 0b000, rd, rs1, imm),
        Beq { rs1, rs2, imm } => b_word(BRANCH, 0b000, rs1, rs2, imm),
        Bne { rs1, rs2, imm } => b_word(BRANCH, 0b001, rs1, rs2, imm),
        Blt { rs1, rs2, imm } => b_word(BRANCH, 0b100, rs1, rs2, imm),
        Bge { rs1, rs2, imm } => b_word(BRANCH, 0b101, rs1, rs2, imm),
        Bltu { rs1, rs2, imm } => b_word(BRANCH, 0b110, rs1, rs2, imm),
        Bgeu { rs1, rs2, imm } => b_word(BRANCH, 0b111, rs1, rs2, imm),
        Lb { rd, rs1, imm } => i_word(LOAD, 0b000, rd, rs1, imm),
        Lh { rd, rs1, imm } => i_word(LOAD, 0b001, rd, rs1, imm),
        Lw { rd, rs1, imm } => i_word(LOAD, 0b010, rd, rs1, imm),
        Lbu { rd, rs1, imm } => i_word(LOAD, 0b100, rd, rs1, imm),
        Lhu { rd, rs1, imm } => i_word(LOAD, 0b101, rd, rs1, imm),
        Sb { rs1, rs2, imm } => s_word(STORE, 0b000, rs1, rs2, imm),
        Sh { rs1, rs2, imm } => s_word(STORE, 0b001, rs1, rs2, imm),
        Sw { rs1, rs2, imm } => s_word(STORE, 0b010, rs1, rs2, imm),
        Fence { word } => word,
        Ecall => 0x00000073,
        Ebreak => 0x00100073,
        _ => operation(inst),
    }
}

// The word of an instruction that computes on registers, or on a register and an immediate.
fn operation(inst: &Inst) -> u32
    requires ranges { HasRanges inst.now }
    requires kind { IsOperation inst.now }
    ensures { result ≡ word_of inst.now }
{
    match *inst {
        Addi { rd, rs1, imm } => i_word(OP_IMM, 0b000, rd, rs1, imm),
        Slti { rd, rs1, imm } => i_word(OP_IMM, 0b010, rd, rs1, imm),
        Sltiu { rd, rs1, imm } => i_word(OP_IMM, 0b011, rd, rs1, imm),
        Xori { rd, rs1, imm } => i_word(OP_IMM, 0b100, rd, rs1, imm),
        Ori { rd, rs1, imm } => i_word(OP_IMM, 0b110, rd, rs1, imm),
        Andi { rd, rs1, imm } => i_word(OP_IMM, 0b111, rd, rs1, imm),
        Slli { rd, rs1, imm } => r_word(OP_IMM, 0b001, 0b0000000, rd, rs1, imm),
        Srli { rd, rs1, imm } => r_word(OP_IMM, 0b101, 0b0000000, rd, rs1, imm),
        Srai { rd, rs1, imm } => r_word(OP_IMM, 0b101, 0b0100000, rd, rs1, imm),
        Add { rd, rs1, rs2 } => r_word(OP, 0b000, 0b0000000, rd, rs1, rs2 as u32),
        Sub { rd, rs1, rs2 } => r_word(OP, 0b000, 0b0100000, rd, rs1, rs2 as u32),
        Sll { rd, rs1, rs2 } => r_word(OP, 0b001, 0b0000000, rd, rs1, rs2 as u32),
        Slt { rd, rs1, rs2 } => r_word(OP, 0b010, 0b0000000, rd, rs1, rs2 as u32),
        Sltu { rd, rs1, rs2 } => r_word(OP, 0b011, 0b0000000, rd, rs1, rs2 as u32),
        Xor { rd, rs1, rs2 } => r_word(OP, 0b100, 0b0000000, rd, rs1, rs2 as u32),
        Srl { rd, rs1, rs2 } => r_word(OP, 0b101, 0b0000000, rd, rs1, rs2 as u32),
        Sra { rd, rs1, rs2 } => r_word(OP, 0b101, 0b0100000, rd, rs1, rs2 as u32),
        Or { rd, rs1, rs2 } => r_word(OP, 0b110, 0b0000000, rd, rs1, rs2 as u32),
        And { rd, rs1, rs2 } => r_word(OP, 0b111, 0b0000000, rd, rs1, rs2 as u32),
        Mul { rd, rs1, rs2 } => r_word(OP, 0b000, 0b0000001, rd, rs1, rs2 as u32),
        Mulh { rd, rs1, rs2 } => r_word(OP, 0b001, 0b0000001, rd, rs1, rs2 as u32),
        Mulhsu { rd, rs1, rs2 } => r_word(OP, 0b010, 0b0000001, rd, rs1, rs2 as u32),
        Mulhu { rd, rs1, rs2 } => r_word(OP, 0b011, 0b0000001, rd, rs1, rs2 as u32),
        Div { rd, rs1, rs2 } => r_word(OP, 0b100, 0b0000001, rd, rs1, rs2 as u32),
        Divu { rd, rs1, rs2 } => r_word(OP, 0b101, 0b0000001, rd, rs1, rs2 as u32),
        Rem { rd, rs1, rs2 } => r_word(OP, 0b110, 0b0000001, rd, rs1, rs2 as u32),
        Remu { rd, rs1, rs2 } => r_word(OP, 0b111, 0b0000001, rd, rs1, rs2 as u32),
        _ => unreachable!(),
    }
}

// Words of the formats. The last field of format R is a register, or how far to shift.
fn r_word(code: u32, funct3: u32, funct7: u32, rd: u8, rs1: u8, last: u32) -> u32
    requires code { code < 2 ^ 7 }
    requires funct3 { funct3 < 2 ^ 3 }
    requires funct7 { funct7 < 2 ^ 7 }
    requires rd { rd < 32 }
    requires rs1 { rs1 < 32 }
    requires last { last < 32 }
    ensures { result ≡ word_r code funct3 funct7 rd rs1 last }
{
    let registers = ((rd as u32) << 7) + ((rs1 as u32) << 15) + (last << 20);
    code + (funct3 << 12) + (funct7 << 25) + registers
}

fn i_word(code: u32, funct3: u32, rd: u8, rs1: u8, imm: u32) -> u32
    requires code { code < 2 ^ 7 }
    requires funct3 { funct3 < 2 ^ 3 }
    requires rd { rd < 32 }
    requires rs1 { rs1 < 32 }
    ensures { result ≡ word_i code funct3 rd rs1 imm }
{
    r_word(code, funct3, imm >> 5 & 0x7f, rd, rs1, imm & 0x1f)
}

fn s_word(code: u32, funct3: u32, rs1: u8, rs2: u8, imm: u32) -> u32
    requires code { code < 2 ^ 7 }
    requires funct3 { funct3 < 2 ^ 3 }
    requires rs1 { rs1 < 32 }
    requires rs2 { rs2 < 32 }
    ensures { result ≡ word_s code funct3 rs1 rs2 imm }
{
    let low = (imm & 0x1f) as u8;
    r_word(code, funct3, imm >> 5 & 0x7f, low, rs1, rs2 as u32)
}

fn b_word(code: u32, funct3: u32, rs1: u8, rs2: u8, imm: u32) -> u32
    requires code { code < 2 ^ 7 }
    requires funct3 { funct3 < 2 ^ 3 }
    requires rs1 { rs1 < 32 }
    requires rs2 { rs2 < 32 }
    ensures { result ≡ word_b code funct3 rs1 rs2 imm }
{
    let high = ((imm >> 12 & 1) << 6) + (imm >> 5 & 0x3f);
    let low = ((imm >> 1 & 0xf) << 1) + (imm >> 11 & 1);
    r_word(code, funct3, high, low as u8, rs1, rs2 as u32)
}

fn u_word(code: u32, rd: u8, imm: u32) -> u32
    requires code { code < 2 ^ 7 }
    requires rd { rd < 32 }
    requires imm { imm % 2 ^ 12 ≡ 0 }
    ensures { result ≡ word_u code rd imm }
{
    code + ((rd as u32) << 7) + imm
}

fn j_word(code: u32, rd: u8, imm: u32) -> u32
    requires code { code < 2 ^ 7 }
    requires rd { rd < 32 }
    ensures { result ≡ word_j code rd imm }
{
    let low = ((imm >> 11 & 1) << 20) + ((imm >> 1 & 0x3ff) << 21);
    let high = ((imm >> 12 & 0xff) << 12) + ((imm >> 20 & 1) << 31);
    code + ((rd as u32) << 7) + low + high
}

// The operands of a word, by the formats.
ghost use Rattle.std.specs.Prelude.{◌≡◌, ◌+◌, ◌*◌, ◌^◌};
ghost use Rattle.rv_decode.specs.Prelude.{opcode as opcode_of, funct3 as funct3_of, funct7 as funct7_of};
ghost use Rattle.rv_asm.specs.Canonical.{unpacked as unpacked_of};
ghost use Rattle.rv_asm.specs.PackedWords.{takes};

use crate::table::{Code, Format, Operands};
use rv_decode::fields::{
    funct3, funct7, imm_b, imm_i, imm_j, imm_s, opcode, rd, rs1, rs2, shift_amount,
};

// The operands of a word of this format.
pub(crate) fn unpacked(format: Format, word: u32) -> Operands
    ensures { result ≡ unpacked_of format word }
{
    match format {
        Format::Upper => of_two(rd(word), word >> 12),
        Format::Jump => of_two(rd(word), imm_j(word)),
        Format::Indexed => of_three(rd(word), rs1(word), imm_i(word)),
        Format::Branch => of_sources(rs1(word), rs2(word), imm_b(word)),
        Format::Store => of_sources(rs1(word), rs2(word), imm_s(word)),
        Format::Immediate => of_three(rd(word), rs1(word), imm_i(word)),
        Format::Shift => of_three(rd(word), rs1(word), shift_amount(word)),
        Format::Registers => Operands {
            rd: rd(word),
            rs1: rs1(word),
            rs2: rs2(word),
            imm: 0,
        },
        Format::Plain => of_two(0, 0),
        Format::Word => of_two(0, word),
    }
}

fn of_two(rd: u8, imm: u32) -> Operands
    ensures { result ≡ record { rd = rd; rs1 = 0; rs2 = 0; imm = imm } }
{
    Operands {
        rd,
        rs1: 0,
        rs2: 0,
        imm,
    }
}

fn of_three(rd: u8, rs1: u8, imm: u32) -> Operands
    ensures { result ≡ record { rd = rd; rs1 = rs1; rs2 = 0; imm = imm } }
{
    Operands {
        rd,
        rs1,
        rs2: 0,
        imm,
    }
}

fn of_sources(rs1: u8, rs2: u8, imm: u32) -> Operands
    ensures { result ≡ record { rd = 0; rs1 = rs1; rs2 = rs2; imm = imm } }
{
    Operands {
        rd: 0,
        rs1,
        rs2,
        imm,
    }
}

// Whether the word is one of the instruction. No word belongs to the row of `.word`.
pub(crate) fn is_word_of(code: Code, word: u32) -> bool
    ensures { result ≡ takes code.format code.base word }
{
    match code.format {
        Format::Upper => opcode(word) == code.base,
        Format::Jump => opcode(word) == code.base,
        Format::Indexed => low_fields(word) == code.base,
        Format::Branch => low_fields(word) == code.base,
        Format::Store => low_fields(word) == code.base,
        Format::Immediate => low_fields(word) == code.base,
        Format::Shift => all_fields(word) == code.base,
        Format::Registers => all_fields(word) == code.base,
        Format::Plain => word == code.base,
        Format::Word => false,
    }
}

// The opcode and funct3 of a word; these and funct7.
fn low_fields(word: u32) -> u32
    ensures { result ≡ opcode_of word + funct3_of word * 2 ^ 12 }
{
    opcode(word) + (funct3(word) << 12)
}

fn all_fields(word: u32) -> u32
    ensures { result ≡ opcode_of word + funct3_of word * 2 ^ 12 + funct7_of word * 2 ^ 25 }
{
    opcode(word) + (funct3(word) << 12) + (funct7(word) << 25)
}

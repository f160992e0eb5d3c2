// The canonical line of a word.
ghost use Rattle.std.specs.Prelude.{◌≡◌, ◌≤◌, ◌+◌, ◌++◌, length, find, Some, None, MatchOption};
ghost use Rattle.line_texts.specs.Prelude.{hex_word};
ghost use Rattle.rv_asm.specs.Canonical.{IsCanonical, register_in, printed_want, signed_text, operands_text};
ghost use Rattle.rv_asm.specs.PackedWords.{takes};
ghost use Rattle.rv_asm.specs.Encoder.{entries};

use crate::table::{Code, Field, Format, Operands, TABLE, Want, wants};
use crate::unpacking::{is_word_of, unpacked};
use plan_types::Line;

/// Replaces a line by the canonical line of a word, without a line end. It takes no memory.
pub fn disassemble(word: u32, line: &mut Line)
    ensures canonical { IsCanonical word line.new }
    ensures short { length line.new ≤ 80 }
{
    line.clear();
    match row_of(word) {
        Some((name, code)) => {
            line.push(name);
            push_operands(line, wants(code.format), unpacked(code.format, word));
        }
        None => {
            line.push(b".word 0x");
            push_digits(line, word);
        }
    }
}

// The name of the instruction that a word means, and what the table has there.
#[tactic(auto, unfolding(crate::specs::Encoder::entries))]
fn row_of(word: u32) -> Option<(&'static [u8], Code)>
    ensures row { MatchOption result
        (find (λ k. takes k.1.format k.1.base word) entries ≡ None)
        (λ x. find (λ k. takes k.1.format k.1.base word) entries ≡ Some (x.0.now, x.1)) }
{
    let mut rows: &'static [(&'static [u8], Format, u32)] = &TABLE;
    while let [row, rest @ ..] = rows {
        let code = Code {
            format: row.1,
            base: row.2,
        };
        if is_word_of(code, word) {
            return Some((row.0, code));
        }
        rows = rest;
    }
    None
}

// Adds a blank and the operands, if there are some.
fn push_operands(line: &mut Line, wants: &[Want], operands: Operands)
    requires room { length line.old ≤ 6 }
    requires few { length wants.now ≤ 6 }
    ensures text { line.new ≡ line.old ++ operands_text operands wants.now }
    ensures short { length line.new ≤ 79 }
{
    if wants.len() == 0 {
        return;
    }
    line.push(b" ");
    let mut due = wants;
    while let [want, later @ ..] = due {
        push_want(line, *want, operands);
        due = later;
    }
}

// Adds what is printed for a want.
fn push_want(line: &mut Line, want: Want, operands: Operands)
    requires room { length line.old ≤ 67 }
    ensures text { line.new ≡ line.old ++ printed_want operands want }
    ensures short { length line.new ≤ length line.old + 12 }
{
    match want {
        Want::Register(field) => {
            line.push(b"x");
            line.push_decimal(u64::from(register(field, operands)));
        }
        Want::Mark(byte) => {
            if byte == b',' {
                line.push(b", ");
            } else {
                line.push(&[byte]);
            }
        }
        Want::Number { .. } => push_signed(line, operands.imm),
        Want::Target { .. } => push_signed(line, operands.imm),
    }
}

// The operand register for a field.
fn register(field: Field, operands: Operands) -> u8
    ensures { result ≡ register_in field operands }
{
    match field {
        Field::Rd => operands.rd,
        Field::Rs1 => operands.rs1,
        Field::Rs2 => operands.rs2,
    }
}

// Adds a number of 32 bits in two's complement, in decimal.
fn push_signed(line: &mut Line, imm: u32)
    requires room { length line.old ≤ 67 }
    ensures text { line.new ≡ line.old ++ signed_text imm }
    ensures short { length line.new ≤ length line.old + 12 }
{
    if imm < 0x8000_0000 {
        line.push_decimal(u64::from(imm));
    } else {
        line.push(b"-");
        line.push_decimal(4294967296 - u64::from(imm));
    }
}

// Adds a word as eight hexadecimal digits.
fn push_digits(line: &mut Line, word: u32)
    requires room { length line.old ≤ 8 }
    ensures text { line.new ≡ line.old ++ hex_word word }
    ensures short { length line.new ≡ length line.old + 8 }
{
    let mut digits = [0; 8];
    hex::encode_to_slice(word.to_be_bytes(), &mut digits).unwrap();
    line.push(&digits);
}

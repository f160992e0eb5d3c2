// The operands after the name of an instruction.
ghost use Rattle.std.specs.Prelude.{◌≡◌, IsTrue, [], ◌∷◌, drop, Ok, Err, OnOk, if◌then◌else◌};
ghost use Rattle.std.specs.List.{AllByRecursion};
ghost use Rattle.std.specs.Str.{bytes_eq};
ghost use Rattle.line_texts.specs.Prelude.{text_in, column_in};
ghost use Rattle.rv_asm.specs.Numbers.{begins_letter as letter_begins, register_of as register_value};
ghost use Rattle.rv_asm.specs.LineMeaning.{put as put_in, bits_of as number_bits, is_within as within, is_even as even, distance as distance_of, number_in as number_said, target_in as target_said, put_number as number_put, put_register as register_put, taken as taken_of, operands_of, no_operands, not_instruction};
ghost use Rattle.rv_asm.specs.Bytes.{IsMark};
ghost use Rattle.rv_asm.specs.LabelMap.{names_at};
ghost use Rattle.rv_asm.specs.Encoder.{next_of, IsOf32Bits, IsNarrow, IsOperand};

use crate::fault::Rule;
use crate::label::Labels;
use crate::number::{Signed, begins_letter, begins_number, is_name, number_of, register_of};
use crate::table::{Field, Operands, Want};
use crate::tokens::SourceTokens;
use line_texts::LineFault;

// The operands that the tokens of a line mean, one for each want, in the word with this number.
#[tactic(auto, unfolding(crate::specs::LineMeaning::operands_of))]
pub(crate) fn operands(
    wants: &[Want],
    tokens: &mut SourceTokens,
    end: u32,
    place: u32,
    labels: &Labels,
) -> Result<Operands, LineFault<Rule>>
    requires { AllByRecursion IsNarrow wants.now }
    ensures { result ≡ operands_of (names_at labels.now.by_name) place end wants.now tokens.old no_operands }
{
    let mut operands = Operands {
        rd: 0,
        rs1: 0,
        rs2: 0,
        imm: 0,
    };
    let mut due = wants;
    while let [want, later @ ..] = due {
        operands = match next_operand(*want, tokens, end, place, labels, operands) {
            Ok(operands) => operands,
            Err(fault) => return Err(fault),
        };
        due = later;
    }
    match tokens.next() {
        None => Ok(operands),
        Some(token) => Err(LineFault {
            rule: Rule::NotInstruction,
            column: token.column,
        }),
    }
}

// Adds the next token's value to the operands.
fn next_operand(
    want: Want,
    tokens: &mut SourceTokens,
    end: u32,
    place: u32,
    labels: &Labels,
    operands: Operands,
) -> Result<Operands, LineFault<Rule>>
    requires { IsNarrow want }
    ensures value { result ≡ next_of (names_at labels.now.by_name) place end want tokens.old operands }
    ensures goes { OnOk result (tokens.new ≡ drop 1 tokens.old) }
{
    if let Want::Mark(byte) = want {
        return mark(byte, tokens, end, operands);
    }
    let Some(token) = tokens.next() else {
        return Err(LineFault {
            rule: Rule::NotInstruction,
            column: end,
        });
    };
    match taken(want, token.text, place, labels, operands) {
        Ok(operands) => Ok(operands),
        Err(rule) => Err(LineFault {
            rule,
            column: token.column,
        }),
    }
}

// The operands unchanged, if the next token is this byte.
#[tactic(auto, unfolding(crate::specs::LineMeaning::taken))]
fn mark(
    byte: u8,
    tokens: &mut SourceTokens,
    end: u32,
    operands: Operands,
) -> Result<Operands, LineFault<Rule>>
    requires { IsMark byte }
    ensures value { result ≡ (if bytes_eq (text_in tokens.old) (byte ∷ []) then Ok operands else Err (not_instruction (column_in end tokens.old))) }
    ensures goes { OnOk result (tokens.new ≡ drop 1 tokens.old) }
{
    if tokens.take_mark(byte) {
        return Ok(operands);
    }
    Err(LineFault {
        rule: Rule::NotInstruction,
        column: tokens.column_or(end),
    })
}

// Adds a token's value to the operands, or returns the rule that it breaks.
#[tactic(auto, unfolding(crate::specs::LineMeaning::taken))]
fn taken(
    want: Want,
    text: &[u8],
    place: u32,
    labels: &Labels,
    operands: Operands,
) -> Result<Operands, Rule>
    requires narrow { IsNarrow want }
    requires operand { IsOperand want }
    ensures { result ≡ taken_of (names_at labels.now.by_name) place want text.now operands }
{
    match want {
        Want::Register(field) => put_register(field, operands, text),
        Want::Number { low, high } => match number_in(text) {
            Ok(number) => put_number(is_within(low, high, number), operands, number),
            Err(rule) => Err(rule),
        },
        Want::Target { low, high } => match target_in(text, place, labels) {
            Ok(number) => put_number(
                is_within(low, high, number) && is_even(number),
                operands,
                number,
            ),
            Err(rule) => Err(rule),
        },
        Want::Mark(_) => unreachable!(),
    }
}

// The operands with the register that a text spells, or the rule that it breaks.
fn put_register(field: Field, operands: Operands, text: &[u8]) -> Result<Operands, Rule>
    ensures { result ≡ register_put field operands (letter_begins text.now) (register_value text.now) }
{
    match register_of(text) {
        Some(n) => Ok(put(field, n, operands)),
        None => {
            if begins_letter(text) {
                Err(Rule::Register)
            } else {
                Err(Rule::NotInstruction)
            }
        }
    }
}

// The operands with a register in the place of a field.
fn put(field: Field, n: u8, operands: Operands) -> Operands
    ensures { result ≡ put_in field n operands }
{
    let Operands { rd, rs1, rs2, imm } = operands;
    match field {
        Field::Rd => Operands {
            rd: n,
            rs1,
            rs2,
            imm,
        },
        Field::Rs1 => Operands {
            rd,
            rs1: n,
            rs2,
            imm,
        },
        Field::Rs2 => Operands {
            rd,
            rs1,
            rs2: n,
            imm,
        },
    }
}

// The operands with a number, if it fits.
fn put_number(fits: bool, operands: Operands, number: Signed) -> Result<Operands, Rule>
    requires { IsTrue fits → IsOf32Bits number }
    ensures { result ≡ number_put fits operands number }
{
    if !fits {
        return Err(Rule::Number);
    }
    let Operands { rd, rs1, rs2, .. } = operands;
    Ok(Operands {
        rd,
        rs1,
        rs2,
        imm: bits_of(number),
    })
}

// A number as 32 bits, in two's complement.
fn bits_of(number: Signed) -> u32
    requires { IsOf32Bits number }
    ensures { result ≡ number_bits number }
{
    match number {
        Signed::Plus(n) => n as u32,
        Signed::Minus(n) => ((4294967296 - n) % 4294967296) as u32,
    }
}

// Whether a number is at most so much below 0 or above.
fn is_within(low: u64, high: u64, number: Signed) -> bool
    ensures { result ≡ within low high number }
{
    match number {
        Signed::Plus(n) => n <= high,
        Signed::Minus(n) => n <= low,
    }
}

fn is_even(number: Signed) -> bool
    ensures { result ≡ even number }
{
    match number {
        Signed::Plus(n) => n % 2 == 0,
        Signed::Minus(n) => n % 2 == 0,
    }
}

// The number that a text means, or the rule that it breaks.
#[tactic(auto, unfolding(crate::specs::LineMeaning::number_in))]
fn number_in(text: &[u8]) -> Result<Signed, Rule>
    ensures { result ≡ number_said text.now }
{
    if begins_number(text) {
        number_of(text).ok_or(Rule::Number)
    } else {
        Err(Rule::NotInstruction)
    }
}

// The distance that a text means in the word with this number.
#[tactic(auto, unfolding(crate::specs::LineMeaning::target_in))]
fn target_in(text: &[u8], place: u32, labels: &Labels) -> Result<Signed, Rule>
    ensures { result ≡ target_said (names_at labels.now.by_name) place text.now }
{
    if begins_number(text) {
        return number_of(text).ok_or(Rule::Number);
    }
    if !is_name(text) {
        return Err(Rule::NotInstruction);
    }
    match labels.get(text) {
        Some(label) => Ok(distance(place, label.place)),
        None => Err(Rule::Label),
    }
}

// The distance in bytes from a word to another, by their numbers.
fn distance(from: u32, to: u32) -> Signed
    ensures { result ≡ distance_of from to }
{
    if from <= to {
        Signed::Plus(u64::from(to - from) * 4)
    } else {
        Signed::Minus(u64::from(from - to) * 4)
    }
}

// What a line of a source means.
ghost use Rattle.std.specs.Prelude.{◌≡◌, ◌<◌, ◌^◌, ◌+◌, ◌&&◌, ◌∷◌, Some, not, drop, length, is_some, if◌then◌else◌};
ghost use Rattle.line_texts.specs.Prelude.{column_in, token_of};
ghost use Rattle.rv_asm.specs.Tokens.{tokens as tokens_of};
ghost use Rattle.rv_asm.specs.Numbers.{is_name as is_a_name};
ghost use Rattle.rv_asm.specs.Table.{named as row_named};
ghost use Rattle.rv_asm.specs.LineMeaning.{begins_label, is_earlier as earlier, said as said_of, line_of};
ghost use Rattle.rv_asm.specs.LabelMap.{names_at};
ghost use Rattle.rv_asm.specs.PackedWords.{IsBase};
ghost use Rattle.rv_asm.specs.Encoder.{code_row, code_table, behind};

use crate::fault::Rule;
use crate::label::Labels;
use crate::number::is_name;
use crate::operands::operands;
use crate::packing::packed;
use crate::table::{Code, named, wants};
use crate::tokens::{SourceTokens, line_tokens};
use line_texts::{LineFault, Token};

// The most words of a source.
const MOST_WORDS: u32 = 1_048_576;

// The word of a line, if any, after so many words.
#[tactic(auto, unfolding(crate::specs::LineMeaning::line_of))]
pub(crate) fn line(
    bytes: &[u8],
    labels: &Labels,
    number: u32,
    place: u32,
) -> Result<Option<u32>, LineFault<Rule>>
    requires { length bytes.now < 2 ^ 31 }
    ensures { result ≡ line_of code_table (names_at labels.now.by_name) number place (length bytes.now + 1) (tokens_of 1 bytes.now) }
{
    let end = bytes.len() as u32 + 1;
    let mut tokens = line_tokens(bytes);
    let Some(first) = tokens.next() else {
        return Ok(None);
    };
    if !take_colon(first, &mut tokens) {
        return instruction(false, first, &mut tokens, end, place, labels);
    }
    if is_earlier(labels, first.text, number) {
        return Err(LineFault {
            rule: Rule::Twice,
            column: first.column,
        });
    }
    match tokens.next() {
        Some(name) => instruction(true, name, &mut tokens, end, place, labels),
        None => Ok(None),
    }
}

// Whether a label begins the line, which has this first token and these after it. It skips the label's colon.
pub(crate) fn take_colon<'a>(first: Token<'a>, tokens: &mut SourceTokens<'a>) -> bool
    ensures label { result ≡ begins_label (token_of first.entry.column first.entry.text.now ∷ tokens.old) }
    ensures goes { tokens.new ≡ (if result then drop 1 tokens.old else tokens.old) }
{
    let mut ahead = tokens.copy();
    if !ahead.take_mark(b':') || !is_name(first.text) {
        return false;
    }
    *tokens = ahead;
    true
}

// Whether a line before this one has the label.
fn is_earlier(labels: &Labels, name: &[u8], number: u32) -> bool
    ensures { result ≡ earlier number ((names_at labels.now.by_name) name.now) }
{
    match labels.get(name) {
        Some(label) => label.line < number,
        None => false,
    }
}

// The word of the instruction with this name and these tokens after it. The name comes after a label, or first in its
// line.
fn instruction(
    is_labelled: bool,
    name: Token,
    tokens: &mut SourceTokens,
    end: u32,
    place: u32,
    labels: &Labels,
) -> Result<Option<u32>, LineFault<Rule>>
    ensures { result ≡ behind is_labelled (names_at labels.now.by_name) place end (token_of name.entry.column name.entry.text.now ∷ tokens.old) }
{
    match named(name.text) {
        Some(code) => said(code, name.column, tokens, end, place, labels),
        None => Err(LineFault {
            rule: Rule::NotInstruction,
            column: unnamed_column(is_labelled, name, tokens, end),
        }),
    }
}

// The column of the misfit in a line whose token names no instruction and has these tokens after it. A name could be
// that of a label. Then the token after it is the misfit.
fn unnamed_column(is_labelled: bool, name: Token, tokens: &SourceTokens, end: u32) -> u32
    ensures { result ≡ (if not is_labelled && is_a_name name.entry.text.now then column_in end tokens.now else name.entry.column) }
{
    if !is_labelled && is_name(name.text) {
        tokens.column_or(end)
    } else {
        name.column
    }
}

// The word of an instruction with the operands after its name, which is in this column.
fn said(
    code: Code,
    column: u32,
    tokens: &mut SourceTokens,
    end: u32,
    place: u32,
    labels: &Labels,
) -> Result<Option<u32>, LineFault<Rule>>
    requires { IsBase code.format code.base }
    ensures { result ≡ said_of (names_at labels.now.by_name) place end column tokens.old (Some (code_row code)) }
{
    if place == MOST_WORDS {
        return Err(LineFault {
            rule: Rule::TooLong,
            column,
        });
    }
    match operands(wants(code.format), tokens, end, place, labels) {
        Ok(operands) => Ok(Some(packed(code, operands))),
        Err(fault) => Err(fault),
    }
}

// How many words a line with this token as its name has: one, if it names an instruction.
pub(crate) fn words(name: &[u8]) -> u32
    ensures { result ≡ (if is_some (row_named code_table name.now) then 1 else 0) }
{
    if named(name).is_some() { 1 } else { 0 }
}

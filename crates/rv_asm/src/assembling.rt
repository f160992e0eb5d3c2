// From a source to its words.
ghost use Rattle.std.specs.Prelude.{◌≡◌, ◌≢◌, ◌⊎◌, ◌<◌, ◌^◌, ℕ, List, [], length, MatchResult, IfOk, IfErr, OnOk};
ghost use Rattle.std.specs.Str.{bytes_eq};
ghost use Rattle.std.specs.Map.{lookup};
ghost use Rattle.std.specs.Option.{option_or};
ghost use Rattle.line_texts.specs.declared.fault.Fault.{Fault};
ghost use Rattle.line_texts.specs.Prelude.{lines as lines_in, GivesUnlessMemory};
ghost use Rattle.rv_asm.specs.Tokens.{tokens as tokens_of};
ghost use Rattle.rv_asm.specs.Source.{label_in, words_in, names_in, Means, HasFault};
ghost use Rattle.rv_asm.specs.LabelMap.{names_at};
ghost use Rattle.rv_asm.specs.Encoder.{code_table, lines_from, source_of};

use crate::label::{Label, Labels};
use crate::line::{line, take_colon, words};
use crate::tokens::line_tokens;
use line_texts::{Fault, Lines, push_found};
use std::alloc::Global;

/// The words of a source, or its first fault. It reads the text twice, for the labels and then for the words. It takes
/// memory for these alone. The rules of a fault are 1 NotInstruction, 2 Number, 3 Register, 4 Label, 5 Twice, 6 TooLong
/// and 7 Empty. Rule 7 has line 0 and column 0.
pub fn assemble(alloc: Global, text: &[u8]) -> Result<Vec<u32>, Fault>
    requires { length text.now < 2 ^ 31 }
    // The text means the words that are assembled. A text that means words is assembled, unless memory runs out.
    ensures found { IfOk result (λ words. Means text.now words.items) }
    ensures only { (words : List ℕ) → Means text.now words →
        MatchResult result (λ v. v.items ≡ words) (λ e. e ≡ Fault.Memory) }

    // A refusal has the first fault. Bytes with a fault are refused for it, unless memory runs out.
    ensures refused { IfErr result (λ e. e ≢ Fault.Memory → HasFault text.now e) }
    ensures first { (e : Fault) → HasFault text.now e →
        MatchResult result (λ _. ⊥) (λ answer. (answer ≡ e) ⊎ (answer ≡ Fault.Memory)) }
{
    assembled(alloc, text)
}

#[tactic(auto, unfolding(crate::specs::Encoder::source_of))]
fn assembled(alloc: Global, text: &[u8]) -> Result<Vec<u32>, Fault>
    requires { length text.now < 2 ^ 31 }
    ensures { GivesUnlessMemory (λ words. words.items) result (source_of code_table text.now) }
{
    let labels = match labels_of(alloc, text) {
        Ok(labels) => labels,
        Err(fault) => return Err(fault),
    };
    let words = match words_of(alloc, text, &labels) {
        Ok(words) => words,
        Err(fault) => return Err(fault),
    };
    if words.len() == 0 {
        return Err(Fault::At {
            rule: 7,
            line: 0,
            column: 0,
        });
    }
    Ok(words)
}

// The labels of a text.
fn labels_of<'a>(alloc: Global, text: &'a [u8]) -> Result<Labels<'a>, Fault>
    requires { length text.now < 2 ^ 31 }
    ensures value { IfOk result (λ labels. (name : List ℕ) →
        names_at labels.by_name name ≡ names_in code_table text.now name) }
    ensures memory { IfErr result (λ e. e ≡ Fault.Memory) }
{
    let mut labels = Labels::new(alloc);
    let mut lines = Lines::new(text);
    let mut number = 1;
    let mut place = 0;
    'lines: while let Some(bytes) = lines.next() {
        let words = add_label(&mut labels, bytes, number, place)?;
        place += words;
        number += 1;
    }
    Ok(labels)
}

// Adds the label of a line, if it has one. It returns how many words the line has.
fn add_label<'a>(
    labels: &mut Labels<'a>,
    bytes: &'a [u8],
    line: u32,
    place: u32,
) -> Result<u32, Fault>
    requires { length bytes.now < 2 ^ 31 }
    ensures added { OnOk result ((name : List ℕ) → names_at labels.new.by_name name
        ≡ option_or (names_at labels.old.by_name name) (lookup (bytes_eq name) (label_in line place (tokens_of 1 bytes.now)))) }
    ensures words { IfOk result (λ words. words ≡ words_in code_table (tokens_of 1 bytes.now)) }
    ensures memory { IfErr result (λ e. e ≡ Fault.Memory) }
{
    let mut tokens = line_tokens(bytes);
    let Some(first) = tokens.next() else {
        return Ok(0);
    };
    if !take_colon(first, &mut tokens) {
        return Ok(words(first.text));
    }
    labels.add(first.text, Label { line, place })?;
    match tokens.next() {
        Some(name) => Ok(words(name.text)),
        None => Ok(0),
    }
}

// The words of the lines of a text.
fn words_of(alloc: Global, text: &[u8], labels: &Labels) -> Result<Vec<u32>, Fault>
    requires { length text.now < 2 ^ 31 }
    ensures { GivesUnlessMemory (λ words. words.items) result
        (lines_from code_table (names_at labels.now.by_name) [] 1 (lines_in text.now)) }
{
    let mut words = Vec::new(alloc);
    let mut lines = Lines::new(text);
    let mut number = 1;
    'lines: while let Some(bytes) = lines.next() {
        let found = match line(bytes, labels, number, words.len() as u32) {
            Ok(found) => found,
            Err(fault) => return Err(fault.at(number)),
        };
        push_found(&mut words, found)?;
        number += 1;
    }
    Ok(words)
}

// The words of a line, one after the other.
ghost use Rattle.std.specs.Prelude.{◌≡◌, ◌<◌, ◌≤◌, ◌+◌, ◌^◌, List, [], ◌∷◌, length, decimal, MatchOption, MatchResult};
ghost use Rattle.cost_tables.specs.Prelude.{value_of};
ghost use Rattle.cert_text.specs.declared.kind.Kind.{Kind};
ghost use Rattle.cert_text.specs.Grammar.{Want, this_word, number_to, an_entry, TakesWord, kind_word};
ghost use Rattle.cert_text.specs.WordLines.{entry_word};
ghost use Rattle.cert_text.specs.Meaning.{HasWord};
ghost use Rattle.cert_text.specs.Faults.{IsWordFault, Names, first_column};
ghost use Rattle.cert_text.specs.ReaderState.{left, Takes, number_of_rule, Left, left_with};

use crate::fault::Rule;
use crate::kind::Kind;
use cost_tables::Cost;
use line_texts::{LineFault, NoBlanks, Token, Tokens, number_of};
use plan_types::Line;
use std::marker::Model;

// The words that are left of a line, and the column one past its bytes.
#[derive(Drop)]
pub(crate) struct Words<'a> {
    words: Tokens<'a, NoBlanks>,
    end: u32,
}

impl<'a> Words<'a> {
    // The words of bytes that begin in this column.
    #[tactic(auto, unfolding(crate::specs::ReaderState::left))]
    pub(crate) fn new(rest: &'a [u8], column: u32) -> Words<'a>
        requires { column + length rest.now < 2 ^ 32 }
        ensures { result ≡ left column rest.now }
    {
        let end = column + rest.len() as u32;
        Words {
            words: Tokens::new(rest, column),
            end,
        }
    }

    // Reads the next word, if there is one.
    pub(crate) fn next(&mut self) -> Option<Token<'a>>
        ensures { MatchOption result ((self.old.words ≡ []) × (self.new ≡ self.old))
            (λ w. (self.old.words ≡ record { column = w.column; text = w.text.now } ∷ self.new.words) × (self.new.end ≡ self.old.end)) }
    {
        match self.words.next() {
            Some(word) => Some(word),
            None => None,
        }
    }

    // The column one past the line's bytes.
    pub(crate) fn end(&self) -> u32
        ensures { result ≡ self.now.end }
    {
        self.end
    }

    // The column of the next word, or the one past the line's bytes.
    pub(crate) fn first_column(&mut self) -> u32
        ensures { result ≡ first_column self.old.words self.old.end }
    {
        match self.next() {
            Some(word) => word.column,
            None => self.end(),
        }
    }

    // Reads the next word, which must name a kind of certificate. Otherwise returns its column.
    pub(crate) fn kind(&mut self) -> Result<Kind, u32>
        ensures { MatchResult result
            (λ kind. Takes (kind_word kind) self.old self.new)
            (λ column. ((kind : Kind) → Names kind self.old.words → ⊥) × (column ≡ first_column self.old.words self.old.end)) }
    {
        let Some(word) = self.next() else {
            return Err(self.end());
        };
        if word.text == b"revolve".as_slice() {
            return Ok(Kind::Revolve);
        }
        if word.text == b"places".as_slice() {
            return Ok(Kind::Places);
        }
        if word.text == b"nested".as_slice() {
            return Ok(Kind::Nested);
        }
        if word.text == b"disk".as_slice() {
            return Ok(Kind::Disk);
        }
        Err(word.column)
    }

    // Reads the next word, which must be a number of at most `most`.
    pub(crate) fn number(&mut self, most: u64) -> Result<u64, LineFault<Rule>>
        ensures { MatchResult result
            (λ n. (n ≤ most) × Takes (decimal n) self.old self.new)
            (λ fault. (more : List Want) → IsWordFault (number_to most ∷ more) self.old.words self.old.end (number_of_rule fault.rule) fault.column) }
    {
        let Some(word) = self.next() else {
            return Err(LineFault {
                rule: Rule::Shape,
                column: self.end(),
            });
        };
        match number_of(word.text, most) {
            Some(n) => Ok(n),
            None => Err(LineFault {
                rule: Rule::Number,
                column: word.column,
            }),
        }
    }

    // Reads the next word, which must be this one.
    pub(crate) fn this_word(&mut self, text: &[u8]) -> Result<(), LineFault<Rule>>
        ensures { MatchResult result
            (λ _. Takes text.now self.old self.new)
            (λ fault. (more : List Want) → IsWordFault (this_word text.now ∷ more) self.old.words self.old.end (number_of_rule fault.rule) fault.column) }
    {
        let Some(word) = self.next() else {
            return Err(LineFault {
                rule: Rule::Shape,
                column: self.end(),
            });
        };
        if word.text == text {
            return Ok(());
        }
        Err(LineFault {
            rule: Rule::Shape,
            column: word.column,
        })
    }

    // Reads the next word, which must be this number.
    pub(crate) fn this_number(&mut self, n: u64) -> Result<(), LineFault<Rule>>
        ensures { MatchResult result
            (λ _. Takes (decimal n) self.old self.new)
            (λ fault. (more : List Want) → IsWordFault (this_word (decimal n) ∷ more) self.old.words self.old.end (number_of_rule fault.rule) fault.column) }
    {
        let mut digits = Line::new();
        digits.push_decimal(n);
        self.this_word(digits.bytes())
    }

    // Reads the next word, which must be an entry of a table.
    pub(crate) fn entry(&mut self) -> Result<Cost, LineFault<Rule>>
        ensures { MatchResult result
            (λ cost. HasWord (value_of cost) × Takes (entry_word (value_of cost)) self.old self.new)
            (λ fault. (more : List Want) → IsWordFault (an_entry ∷ more) self.old.words self.old.end (number_of_rule fault.rule) fault.column) }
    {
        let Some(word) = self.next() else {
            return Err(LineFault {
                rule: Rule::Shape,
                column: self.end(),
            });
        };
        match entry(word.text) {
            Some(cost) => Ok(cost),
            None => Err(LineFault {
                rule: Rule::Number,
                column: word.column,
            }),
        }
    }

    // Checks that no word is left.
    pub(crate) fn finish(&mut self) -> Result<(), LineFault<Rule>>
        ensures { MatchResult result
            (λ _. self.old.words ≡ [])
            (λ fault. IsWordFault [] self.old.words self.old.end (number_of_rule fault.rule) fault.column) }
    {
        match self.next() {
            None => Ok(()),
            Some(word) => Err(LineFault {
                rule: Rule::Shape,
                column: word.column,
            }),
        }
    }
}

impl<'a> Model for Words<'a> {
    ghost Value = { Left };

    ghost view = { λ w. left_with w.words w.end };
}

// The entry that a text is: a number, or Never, whose word is `-`.
fn entry(text: &[u8]) -> Option<Cost>
    ensures { MatchOption result (TakesWord an_entry text.now → ⊥) (λ cost. HasWord (value_of cost) × (text.now ≡ entry_word (value_of cost))) }
{
    if text == b"-".as_slice() {
        return Some(Cost::Never);
    }
    match number_of(text, u64::MAX) {
        Some(n) => Some(Cost::Number(n)),
        None => None,
    }
}

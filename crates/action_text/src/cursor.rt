// A cursor over the bytes of a text. It goes from token to token, and from line to line.
ghost use Rattle.std.specs.Prelude.{◌≡◌, ◌<◌, ◌≤◌, ◌+◌, ◌-◌, ◌^◌, ◌∷◌, [], false, true, length, IsTrue, MatchResult, IfOk, IfErr, OnOk, Ok, Err, Some, IfSome, MatchOption};
ghost use Rattle.plan_types.specs.declared.limits.TheConstants.{MOST_STEPS};
ghost use Rattle.line_texts.specs.Prelude.{lines, GivesSome};
ghost use Rattle.level_book.specs.Prelude.{names_of};
ghost use Rattle.action_text.specs.Tokens.{starts_run, is_run_byte};
ghost use Rattle.action_text.specs.Bytes.{behind_line, ends_line, begins_nothing, run_length, IsWord, behind_word, behind_front};
ghost use Rattle.action_text.specs.Parser.{text_at, column_at, says_nothing, not_action, number_of, mark_next, end_next, has_line, next_line, IsMark, Takes, TakesWord, line_of};
ghost use Rattle.action_text.specs.CursorState.{Rest, seen};
ghost use Rattle.std.proofs.Common.{arith};
ghost use Rattle.std.proofs.lemmas.Bool.Decides.{nat_tests};

use crate::canonical::action_at;
use crate::fault::{Parsed, Rule};
use crate::number::number_at;
use level_book::Book;
use line_texts::{LineFault, RunBytes, after_blanks, past};
use plan_types::Action;
use std::marker::Model;

// The bytes that are left, and how many were left at the beginning of their line.
#[derive(Drop)]
pub(crate) struct Cursor<'a> {
    rest: &'a [u8],
    start: usize,
}

// A run of letters, digits and `_`, and its column.
#[derive(Clone, Copy)]
pub(crate) struct Word<'a> {
    pub text: &'a [u8],
    pub column: u32,
}

impl<'a> Cursor<'a> {
    // At the first line of the bytes.
    pub(crate) fn new(bytes: &'a [u8]) -> Cursor<'a>
        requires { length bytes.now < 2 ^ 31 }
        ensures { result ≡ next_line (lines bytes.now) }
    {
        Cursor {
            rest: bytes,
            start: bytes.len(),
        }
    }

    // Reads the action whose canonical spelling is the whole line. The cursor is at the line's beginning.
    #[inline(always)]
    pub(crate) fn take_canonical(&mut self, book: &Book) -> Option<Action>
        ensures { MatchOption result (self.new ≡ self.old)
            (λ a. (line_of (names_of book.now) false self.old ≡ Ok (Some a)) × (self.new.later ≡ self.old.later)) }
    {
        book.has_names();
        if self.start != self.rest.len() {
            return None;
        }
        let (action, behind) = action_at(self.rest, book)?;
        if !ends_line(behind) {
            return None;
        }
        self.rest = behind;
        Some(action)
    }

    // Whether the line means nothing.
    #[inline(always)]
    pub(crate) fn says_nothing(&mut self) -> bool
        ensures value { result ≡ says_nothing self.old.tokens }
        ensures stays { self.new ≡ self.old }
    {
        self.rest = after_blanks(self.rest);
        begins_nothing(self.rest)
    }

    // Reads the next token, which must be this byte.
    #[inline(always)]
    pub(crate) fn mark(&mut self, byte: u8) -> Parsed<()>
        requires { IsMark byte }
        ensures value { MatchResult result
            (λ _. mark_next (byte ∷ []) self.old ≡ Ok (text_at self.old, self.new))
            (λ e. mark_next (byte ∷ []) self.old ≡ Err e) }
        ensures later { OnOk result (self.new.later ≡ self.old.later) }
    {
        let rest = after_blanks(self.rest);
        match past(rest, byte) {
            Some(behind) => {
                self.rest = behind;
                Ok(())
            }
            None => Err(LineFault {
                rule: Rule::NotAction,
                column: column_of(self.start, rest),
            }),
        }
    }

    // The next token, which must be a word.
    #[inline(always)]
    pub(crate) fn word(&self) -> Parsed<Word<'a>>
        ensures word { IfOk result (λ word. (starts_run (text_at self.now) ≡ true) × (word.text.now ≡ text_at self.now)
            × (word.column ≡ column_at self.now)) }
        ensures fault { IfErr result (λ e. (starts_run (text_at self.now) ≡ false)
            × (e ≡ not_action (column_at self.now))) }
    {
        let rest = after_blanks(self.rest);
        let column = column_of(self.start, rest);
        let length = length_of_run(rest);
        if length == 0 {
            return Err(LineFault {
                rule: Rule::NotAction,
                column,
            });
        }
        let (text, _) = rest.split_at(length);
        Ok(Word { text, column })
    }

    // Reads the next token, if it is a number.
    #[inline(always)]
    pub(crate) fn take_number(&mut self) -> Option<u32>
        ensures value { Takes result (number_of (text_at self.old)) self.old self.new }
        ensures small { IfSome result (λ n. n ≤ MOST_STEPS) }
    {
        let (n, behind) = number_at(after_blanks(self.rest))?;
        if starts_run(behind) {
            return None;
        }
        self.rest = behind;
        Some(n)
    }

    // Reads the next token, if it is this word.
    #[inline(always)]
    pub(crate) fn take(&mut self, word: &[u8]) -> bool
        requires { IsWord word.now }
        ensures { TakesWord result word.now self.old self.new }
    {
        match behind_word(after_blanks(self.rest), word) {
            Some(behind) => {
                self.rest = behind;
                true
            }
            None => false,
        }
    }

    // The column of the next token, or of the line's end.
    #[inline(always)]
    pub(crate) fn column(&self) -> u32
        ensures { result ≡ column_at self.now }
    {
        column_of(self.start, after_blanks(self.rest))
    }

    // Checks that nothing is left of the line.
    #[inline(always)]
    pub(crate) fn end(&mut self) -> Parsed<()>
        ensures value { MatchResult result
            (λ _. end_next self.old ≡ Ok [])
            (λ e. end_next self.old ≡ Err e) }
        ensures stays { self.new ≡ self.old }
    {
        self.rest = after_blanks(self.rest);
        if ends_line(self.rest) {
            Ok(())
        } else {
            Err(LineFault {
                rule: Rule::NotAction,
                column: column_of(self.start, self.rest),
            })
        }
    }

    // Goes to the next line, if there is one.
    #[inline(always)]
    pub(crate) fn next_line(&mut self) -> bool
        ensures more { result ≡ has_line self.old.later }
        ensures goes { IsTrue result → self.new ≡ next_line self.old.later }
    {
        match after_line(self.rest) {
            Some(rest) => {
                self.rest = rest;
                self.start = rest.len();
                true
            }
            None => false,
        }
    }
}

impl<'a> Model for Cursor<'a> {
    ghost Value = { Rest };

    ghost view = { λ c. seen c.start c.rest.now };

    ghost invariant = { λ c. (length c.rest.now ≤ c.start) × (c.start < 2 ^ 31) };
}

// The bytes after the first line end.
#[tactic(auto, unfolding(crate::specs::Bytes::behind_line))]
fn after_line(bytes: &[u8]) -> Option<&[u8]>
    ensures { GivesSome (λ rest. rest.now) result (behind_line bytes.now) }
{
    let mut rest = bytes;
    while let [byte, after @ ..] = rest {
        if *byte == b'\n' {
            return Some(after);
        }
        rest = after;
    }
    None
}

// The bytes after a word, where the run at the front is that word.
#[inline(always)]
fn behind_word<'a>(bytes: &'a [u8], word: &[u8]) -> Option<&'a [u8]>
    requires { IsWord word.now }
    ensures { GivesSome (λ rest. rest.now) result (behind_word bytes.now word.now) }
{
    let behind = behind_front(bytes, word)?;
    if starts_run(behind) {
        return None;
    }
    Some(behind)
}

// The bytes after others, where they begin with those.
#[inline(always)]
#[tactic(auto, unfolding(crate::specs::Bytes::behind_front))]
pub(crate) fn behind_front<'a>(bytes: &'a [u8], others: &[u8]) -> Option<&'a [u8]>
    ensures { GivesSome (λ rest. rest.now) result (behind_front bytes.now others.now) }
{
    let mut rest = bytes;
    let mut due = others;
    while let [wanted, later @ ..] = due {
        rest = past(rest, *wanted)?;
        due = later;
    }
    Some(rest)
}

// Whether a run begins at the front.
pub(crate) fn starts_run(bytes: &[u8]) -> bool
    ensures { result ≡ starts_run bytes.now }
{
    match bytes {
        [] => false,
        [byte, ..] => Names::in_run(*byte),
    }
}

// Whether no bytes are left of a line.
fn ends_line(bytes: &[u8]) -> bool
    ensures { result ≡ ends_line bytes.now }
{
    match bytes {
        [] => true,
        [byte, ..] => *byte == b'\n',
    }
}

// Whether none are left, or a comment begins.
fn begins_nothing(bytes: &[u8]) -> bool
    ensures { result ≡ begins_nothing bytes.now }
{
    match bytes {
        [] => true,
        [byte, ..] => *byte == b'\n' || *byte == b'#',
    }
}

// How many bytes at the front are of one run.
#[inline(never)]
#[tactic(auto, unfolding(crate::specs::Bytes::run_length))]
fn length_of_run(bytes: &[u8]) -> usize
    ensures value { result ≡ run_length bytes.now }
    ensures within { result ≤ length bytes.now }
{
    line_texts::run_length::<Names>(bytes)
}

// Letters, digits and `_` make runs. Most bytes after a run are below all of these, so one comparison rules them out.
#[derive(Drop)]
struct Names;

impl RunBytes for Names {
    ghost in_run = { is_run_byte };

    fn in_run(byte: u8) -> bool {
        byte >= b'0' && (byte.is_ascii_alphanumeric() || byte == b'_')
    }

    ghost no_blank = { λ b run. Prim.grind (arith, nat_tests) };
}

// The column of the first of these bytes. So many were left at the beginning of the line.
fn column_of(start: usize, rest: &[u8]) -> u32
    requires { (length rest.now ≤ start) × (start < 2 ^ 31) }
    ensures { result ≡ start - length rest.now + 1 }
{
    (start - rest.len()) as u32 + 1
}

// The tokens of a line, one after the other.
ghost use Rattle.std.specs.Prelude.{◌≡◌, ◌+◌, ◌<◌, ◌≤◌, ◌^◌, ℕ, Bool, true, false, [], ◌∷◌, length, drop, MatchOption, if◌then◌else◌, List};
ghost use Rattle.std.specs.Str.{bytes_eq};
ghost use Rattle.std.proofs.Common.{arith};
ghost use Rattle.std.proofs.lemmas.Bool.Decides.{nat_tests};
ghost use Rattle.line_texts.specs.Tokens.{is_blank as blank, tokens, in_word, Token as SeenToken};
ghost use Rattle.line_texts.specs.Parsers.{run_length, token_length};
ghost use Rattle.line_texts.specs.Cursors.{token_of, text_in, column_in, IsMark};

use crate::blank::{after_blanks, is_blank, past};
use std::marker::{Model, PhantomData};

/// Which bytes make the runs of a text. A longest run is one token.
pub trait RunBytes {
    ghost in_run: { ℕ → Bool };

    /// Whether a byte is one of a run.
    fn in_run(byte: u8) -> bool
        ensures { result ≡ in_run byte };

    ghost no_blank: { (b : ℕ) → in_run b ≡ true → blank b ≡ false };
}

/// All bytes but blanks make runs, which are words.
#[derive(Drop)]
pub struct NoBlanks;

impl RunBytes for NoBlanks {
    ghost in_run = { in_word };

    fn in_run(byte: u8) -> bool {
        !is_blank(byte)
    }

    ghost no_blank = { λ b run. Prim.grind (arith, nat_tests) };
}

/// The bytes of a token, and its column.
#[derive(Clone, Copy)]
pub struct Token<'a> {
    pub text: &'a [u8],
    pub column: u32,
}

/// The bytes of a line that are left, and the column of the first of them.
#[derive(Drop)]
pub struct Tokens<'a, R: RunBytes> {
    rest: &'a [u8],
    column: u32,
    of: PhantomData<R>,
}

/// The words of a line.
pub type Words<'a> = Tokens<'a, NoBlanks>;

impl<'a, R: RunBytes> Tokens<'a, R> {
    /// The tokens of bytes that begin in this column.
    pub fn new(bytes: &'a [u8], column: u32) -> Tokens<'a, R>
        requires { column + length bytes.now < 2 ^ 32 }
        ensures { result ≡ tokens R.in_run column bytes.now }
    {
        Tokens {
            rest: bytes,
            column,
            of: PhantomData,
        }
    }

    /// A cursor at the same place.
    pub fn copy(&self) -> Tokens<'a, R>
        ensures { result ≡ self.now }
    {
        Tokens {
            rest: self.rest,
            column: self.column,
            of: PhantomData,
        }
    }

    /// Reads the next token.
    pub fn next(&mut self) -> Option<Token<'a>>
        ensures { MatchOption result ((self.old ≡ []) × (self.new ≡ []))
            (λ t. self.old ≡ token_of t.column t.text.now ∷ self.new) }
    {
        let rest = after_blanks(self.rest);
        let column = self.column + (self.rest.len() - rest.len()) as u32;
        let length = token_length::<R>(rest);
        if length == 0 {
            return None;
        }
        let (text, behind) = rest.split_at(length);
        self.rest = behind;
        self.column = column + length as u32;
        Some(Token { text, column })
    }

    /// Reads the next token, if it is this byte alone.
    pub fn take_mark(&mut self, byte: u8) -> bool
        requires { IsMark R.in_run byte }
        ensures taken { result ≡ bytes_eq (text_in self.old) (byte ∷ []) }
        ensures goes { self.new ≡ (if result then drop 1 self.old else self.old) }
    {
        let Some(behind) = past(after_blanks(self.rest), byte) else {
            return false;
        };
        self.column += (self.rest.len() - behind.len()) as u32;
        self.rest = behind;
        true
    }

    /// The column of the next token, or this one if there is none.
    pub fn column_or(&self, end: u32) -> u32
        ensures { result ≡ column_in end self.now }
    {
        match self.copy().next() {
            Some(token) => token.column,
            None => end,
        }
    }
}

impl<'a, R: RunBytes> Model for Tokens<'a, R> {
    ghost Value = { List SeenToken };

    ghost view = { λ t. tokens R.in_run t.column t.rest.now };

    ghost invariant = { λ t. t.column + length t.rest.now < 2 ^ 32 };
}

// How many bytes the token at the front has.
fn token_length<R: RunBytes>(bytes: &[u8]) -> usize
    ensures value { result ≡ token_length R.in_run bytes.now }
    ensures within { result ≤ length bytes.now }
{
    match bytes {
        [] => 0,
        [first, ..] => {
            if R::in_run(*first) {
                run_length::<R>(bytes)
            } else {
                1
            }
        }
    }
}

/// How many bytes at the front are of one run.
pub fn run_length<R: RunBytes>(bytes: &[u8]) -> usize
    ensures value { result ≡ run_length R.in_run bytes.now }
    ensures within { result ≤ length bytes.now }
{
    for (i, byte) in bytes.iter().enumerate() {
        if !R::in_run(*byte) {
            return i;
        }
    }
    bytes.len()
}

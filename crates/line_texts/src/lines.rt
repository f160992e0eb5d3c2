// The lines of a text, one after the other.
ghost use Rattle.std.specs.Prelude.{◌≡◌, ◌<◌, ◌≤◌, ◌^◌, [], ◌∷◌, length, drop, MatchOption, IfSome, ℕ, List, cond};
ghost use Rattle.line_texts.specs.Lines.{lines};
ghost use Rattle.line_texts.specs.Parsers.{length_before};

use std::marker::Model;

/// The lines of the bytes that are left. The last has no line end.
#[derive(Drop)]
pub struct Lines<'a> {
    rest: &'a [u8],
    is_over: bool,
}

impl<'a> Lines<'a> {
    /// The lines of a text.
    pub fn new(text: &'a [u8]) -> Lines<'a>
        requires { length text.now < 2 ^ 31 }
        ensures { result ≡ lines text.now }
    {
        Lines {
            rest: text,
            is_over: false,
        }
    }

    /// Reads the next line.
    pub fn next(&mut self) -> Option<&'a [u8]>
        ensures value { MatchOption result ((self.old ≡ []) × (self.new ≡ []))
            (λ line. self.old ≡ line.now ∷ self.new) }
        ensures short { IfSome result (λ line. length line.now < 2 ^ 31) }
    {
        if self.is_over {
            return None;
        }
        let (line, behind) = self.rest.split_at(length_before(self.rest, b'\n'));
        self.is_over = behind.len() == 0;
        self.rest = without_first(behind);
        Some(line)
    }
}

impl<'a> Model for Lines<'a> {
    ghost Value = { List (List ℕ) };

    ghost view = { λ l. cond l.is_over [] (lines l.rest.now) };

    ghost invariant = { λ l. length l.rest.now < 2 ^ 31 };
}

/// How many bytes come before this one, or how many there are.
pub fn length_before(bytes: &[u8], byte: u8) -> usize
    ensures value { result ≡ length_before byte bytes.now }
    ensures within { result ≤ length bytes.now }
{
    for (i, b) in bytes.iter().enumerate() {
        if *b == byte {
            return i;
        }
    }
    bytes.len()
}

/// The bytes after the first one.
pub fn without_first(bytes: &[u8]) -> &[u8]
    ensures { result.now ≡ drop 1 bytes.now }
{
    match bytes {
        [] => bytes,
        [_, rest @ ..] => rest,
    }
}

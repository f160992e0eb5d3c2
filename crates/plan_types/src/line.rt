// A line of text that takes no memory.
ghost use Rattle.std.specs.Prelude.{◌≡◌, ◌+◌, ◌≤◌, List, ℕ, [], ◌++◌, length, take, decimal};

use itoa::Buffer;
use std::marker::Model;

/// A text of at most 512 bytes that takes no memory.
#[derive(Drop)]
pub struct Line {
    text: [u8; 512],
    len: usize,
}

impl Line {
    /// The empty line.
    pub fn new() -> Line
        ensures { result ≡ [] }
    {
        Line {
            text: [0; 512],
            len: 0,
        }
    }

    /// The text so far.
    pub fn bytes(&self) -> &[u8]
        ensures value { result.now ≡ self.now }
        ensures short { length result.now ≤ 512 }
    {
        &self.text[..self.len]
    }

    /// Makes it empty.
    pub fn clear(&mut self)
        ensures { self.new ≡ [] }
    {
        self.len = 0;
    }

    /// Adds bytes at its end.
    pub fn push(&mut self, piece: &[u8])
        requires { length self.old + length piece.now ≤ 512 }
        ensures { self.new ≡ self.old ++ piece.now }
    {
        let end = self.len + piece.len();
        self.text[self.len..end].copy_from_slice(piece);
        self.len = end;
    }

    /// Adds a number in decimal digits.
    pub fn push_decimal(&mut self, n: u64)
        requires { length self.old + length (decimal n) ≤ 512 }
        ensures { self.new ≡ self.old ++ decimal n }
    {
        let mut digits = Buffer::new();
        self.push(digits.format(n).as_bytes());
    }
}

impl Model for Line {
    ghost Value = { List ℕ };

    ghost view = { λ l. take l.len l.text };

    ghost invariant = { λ l. l.len ≤ 512 };
}

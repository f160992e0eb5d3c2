// The certificate lines of a text, one after the other.
ghost use Rattle.std.specs.Prelude.{◌≡◌, ◌<◌, ◌+◌, ◌^◌, [], ◌∷◌, length, MatchResult};
ghost use Rattle.cert_text.specs.Faults.{IsLineFault};
ghost use Rattle.cert_text.specs.ReaderState.{IsAt, unread, Unread};

use crate::lines::{MarkedLine, next_marked};
use crate::words::Words;
use line_texts::Fault;
use std::marker::Model;

// The bytes that are left of a text, and how many lines came before them.
#[derive(Drop)]
pub(crate) struct Reader<'a> {
    rest: &'a [u8],
    before: u32,
}

impl<'a> Reader<'a> {
    // The lines of a text.
    pub(crate) fn new(bytes: &'a [u8]) -> Reader<'a>
        requires { length bytes.now < 2 ^ 31 }
        ensures { result ≡ unread 0 bytes.now }
    {
        Reader {
            rest: bytes,
            before: 0,
        }
    }

    // Reads the next certificate line. If there is none, the missing line is past all lines.
    pub(crate) fn line(&mut self) -> Result<MarkedLine<'a>, Fault>
        ensures { MatchResult result
            (λ line. (self.old.lines ≡ record { number = line.number; text = line.text.now } ∷ self.new.lines) × (self.new.count ≡ self.old.count)
            × (length line.text.now < 2 ^ 31))
            (λ fault. (self.old.lines ≡ []) × (fault ≡ Fault.At 4 (self.old.count + 1) 1)) }
    {
        match next_marked(self.rest, self.before) {
            Ok(line) => {
                self.rest = line.later;
                self.before = line.number;
                Ok(line)
            }
            Err(all) => Err(Fault::At {
                rule: 4,
                line: all + 1,
                column: 1,
            }),
        }
    }

    // Checks that no certificate line is left. The fault of an extra line is at its first word, or one past its bytes.
    pub(crate) fn finish(&mut self) -> Result<(), Fault>
        ensures { MatchResult result (λ _. self.old.lines ≡ []) (λ fault. IsAt (IsLineFault [] self.old.lines self.old.count) fault) }
    {
        match self.line() {
            Err(_) => Ok(()),
            Ok(line) => {
                let column = Words::new(line.text, 3).first_column();
                Err(Fault::At {
                    rule: 4,
                    line: line.number,
                    column,
                })
            }
        }
    }
}

impl<'a> Model for Reader<'a> {
    ghost Value = { Unread };

    ghost view = { λ r. unread r.before r.rest.now };

    ghost invariant = { λ r. r.before + length r.rest.now < 2 ^ 31 };
}

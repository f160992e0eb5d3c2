// Words of a line, written some at a time.
ghost use Rattle.std.specs.Prelude.{◌≡◌, ◌+◌, ◌*◌, ◌≤◌, [], ◌∷◌, ◌++◌, length, codes, decimal, OnOk, OnErr};
ghost use Rattle.keepers.specs.Prelude.{seen, AddsLines, StopsIn};
ghost use Rattle.cert_text.specs.Canonical.{pieces_from};
ghost use Rattle.cert_text.specs.LineWrites.{Puts, StopsAt};

use keepers::{Sink, SinkFault};
use plan_types::Line;

/// The most words of a write.
const MOST_WORDS: u8 = 16;

// The next write so far, and how many words still fit into it.
#[derive(Drop)]
pub(crate) struct Piece {
    text: Line,
    room: u8,
    ghost short: { length text + 21 * room ≤ 338 },
}

impl Piece {
    // The front of a certificate line.
    pub(crate) fn new() -> Piece
        ensures text { result.text ≡ codes "#!" }
        ensures room { result.room ≡ 16 }
    {
        let mut text = Line::new();
        text.push(b"#!");
        Piece {
            text,
            room: MOST_WORDS,
        }
    }

    // Appends a blank and a word. Where there is no room, the earlier words are written first.
    pub(crate) fn word<O: Sink>(&mut self, word: &[u8], out: &mut O) -> Result<(), SinkFault>
        requires { length word.now ≤ 20 }
        ensures ok { OnOk result (Puts (word.now ∷ []) self.old.room self.old.text self.new.room self.new.text
            (seen O.Sink out.old) (seen O.Sink out.new)) }
        ensures stopped { OnErr result (StopsAt (word.now ∷ []) self.old.room self.old.text (seen O.Sink out.old)
            (seen O.Sink out.new)) }
    {
        if self.room > 0 {
            self.add(word);
            return Ok(());
        }
        out.write(self.text.bytes())?;
        self.text.clear();
        self.room = MOST_WORDS;
        self.add(word);
        Ok(())
    }

    // Adds a word, for which there is room.
    fn add(&mut self, word: &[u8])
        requires short { length word.now ≤ 20 }
        requires room { 1 ≤ self.old.room }
        ensures text { self.new.text ≡ self.old.text ++ 32 ∷ word.now }
        ensures room { self.new.room + 1 ≡ self.old.room }
    {
        self.text.push(b" ");
        self.text.push(word);
        self.room -= 1;
    }

    // Puts a number into it.
    pub(crate) fn number<O: Sink>(&mut self, n: u64, out: &mut O) -> Result<(), SinkFault>
        ensures ok { OnOk result (Puts (decimal n ∷ []) self.old.room self.old.text self.new.room self.new.text
            (seen O.Sink out.old) (seen O.Sink out.new)) }
        ensures stopped { OnErr result (StopsAt (decimal n ∷ []) self.old.room self.old.text (seen O.Sink out.old)
            (seen O.Sink out.new)) }
    {
        let mut word = Line::new();
        word.push_decimal(n);
        self.word(word.bytes(), out)
    }

    // Writes what it has, and the line's end.
    pub(crate) fn end<O: Sink>(self, out: &mut O) -> Result<(), SinkFault>
        ensures ok { OnOk result (AddsLines (pieces_from self.room self.text []) (seen O.Sink out.old)
            (seen O.Sink out.new)) }
        ensures stopped { OnErr result (StopsIn (pieces_from self.room self.text []) (seen O.Sink out.old)
            (seen O.Sink out.new)) }
    {
        let mut text = self.text;
        text.push(b"\n");
        out.write(text.bytes())
    }
}

// Instructions that were decoded.
ghost use Rattle.std.specs.Prelude.{◌≡◌, ◌<◌, length, slice_index, Some, None, IfSome, IsTrue, IsFalse};
ghost use Rattle.rv_decode.specs.Prelude.{decoded, HasRanges};
ghost use Rattle.rv_machine.specs.Memo.{AreDecoded};

use rv_decode::Inst::Ecall;
use rv_decode::{Inst, decode};

// So many instructions are kept.
const KEPT: usize = 1024;

// The word of ECALL.
const ECALL: u32 = 0x00000073;

/// Decoded instructions by the addresses of their words. A word that returns to its address is decoded once. Two
/// addresses share a place if they differ by a multiple of so many words.
#[derive(Drop)]
pub(crate) struct Memo {
    words: [u32; KEPT],
    insts: [Inst; KEPT],
    ghost words_size: { length words ≡ 1024 },
    ghost insts_size: { length insts ≡ 1024 },
    ghost decoded: { AreDecoded words insts },
}

impl Memo {
    /// Each place has the word of ECALL.
    pub(crate) fn new() -> Memo {
        Memo {
            words: [ECALL; KEPT],
            insts: [Ecall; KEPT],
        }
    }

    /// The instruction of the word at an address, or `None` for an illegal word.
    #[inline(always)]
    pub(crate) fn decode(&mut self, at: u32, word: u32) -> Option<Inst>
        ensures table { result ≡ decoded word }
        ensures ranges { IfSome result HasRanges }
    {
        let place = (at / 4 % 1024) as usize;
        if self.words[place] == word || self.enter(place, word) {
            Some(self.inst_at(place, word))
        } else {
            None
        }
    }

    // The instruction at a place that has a word.
    #[inline(always)]
    fn inst_at(&self, place: usize, word: u32) -> Inst
        requires inside { place < 1024 }
        requires word { slice_index self.now.words place ≡ word }
        ensures { decoded word ≡ Some result }
    {
        self.insts[place]
    }

    // Puts a word at a place, if it is legal, and returns whether it did.
    #[inline(never)]
    fn enter(&mut self, place: usize, word: u32) -> bool
        requires { place < 1024 }
        ensures entered { IsTrue result → slice_index self.new.words place ≡ word }
        ensures illegal { IsFalse result → decoded word ≡ None }
    {
        match decode(word) {
            Some(inst) => {
                self.words[place] = word;
                self.insts[place] = inst;
                true
            }
            None => false,
        }
    }
}

// A count of the steps of all machines that share it.
ghost use Rattle.std.specs.Prelude.{◌≡◌, ◌+◌, ◌<◌, ℕ};
ghost use Rattle.rv_machine.specs.Counting.{IsBlankOf};

use crate::memo::Memo;
use std::marker::Model;
use std::sync::ledger::{Blank, Book, Ledger, Share};

/// Counts the steps that were taken. It takes no memory, and only functions that take steps change it. The count isn't
/// in compiled code. Beside it the object keeps the last decoded instructions, some 12 KB.
#[derive(Drop)]
pub struct Steps<L: Ledger> {
    book: Book<L>,
    share: Share<L>,
    // Instructions decoded before.
    pub(crate) memo: Memo,
}

impl<L: Ledger> Steps<L> {
    /// The count before the first step. The caller chooses the ledger, since the count isn't in compiled code.
    pub fn new(blank: Blank) -> Steps<L>
        requires { IsBlankOf blank.name blank.parts L.name L.parts }
        ensures { result ≡ 0 }
    {
        let (book, share) = blank.open::<L>();
        Steps {
            book,
            share,
            memo: Memo::new(),
        }
    }

    pub(crate) fn add(&mut self, count: u32)
        ensures { self.new ≡ self.old + count }
    {
        self.book.add(&mut self.share, count as u64);
    }
}

impl<L: Ledger> Model for Steps<L> {
    ghost Value = { ℕ };

    ghost view = { λ s. s.book.total };

    ghost invariant = { λ s. 0 < s.share.parts };
}

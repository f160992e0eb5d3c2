// A walk back over an undo list, which doesn't change.
ghost use Rattle.std.specs.Prelude.{◌≡◌, ◌∷◌, length, List};
ghost use Rattle.rv_pages.specs.Prelude.{page_numbers};
ghost use Rattle.unit_undo.specs.Entry.{Entry, undone};
ghost use Rattle.unit_undo.specs.UndoState.{CanGoBack, entries_code};
ghost use Rattle.unit_undo.specs.UndoFields.{entries_walked, IsWalk};

use crate::saved::Saved;
use rv_machine::State;
use std::marker::Model;

/// The entries that a walk has not yet passed. Several threads may walk back over one list, each with its own state.
#[derive(Drop)]
pub struct UndoWalk<'a> {
    pub(crate) entries: &'a [Saved],
    pub(crate) bytes: &'a [u8],
}

impl<'a> UndoWalk<'a> {
    /// How many entries are left.
    pub fn left(&self) -> u32
        ensures { result ≡ length self.now }
    {
        self.entries.len() as u32
    }

    /// Undoes the step of the last entry that is left, and keeps the others.
    #[inline(always)]
    pub fn back(&mut self, state: &mut State)
        requires { CanGoBack self.old state.old }
        ensures back { (e : Entry) × ((self.old ≡ e ∷ self.new) × (state.new ≡ undone e state.old)) }
        ensures pages { page_numbers state.new.memory ≡ page_numbers state.old.memory }
    {
        let (saved, entries) = self.entries.split_last().unwrap();
        let (bytes, old) = self.bytes.split_at(self.bytes.len() - saved.count as usize);
        saved.put_back(state, old);
        self.entries = entries;
        self.bytes = bytes;
    }
}

impl<'a> Model for UndoWalk<'a> {
    ghost Value = { List Entry };

    ghost coded = { entries_code };

    ghost view = { entries_walked };

    ghost invariant = { IsWalk };
}

// Shared by the tests of sessions and questions: a list of four steps, the stack's place, and a check of keepers.
ghost use Rattle.std.specs.Prelude.{◌<◌, ◌≤◌, length, slice_index_or};
ghost use Rattle.std.specs.Bool.{OnTrue};
ghost use Rattle.level_book.specs.Prelude.{slots_of, room};
ghost use Rattle.reverse_runner.specs.Prelude.{HaveRoom, slot_counts};

use keepers::Keeper;
use level_book::Book;
use plan_types::Action;

// Where x2 points at the start.
pub(crate) const STACK: u32 = 0xbffffff0;

// Revolve's list for three steps and two slots. It keeps each state. Its images are stored on these levels, and the
// second is moved from this one.
pub(crate) fn three_on(first: u8, second: u8, moved: u8) -> [Action; 12] {
    [
        Action::store(0, 1, first),
        Action::store(1, 2, second),
        Action::tape(2, 3),
        Action::EndForward,
        Action::reverse(3, 2),
        Action::take(1, moved),
        Action::tape(1, 2),
        Action::reverse(2, 1),
        Action::take(0, first),
        Action::tape(0, 1),
        Action::reverse(1, 0),
        Action::EndReverse,
    ]
}

// The same list on one level.
pub(crate) fn three() -> [Action; 12] {
    three_on(0, 0, 0)
}

// A list that reverses four steps over one level with two slots. It loads one state twice. From step 3 on it goes back
// as the list for three steps.
pub(crate) fn four() -> [Action; 16] {
    let mut list = [Action::EndReverse; 16];
    let (front, back) = list.split_at_mut(8);
    front.copy_from_slice(&[
        Action::store(0, 1, 0),
        Action::store(1, 3, 0),
        Action::tape(3, 4),
        Action::EndForward,
        Action::reverse(4, 3),
        Action::load(1, 0),
        Action::advance(1, 2),
        Action::tape(2, 3),
    ]);
    back.copy_from_slice(&three()[4..]);
    list
}

// Whether a level has a keeper with as many slots as a run of so many steps can use.
fn has_room<K: Keeper>(keepers: &[K], book: &Book, k: u8, steps: u32) -> bool
    requires { k < length book.now.levels }
    ensures { OnTrue result ((k < length keepers.now) × (room book.now k steps ≤ slice_index_or (slot_counts K.Storage keepers.now) k 0)) }
{
    match keepers.get(k as usize) {
        Some(keeper) => book.room(k, steps) <= keeper.slots(),
        None => false,
    }
}

// Whether each level has a keeper with as many slots as a run of so many steps can use.
pub(crate) fn have_room<K: Keeper>(keepers: &[K], book: &Book, steps: u32) -> bool
    ensures { OnTrue result (HaveRoom steps (slots_of book.now) (slot_counts K.Storage keepers.now)) }
{
    for k in 0..book.levels() {
        if !has_room(keepers, book, k, steps) {
            return false;
        }
    }
    true
}

// Whether a list is in the disk class.
ghost use Rattle.std.specs.Prelude.{◌≡◌, ◌↔◌, ◌≤◌, [], ◌∷◌, length, slice_get, Some, IfOk, IsTrue};
ghost use Rattle.plan_types.specs.declared.limits.TheConstants.{MOST_STEPS};
ghost use Rattle.level_book.specs.Prelude.{slots_of, Disk, ForwardsFirst, NeverStores};

use crate::nested::in_nested;
use level_book::{Book, Slots};
use plan_types::{Action, Keep};
use std::alloc::{AllocError, Global};

/// Whether the list is in the disk class for so many steps and this book. Then it is nested and valid. It takes as much
/// memory as `in_nested`.
pub fn in_disk(alloc: Global, list: &[Action], steps: u32, book: &Book) -> Result<bool, AllocError>
    requires { steps ≤ MOST_STEPS }
    ensures { IfOk result (λ is. IsTrue is ↔ Disk steps (slots_of book.now) list.now) }
{
    if !has_unlimited_disk(book) || !has_forwards_first(list) {
        return Ok(false);
    }
    in_nested(alloc, list, steps, book)
}

// Whether there are two levels, and the slow one is unlimited.
fn has_unlimited_disk(book: &Book) -> bool
    ensures { IsTrue result ↔ ((length (slots_of book.now) ≡ 2) × (slice_get (slots_of book.now) 1 ≡ Some Slots.Unlimited)) }
{
    book.levels() == 2 && book.level(1).slots == Slots::Unlimited
}

// Whether only Forwards come before EndForward, and no Store on level 1 after it.
fn has_forwards_first(list: &[Action]) -> bool
    ensures { IsTrue result ↔ ForwardsFirst list.now }
{
    for i in 0..list.len() {
        match list[i] {
            Action::Forward { .. } => {}
            Action::EndForward => return never_stores(1, &list[i + 1..]),
            _ => return false,
        }
    }
    true
}

// Whether no action stores on this level.
fn never_stores(level: u8, list: &[Action]) -> bool
    ensures { IsTrue result ↔ NeverStores level list.now }
{
    for i in 0..list.len() {
        if stores(level, list[i]) {
            return false;
        }
    }
    true
}

fn stores(level: u8, action: Action) -> bool
    ensures { IsTrue result ↔ (NeverStores level (action ∷ []) → ⊥) }
{
    match action {
        Action::Forward {
            keep: Keep::Store(k),
            ..
        } => k == level,
        _ => false,
    }
}

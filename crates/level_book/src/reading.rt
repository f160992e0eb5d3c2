// Books in JSON.
ghost use Rattle.std.specs.Prelude.{◌≡◌, ◌≤◌, nat_lt, nat_le, ◌&&◌, min, map, length, take, Some, None, IfOk, IfErr, MatchResult};
ghost use Rattle.std.specs.List.{AllByRecursion};
ghost use Rattle.serde_json.specs.View.{view};
ghost use Rattle.level_book.specs.BookCosts.{IsLevelWithinLimits};
ghost use Rattle.level_book.specs.BookText.{SaysLevel, SayLevels, SaysBook};
ghost use Rattle.level_book.specs.BookFaults.{unless, fault_in, IsBookText, IsRefused};
ghost use Rattle.level_book.specs.EntryTests.{IsFaultless};

use crate::book::{Book, Level, Name, Slots, ram};
use crate::checks::{EntryTest, check_cost};
use crate::fault::BookFault;
use crate::fields::{list, name_bytes, number, number_or_zero};
use serde_json::{Category, Value};
use std::alloc::Global;

/// Reads the JSON text of a book. It takes memory for the JSON value, and frees it before it returns.
pub fn read_book(alloc: Global, bytes: &[u8]) -> Result<Book, BookFault>
    ensures found { IfOk result (IsBookText bytes.now) }
    ensures refused { IfErr result (IsRefused bytes.now) }
{
    match Value::from_slice(alloc, bytes) {
        Ok(value) => book_of(&value),
        Err(e) if e.classify() == Category::Memory => Err(BookFault::Memory),
        Err(_) => Err(BookFault::NotJson),
    }
}

// The book that a value means.
fn book_of(value: &Value) -> Result<Book, BookFault>
    ensures { MatchResult result
        (λ book. SaysBook (view value.now) book × (fault_in (view value.now) ≡ None))
        (λ fault. fault_in (view value.now) ≡ Some fault) }
{
    if !value.is_object() {
        return Err(BookFault::Shape(0));
    }
    let forward = number(value, "forward").ok_or(BookFault::Shape(1))?;
    let reverse = number(value, "reverse").ok_or(BookFault::Shape(2))?;
    let entries = list(value).ok_or(BookFault::Shape(3))?;
    check_count(entries.len())?;
    EntryTest::Shape.check(entries)?;
    EntryTest::Name.check(entries)?;
    EntryTest::Costs.check(entries)?;
    check_cost(forward, 254)?;
    check_cost(reverse, 255)?;
    EntryTest::Slots.check(entries)?;
    EntryTest::Order.check(entries)?;
    Ok(Book::new(
        forward as u32,
        reverse as u32,
        levels_of(entries),
        entries.len() as u8,
    ))
}

// Whether there are 1 to 4 levels.
fn check_count(count: usize) -> Result<(), BookFault>
    ensures { let fault = unless (nat_lt 0 count && nat_le count 4) (BookFault.Levels (min count 4294967295)) in
        MatchResult result (λ _. fault ≡ None) (λ e. fault ≡ Some e) }
{
    if 0 < count && count <= 4 {
        Ok(())
    } else {
        Err(BookFault::Levels(count.min(u32::MAX as usize) as u32))
    }
}

// The levels of faultless entries, filled up to four with levels that don't count.
fn levels_of(entries: &[Value]) -> [Level; 4]
    requires few { length entries.now ≤ 4 }
    requires faultless { AllByRecursion IsFaultless (map view entries.now) }
    ensures says { SayLevels (map view entries.now) (take (length entries.now) result) }
    ensures limits { AllByRecursion IsLevelWithinLimits result }
{
    let mut levels = [ram(0), ram(0), ram(0), ram(0)];
    for (k, entry) in entries.iter().enumerate() {
        levels[k] = level_of(entry);
    }
    levels
}

// The level that an entry means.
fn level_of(entry: &Value) -> Level
    requires { IsFaultless (view entry.now) }
    ensures says { SaysLevel (view entry.now) result }
    ensures limits { IsLevelWithinLimits result }
{
    Level {
        name: Name::new(name_bytes(entry)),
        slots: match number(entry, "slots") {
            Some(slots) => Slots::Count(slots as u32),
            None => Slots::Unlimited,
        },
        write: number_or_zero(entry, "write") as u32,
        read: number_or_zero(entry, "read") as u32,
    }
}

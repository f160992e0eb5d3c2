// The tests of the entries of a book's list. Each goes over all entries; the first that fails it is the fault.
ghost use Rattle.std.specs.Prelude.{◌≡◌, ◌<◌, ◌≤◌, nat_le, ◌&&◌, map, codes, length, slice_get, slice_index, Some, None, MatchResult};
ghost use Rattle.std.specs.List.{list_any, list_all};
ghost use Rattle.std.specs.Char.{is_ascii_uppercase};
ghost use Rattle.std.specs.Str.{bytes_eq};
ghost use Rattle.plan_types.specs.declared.limits.TheConstants.{MOST_COST};
ghost use Rattle.serde_json.specs.View.{view};
ghost use Rattle.serde_json.specs.declared.value.Value.{Value};
ghost use Rattle.level_book.specs.Names.{is_name, is_spelled, is_name_byte};
ghost use Rattle.level_book.specs.BookFaults.{unless, first_of, each, number_of, name_of, shape_fault, name_fault, cost_fault, slot_fault, order_fault};
ghost use Rattle.level_book.specs.EntryTests.{found_by};

use crate::fault::BookFault;
use crate::fields::{missing, name_bytes, number_or_zero};
use plan_types::{MOST_COST, MOST_SLOTS};
use serde_json::Value;

// What is tested of each entry of the list.
#[derive(Clone, Copy)]
pub(crate) enum EntryTest {
    // It has its four fields.
    Shape,
    // It has a name, which no earlier entry has.
    Name,
    // Its costs are in range.
    Costs,
    // Its slots are in range.
    Slots,
    // It costs no less than the entry before it.
    Order,
}

impl EntryTest {
    // Whether all entries pass; the fault is that of the first that doesn't.
    pub(crate) fn check(self, list: &[Value]) -> Result<(), BookFault>
        requires { length list.now ≤ 4 }
        ensures { let fault = first_of (each (found_by self (map view list.now)) (map view list.now)) in
            MatchResult result (λ _. fault ≡ None) (λ e. fault ≡ Some e) }
    {
        for k in 0..list.len() {
            if let Some(fault) = self.fault_at(list, k as u8) {
                return Err(fault);
            }
        }
        Ok(())
    }

    // The fault of entry k.
    fn fault_at(self, list: &[Value], k: u8) -> Option<BookFault>
        requires few { length list.now ≤ 4 }
        requires within { k < length list.now }
        ensures { (entry : Value) → slice_get list.now k ≡ Some entry → result ≡ found_by self (map view list.now) k (view entry) }
    {
        let entry = &list[k as usize];
        match self {
            EntryTest::Shape => shape_fault(k, entry),
            EntryTest::Name => name_fault(list, k, entry),
            EntryTest::Costs => cost_fault(k, entry),
            EntryTest::Slots => slot_fault(k, entry),
            EntryTest::Order => order_fault(list, k, entry),
        }
    }
}

// Whether a cost that isn't a level's is in range. Otherwise the fault has this number.
pub(crate) fn check_cost(cost: u64, number: u8) -> Result<(), BookFault>
    ensures { let fault = unless (nat_le cost MOST_COST) (BookFault.CostRange number) in MatchResult result (λ _. fault ≡ None) (λ e. fault ≡ Some e) }
{
    if cost <= MOST_COST {
        Ok(())
    } else {
        Err(BookFault::CostRange(number))
    }
}

// The fault, unless the test holds.
fn unless(holds: bool, fault: BookFault) -> Option<BookFault>
    ensures { result ≡ unless holds fault }
{
    if holds { None } else { Some(fault) }
}

fn shape_fault(k: u8, entry: &Value) -> Option<BookFault>
    requires { k < 4 }
    ensures { result ≡ shape_fault k (view entry.now) }
{
    match missing(entry) {
        Some(field) => Some(BookFault::Shape(4 + 4 * k + field)),
        None => None,
    }
}

fn name_fault(list: &[Value], k: u8, entry: &Value) -> Option<BookFault>
    requires { k < length list.now }
    ensures { result ≡ name_fault (map view list.now) k (view entry.now) }
{
    let name = name_bytes(entry);
    let is_own = !is_taken(&list[..k as usize], name);
    unless(is_name(name) && is_own, BookFault::Name(k))
}

// Whether one of these entries has the name.
fn is_taken(earlier: &[Value], name: &[u8]) -> bool
    ensures { result ≡ list_any (λ entry. bytes_eq (name_of (view entry)) name.now) earlier.now }
{
    earlier.iter().any(|entry| name_bytes(entry) == name)
}

// Whether bytes are a name of a level.
fn is_name(name: &[u8]) -> bool
    ensures { result ≡ is_name name.now }
{
    is_spelled(name) && name != b"WORK".as_slice() && name != b"NONE".as_slice()
}

// Whether bytes are spelled as a name.
fn is_spelled(name: &[u8]) -> bool
    ensures { result ≡ is_spelled name.now }
{
    begins_with_letter(name) && name.len() <= 16 && are_name_bytes(name)
}

fn begins_with_letter(name: &[u8]) -> bool
    ensures { result ≡ is_ascii_uppercase (slice_index name.now 0) }
{
    !name.is_empty() && name[0].is_ascii_uppercase()
}

fn are_name_bytes(name: &[u8]) -> bool
    ensures { result ≡ list_all is_name_byte name.now }
{
    name.iter().all(|b| is_name_byte(*b))
}

fn is_name_byte(b: u8) -> bool
    ensures { result ≡ is_name_byte b }
{
    b.is_ascii_uppercase() || b.is_ascii_digit() || b == b'_'
}

fn cost_fault(k: u8, entry: &Value) -> Option<BookFault>
    ensures { result ≡ cost_fault k (view entry.now) }
{
    let write = number_or_zero(entry, "write");
    let read = number_or_zero(entry, "read");
    unless(
        write <= MOST_COST && read <= MOST_COST,
        BookFault::CostRange(k),
    )
}

fn slot_fault(k: u8, entry: &Value) -> Option<BookFault>
    ensures { result ≡ slot_fault k (view entry.now) }
{
    let slots = number_or_zero(entry, "slots");
    unless(slots <= u64::from(MOST_SLOTS), BookFault::SlotRange(k))
}

fn order_fault(list: &[Value], k: u8, entry: &Value) -> Option<BookFault>
    requires { k < length list.now }
    ensures { result ≡ order_fault (map view list.now) k (view entry.now) }
{
    let is_ordered = k == 0 || costs_no_less(entry, &list[k as usize - 1]);
    unless(is_ordered, BookFault::CostOrder(k))
}

// Whether an entry costs no less to write and to read than the one before it.
fn costs_no_less(entry: &Value, before: &Value) -> bool
    ensures { result ≡ (nat_le (number_of (codes "write") (view before.now)) (number_of (codes "write") (view entry.now))
        && nat_le (number_of (codes "read") (view before.now)) (number_of (codes "read") (view entry.now))) }
{
    number_or_zero(before, "write") <= number_or_zero(entry, "write")
        && number_or_zero(before, "read") <= number_or_zero(entry, "read")
}

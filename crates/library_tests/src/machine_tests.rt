// What steps of the machine don't show: which pages of the memory are touched, and how memory is copied. Also that
// recorded input is written as it was read, and that a state is cloned. The rows and cases of machine_rows show what
// steps do.
ghost use Rattle.std.specs.Prelude.{◌≡◌, ◌^◌, ◌<◌, ◌≤◌, vec_len, IfOk};
ghost use Rattle.std.specs.List.{All};
ghost use Rattle.std.specs.List.Sorted.{IsStrictlyIncreasing};
ghost use Rattle.rv_machine.specs.Prelude.{IsBlankOf};
ghost use Rattle.rv_pages.specs.Prelude.{page_numbers};

use crate::states::first_state;
use input_journal::{Journal, read_journal, write_journal};
use rv_machine::{State, Steps, step};
use rv_pages::Pages;
use std::alloc::{AllocError, Global};
use std::marker::Brand;
use std::process::Abort;
use std::sync::ledger::{Blank, Ledger};
use std::test::Fail;

// So many page numbers, each 256 above the one before.
fn far_apart(alloc: Global, count: u32) -> Result<Vec<u32>, AllocError>
    requires { count ≤ 4096 }
    ensures ascending { IfOk result (λ v. IsStrictlyIncreasing v.items) }
    ensures below { IfOk result (λ v. All (λ number. number < 2 ^ 20) v.items) }
    ensures count { IfOk result (λ v. vec_len v ≡ count) }
{
    let mut numbers = Vec::new(alloc);
    for index in 0..count {
        numbers.push(index * 256)?;
    }
    Ok(numbers)
}

// Looks at words, each with its address.
fn check_words(rt: &impl Abort, pages: &Pages, words: &[(u32, u32)]) {
    for (at, value) in words {
        assert!(rt; pages.load32(*at) == Some(*value));
    }
}

// Writes words, each with its address.
fn store_words(rt: &impl Abort, pages: &mut Pages, words: &[(u32, u32)])
    ensures { page_numbers pages.new ≡ page_numbers pages.old }
{
    for (at, value) in words {
        assert!(rt; pages.store32(*at, *value));
    }
}

// Writes the last word of the last page. No other page is touched then.
fn write_last(rt: &impl Abort, pages: &mut Pages, count: u32)
    requires { (1 ≤ count) × (count ≤ 4096) }
    ensures { page_numbers pages.new ≡ page_numbers pages.old }
{
    let last = (count - 1) * 0x100000;
    assert!(rt; pages.store32(last + 0xFFC, 0xAABBCCDD), "of {count}");
    assert_eq!(rt; pages.load8(last + 0x1000), None);
    assert_eq!(rt; pages.next_touched(count), None);
}

// Only the last page is touched, and has the word that was written.
fn check_last(rt: &impl Abort, pages: &Pages, count: u32)
    requires { (1 ≤ count) × (count ≤ 4096) }
{
    let last = (count - 1) * 0x100000;
    assert_eq!(rt; pages.load32(last + 0xFFC), Some(0xAABBCCDD));
    assert_eq!(rt; pages.next_touched(0), Some(count - 1));
}

// A clone is written in its first page too, and then made equal again.
fn check_clone(rt: &impl Abort, pages: &Pages, count: u32) -> Result<(), AllocError>
    requires { (1 ≤ count) × (count ≤ 4096) }
{
    let mut twin = pages.clone()?;
    check_last(rt, &twin, count);
    assert!(rt; twin.store8(0xFFF, 7));
    assert_eq!(rt; twin.next_touched(0), Some(0));
    let second = if count == 1 { None } else { Some(count - 1) };
    assert_eq!(rt; twin.next_touched(1), second);
    twin.copy_from(pages);
    check_last(rt, &twin, count);
    Ok(())
}

#[test]
fn pages_far_apart_are_found_and_only_written_ones_are_touched(
    rt: HostRuntime,
) -> Result<(), Fail> {
    for count in [1, 64, 65, 4096] {
        let numbers = far_apart(rt.alloc(), count)?;
        let mut pages = Pages::map(rt.alloc(), &numbers)?;
        assert_eq!(rt; pages.count(), count);
        write_last(&rt, &mut pages, count);
        check_last(&rt, &pages, count);
        check_clone(&rt, &pages, count)?;
    }
    Ok(())
}

#[test]
fn memories_with_different_pages_written_are_copied_to_each_other(
    rt: HostRuntime,
) -> Result<(), Fail> {
    let numbers = far_apart(rt.alloc(), 130)?;
    let mut first = Pages::map(rt.alloc(), &numbers)?;
    let mut second = Pages::map(rt.alloc(), &numbers)?;
    // the pages 0, 63 and 64 of the one, and 64, 65 and 129 of the other
    store_words(&rt, &mut first, &[(0, 1), (0x3F00000, 2), (0x4000000, 3)]);
    store_words(
        &rt,
        &mut second,
        &[(0x4000000, 4), (0x4100000, 5), (0x8100000, 6)],
    );
    let kept = first.clone()?;
    first.copy_from(&second);
    check_words(
        &rt,
        &first,
        &[
            (0, 0),
            (0x3F00000, 0),
            (0x4000000, 4),
            (0x4100000, 5),
            (0x8100000, 6),
        ],
    );
    second.copy_from(&kept);
    check_words(
        &rt,
        &second,
        &[
            (0, 1),
            (0x3F00000, 2),
            (0x4000000, 3),
            (0x4100000, 0),
            (0x8100000, 0),
        ],
    );
    Ok(())
}

// One item, with the bytes 61 62.
const ONE_ITEM: &[u8] = b"RVJL\x01\0\0\0\x01\0\0\0\x02\0\0\0ab";

// One item, no item, an empty one, one that begins like a file of recorded input, and two with an empty one between.
const JOURNALS: &[(&[u8], &[&[u8]])] = &[
    (ONE_ITEM, &[b"ab"]),
    (b"RVJL\x01\0\0\0\0\0\0\0", &[]),
    (b"RVJL\x01\0\0\0\x01\0\0\0\0\0\0\0", &[b""]),
    (
        b"RVJL\x01\0\0\0\x01\0\0\0\x06\0\0\0RVJL\x01\0",
        &[b"RVJL\x01\0"],
    ),
    (
        b"RVJL\x01\0\0\0\x03\0\0\0\x01\0\0\0\xff\0\0\0\0\x02\0\0\0yz",
        &[b"\xff", b"", b"yz"],
    ),
];

#[test]
fn journals_are_read_and_written_as_they_are_spelled(rt: HostRuntime) -> Result<(), Fail> {
    for (bytes, items) in JOURNALS {
        let journal = read_journal(rt.alloc(), Vec::from_slice(rt.alloc(), bytes)?)?;
        assert_eq!(rt; journal.count() as usize, items.len(), "{bytes:?}");
        for (i, item) in items.iter().enumerate() {
            assert!(rt; (i as u32) < journal.count());
            assert!(rt; journal.item(i as u32) == *item, "item {i} of {bytes:?}");
        }
        let written = write_journal(rt.alloc(), &journal)?;
        assert!(rt; written.as_slice() == *bytes, "{bytes:?}");
    }
    Ok(())
}

// The state after a step without recorded input.
fn stepped<L: Ledger>(mut state: State, alloc: Global, blank: Blank) -> State
    requires { IsBlankOf blank.name blank.parts L.name L.parts }
    ensures { page_numbers result.memory ≡ page_numbers state.memory }
{
    let mut steps = Steps::<L>::new(blank);
    step(&mut state, &Journal::none(alloc), &mut steps);
    state
}

#[test]
fn a_clone_goes_its_own_way_until_it_is_copied_over(rt: HostRuntime) -> Result<(), Fail> {
    // the word at 0x10000 puts 7 into x10
    let start = first_state(&rt, rt.alloc(), &[0x10], &[0x00700513], 0)?;
    let mut state = stepped::<Brand>(start.clone()?, rt.alloc(), Blank::new(1));
    assert_eq!(rt; (state.pc, state.x[10]), (0x10004, 7));
    state.copy_from(&start);
    assert_eq!(rt; (state.pc, state.x[10]), (0x10000, 0));
    Ok(())
}

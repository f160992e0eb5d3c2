// The start states of the tests' programs.
ghost use Rattle.std.specs.Prelude.{◌^◌, ◌<◌, ◌≤◌, length};
ghost use Rattle.std.specs.Bool.{OnTrue};
ghost use Rattle.std.specs.List.{All};
ghost use Rattle.std.specs.List.Sorted.{IsStrictlyIncreasing};

use rv_machine::{State, Status};
use rv_pages::Pages;
use std::alloc::{AllocError, Global};
use std::process::Abort;

// Whether pages with these numbers can be mapped: at most 4,096 numbers that ascend, each below 2 ^ 20.
fn can_be_mapped(numbers: &[u32]) -> bool
    ensures ascending { OnTrue result (IsStrictlyIncreasing numbers.now) }
    ensures below { OnTrue result (All (λ number. number < 2 ^ 20) numbers.now) }
    ensures few { OnTrue result (length numbers.now ≤ 4096) }
{
    let mut next = 0;
    for number in numbers {
        if *number < next || 0xfffff < *number {
            return false;
        }
        next = *number + 1;
    }
    numbers.len() <= 4096
}

// The state with these words from 0x10000 on, the first of them next. It maps the pages with these numbers. All
// registers are 0 but x2, which has the stack's address.
pub(crate) fn first_state(
    rt: &impl Abort,
    alloc: Global,
    numbers: &[u32],
    words: &[u32],
    stack: u32,
) -> Result<State, AllocError> {
    assert!(rt; can_be_mapped(numbers), "the pages can be mapped");
    let mut pages = Pages::map(alloc, numbers)?;
    let mut at = 0x10000u32;
    for word in words {
        pages.store32(at, *word);
        at = at.wrapping_add(4);
    }
    let mut x = [0; 32];
    x[2] = stack;
    Ok(State {
        pc: 0x10000,
        x,
        status: Status::Running,
        item: 0,
        offset: 0,
        written: 0,
        pages,
    })
}

// A checksum of states.

use rv_machine::State;

/// A weighted sum, modulo 2 ^ 32, of all memory bytes, the registers, `item`, `offset` and `written`. A weight is a
/// number times 2,654,435,761, with its lowest bit set. A byte's number is its address, a register's its own, and those
/// of `item`, `offset` and `written` are 32 to 34.
pub fn sum_of(state: &State) -> u32 {
    let mut sum = 0u32;
    for (place, word) in state.x.iter().enumerate() {
        sum = sum.wrapping_add(weighed(place as u32, *word));
    }
    sum = sum.wrapping_add(weighed(32, state.item));
    sum = sum.wrapping_add(weighed(33, state.offset));
    sum = sum.wrapping_add(weighed(34, (state.written & 0xffff_ffff) as u32));
    for index in 0..state.pages.count() {
        let start = state.pages.number(index).wrapping_mul(4096);
        sum = sum.wrapping_add(sum_of_page(start, state.pages.page(index)));
    }
    sum
}

fn sum_of_page(start: u32, bytes: &[u8]) -> u32 {
    let mut sum = 0u32;
    let mut at = start;
    for byte in bytes {
        sum = sum.wrapping_add(weighed(at, *byte as u32));
        at = at.wrapping_add(1);
    }
    sum
}

fn weighed(place: u32, word: u32) -> u32 {
    word.wrapping_mul(place.wrapping_mul(2654435761) | 1)
}

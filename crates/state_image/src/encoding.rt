// The image of a state, as bytes in memory.
ghost use Rattle.std.specs.Prelude.{◌≡◌, ◌+◌, ◌*◌, ◌≤◌, ◌++◌, false, length, drop};
ghost use Rattle.std.specs.List.{flat_map};
ghost use Rattle.std.specs.Int.{to_le_bytes, w32};
ghost use Rattle.std.specs.Vec.{vec_len, vec_capacity};
ghost use Rattle.rv_pages.specs.Prelude.{page_numbers};
ghost use Rattle.state_image.specs.declared.layout.TheConstants.{REGISTER_BYTES, PAGES, PAGE_FIELD};
ghost use Rattle.state_image.specs.StoredPages.{MarksStored};
ghost use Rattle.state_image.specs.Image.{image, header, pages_stored, page_field};
ghost use Rattle.state_image.specs.ImageForm.{memory_room};

use crate::image::{MAX_PAGES, VERSION, mark_stored, status_numbers};
use crate::layout::{PAGE_FIELD, PAGES};
use rv_machine::State;
use rv_pages::Pages;

/// The most bytes that an image of a state with these mapped pages has.
pub fn max_image(state: &State) -> u32
    ensures value { result ≡ memory_room state.now.memory }
    ensures most { result ≤ PAGES + PAGE_FIELD * 4096 }
{
    PAGES as u32 + PAGE_FIELD as u32 * state.pages.count()
}

/// Writes the image of a state into reserved memory, replacing what was there. It takes no memory.
pub fn encode_image(state: &State, into: &mut Vec<u8>)
    requires { memory_room state.now.memory ≤ vec_capacity into.old }
    ensures image { into.new.items ≡ image state.now }
    ensures short { vec_len into.new ≤ memory_room state.now.memory }
    ensures reserved { vec_capacity into.old ≤ vec_capacity into.new }
{
    into.clear();
    append_image(state, into);
}

/// Appends the image of a state, into reserved memory. It takes no memory.
pub fn append_image(state: &State, into: &mut Vec<u8>)
    requires { vec_len into.old + memory_room state.now.memory ≤ vec_capacity into.old }
    ensures image { into.new.items ≡ into.old.items ++ image state.now }
    ensures short { vec_len into.new ≤ vec_len into.old + memory_room state.now.memory }
    ensures reserved { vec_capacity into.old ≤ vec_capacity into.new }
{
    let mut stored = [false; MAX_PAGES];
    let count = mark_stored(&state.pages, &mut stored);
    push_header(state, count, into);
    push_pages(&state.pages, &stored, into);
}

// Writes the image's part before its pages. So many pages are stored.
fn push_header(state: &State, stored: u32, into: &mut Vec<u8>)
    requires stored { stored ≡ length (pages_stored state.now.memory) }
    requires room { vec_len into.old + PAGES ≤ vec_capacity into.old }
    ensures items { into.new.items ≡ into.old.items ++ header state.now }
    ensures len { vec_len into.new ≡ vec_len into.old + PAGES }
    ensures reserved { vec_capacity into.old ≤ vec_capacity into.new }
{
    push(into, b"RVST");
    push_word(into, VERSION);
    push_word(into, state.pc);
    push_registers(into, &state.x);
    let (kind, value) = status_numbers(state.status);
    push_word(into, kind);
    push_word(into, value);
    push_word(into, state.item);
    push_word(into, state.offset);
    push(into, &state.written.to_le_bytes());
    push_word(into, stored);
}

// Writes x1 to x31.
fn push_registers(into: &mut Vec<u8>, x: &[u32; 32])
    requires { vec_len into.old + REGISTER_BYTES ≤ vec_capacity into.old }
    ensures items { into.new.items ≡ into.old.items ++ flat_map (to_le_bytes w32) (drop 1 x.now) }
    ensures len { vec_len into.new ≡ vec_len into.old + REGISTER_BYTES }
    ensures reserved { vec_capacity into.old ≤ vec_capacity into.new }
{
    for word in &x[1..] {
        push_word(into, *word);
    }
}

// Writes the pages that are stored.
fn push_pages(pages: &Pages, stored: &[bool], into: &mut Vec<u8>)
    requires stored { length stored.now ≡ 4096 }
    requires marked { MarksStored pages.now stored.now }
    requires room { vec_len into.old + PAGE_FIELD * length (page_numbers pages.now) ≤ vec_capacity into.old }
    ensures items { into.new.items ≡ into.old.items ++ flat_map (page_field pages.now) (pages_stored pages.now) }
    ensures len { vec_len into.new ≤ vec_len into.old + PAGE_FIELD * length (page_numbers pages.now) }
    ensures reserved { vec_capacity into.old ≤ vec_capacity into.new }
{
    let mut from = 0;
    while let Some(index) = pages.next_touched(from) {
        if stored[index as usize] {
            push_word(into, pages.number(index));
            push(into, pages.page(index));
        }
        from = index + 1;
    }
}

// Writes a number, the lowest byte first.
fn push_word(into: &mut Vec<u8>, word: u32)
    requires { vec_len into.old + 4 ≤ vec_capacity into.old }
    ensures items { into.new.items ≡ into.old.items ++ to_le_bytes w32 word }
    ensures len { vec_len into.new ≡ vec_len into.old + 4 }
    ensures reserved { vec_capacity into.old ≤ vec_capacity into.new }
{
    push(into, &word.to_le_bytes());
}

// Writes bytes for which there is room.
fn push(into: &mut Vec<u8>, piece: &[u8])
    requires { vec_len into.old + length piece.now ≤ vec_capacity into.old }
    ensures items { into.new.items ≡ into.old.items ++ piece.now }
    ensures len { vec_len into.new ≡ vec_len into.old + length piece.now }
    ensures reserved { vec_capacity into.old ≤ vec_capacity into.new }
{
    into.extend_from_slice(piece).unwrap();
}

// The state of an image.
ghost use Rattle.std.specs.Prelude.{◌≡◌, ◌↔◌, ℕ, ◌+◌, ◌≤◌, ◌<◌, false, true, length, slice_index, slice_index_or, None, Some, IfNone, Ok, Err, OnOk, OnErr};
ghost use Rattle.std.specs.Int.{from_le_bytes, w64};
ghost use Rattle.rv_pages.specs.Prelude.{page_numbers, page_bytes, IsZeroPage};
ghost use Rattle.rv_machine.specs.Prelude.{MachineState, IsMachineState, IsStatus};
ghost use Rattle.state_image.specs.declared.layout.TheConstants.{KIND, VALUE, ITEM};
ghost use Rattle.state_image.specs.Image.{image, status_kind, status_value};
ghost use Rattle.state_image.specs.ImageForm.{part, number_at, first_wrong, first_unmapped, is_value, page_count, page_number, page_part, page_start};
ghost use Rattle.state_image.specs.Decoder.{AreRegistersOf, IsUnnamed, AreMapped, MarksNamed, IsRight, IsStateOf};

use crate::fault::ImageFault;
use crate::form::{first_wrong, number_at, page_start};
use crate::image::MAX_PAGES;
use crate::layout::{COUNT, ITEM, KIND, OFFSET, PC, REGISTERS, VALUE, WRITTEN};
use byteorder::{ByteOrder, LittleEndian};
use rv_machine::{State, Status};
use rv_pages::{PAGE, Pages};

/// Replaces a state by that of an image. After a refusal it is unchanged. It takes no memory, since the pages are
/// already mapped. It touches only pages of the image and pages that were written.
pub fn decode_image(bytes: &[u8], state: &mut State) -> Result<(), ImageFault>
    ensures not_image { (at : ℕ) → (result ≡ Err (ImageFault.NotImage at)) ↔ (first_wrong bytes.now ≡ Some at) }
    ensures other_pages { (page : ℕ) → (result ≡ Err (ImageFault.OtherPages page)) ↔ ((first_wrong bytes.now ≡ None)
        × (first_unmapped bytes.now (page_numbers state.old.memory) ≡ Some page)) }
    ensures decoded { OnOk result (image state.new ≡ bytes.now) }
    ensures pages { page_numbers state.new.memory ≡ page_numbers state.old.memory }
    ensures refused { OnErr result (state.new ≡ state.old) }

    // Each state with these pages is decoded from its image.
    ensures again { (s : MachineState) → IsMachineState s → page_numbers s.memory ≡ page_numbers state.old.memory → image s ≡ bytes.now →
        (result ≡ Ok tt) × (state.new ≡ s) }
{
    if let Some(at) = first_wrong(bytes) {
        return Err(ImageFault::NotImage(at as u64));
    }
    let mut named = [false; MAX_PAGES];
    if let Some(page) = first_unmapped(bytes, &state.pages, &mut named) {
        return Err(ImageFault::OtherPages(page));
    }
    take_state(bytes, &named, state);
    state.is_machine_state();
    Ok(())
}

// The first page in the bytes that isn't mapped. The others are marked by their indices.
fn first_unmapped(bytes: &[u8], pages: &Pages, named: &mut [bool]) -> Option<u32>
    requires image { IsRight bytes.now }
    requires room { length named.old ≡ 4096 }
    requires unmarked { (i : ℕ) → slice_index_or named.old i false ≡ false }
    ensures value { result ≡ first_unmapped bytes.now (page_numbers pages.now) }
    ensures mapped { IfNone result (AreMapped bytes.now (page_numbers pages.now)) }
    ensures marked { MarksNamed bytes.now (page_numbers pages.now) named.new }
    ensures room { length named.new ≡ 4096 }
{
    for k in 0..number_at(bytes, COUNT) {
        let number = number_at(bytes, page_start(k));
        let Some(index) = pages.index_of(number) else {
            return Some(number);
        };
        named[index as usize] = true;
    }
    None
}

// Reads a state from the bytes of its image.
fn take_state(bytes: &[u8], named: &[bool], state: &mut State)
    requires image { IsRight bytes.now }
    requires mapped { AreMapped bytes.now (page_numbers state.old.memory) }
    requires marked { MarksNamed bytes.now (page_numbers state.old.memory) named.now }
    requires room { length named.now ≡ 4096 }
    ensures state { IsStateOf bytes.now state.new }
    ensures pages { page_numbers state.new.memory ≡ page_numbers state.old.memory }
{
    state.pc = number_at(bytes, PC);
    state.x = registers_in(bytes);
    state.status = status_in(bytes);
    state.item = number_at(bytes, ITEM);
    state.offset = number_at(bytes, OFFSET);
    state.written = long_at(bytes, WRITTEN);
    clear_unnamed(named, &mut state.pages);
    copy_pages(bytes, &mut state.pages);
}

// The number of eight bytes at a place.
fn long_at(bytes: &[u8], at: usize) -> u64
    requires { at + 8 ≤ length bytes.now }
    ensures { result ≡ from_le_bytes w64 (part bytes.now at 8) }
{
    LittleEndian::read_u64(&bytes[at..])
}

// The registers of an image.
fn registers_in(bytes: &[u8]) -> [u32; 32]
    requires { KIND ≤ length bytes.now }
    ensures { AreRegistersOf bytes.now result }
{
    let mut x = [0; 32];
    for k in 0..31 {
        x[k + 1] = number_at(bytes, REGISTERS + 4 * k);
    }
    x
}

// The status of an image.
fn status_in(bytes: &[u8]) -> Status
    requires there { ITEM ≤ length bytes.now }
    requires kind { number_at bytes.now KIND ≤ 2 }
    requires value { is_value (number_at bytes.now KIND) (number_at bytes.now VALUE) ≡ true }
    ensures kind { status_kind result ≡ number_at bytes.now KIND }
    ensures value { status_value result ≡ number_at bytes.now VALUE }
    ensures right { IsStatus result }
{
    let value = number_at(bytes, VALUE);
    match number_at(bytes, KIND) {
        0 => Status::Running,
        1 => Status::Exited(value as u8),
        _ => Status::Trapped(value as u8),
    }
}

// Clears the pages that were written and aren't named.
fn clear_unnamed(named: &[bool], pages: &mut Pages)
    requires room { length named.now ≡ 4096 }
    ensures pages { page_numbers pages.new ≡ page_numbers pages.old }
    ensures zero { (i : ℕ) → i < length (page_numbers pages.old) → slice_index_or named.now i false ≡ false →
        IsZeroPage pages.new (slice_index (page_numbers pages.old) i) }
{
    let mut from = 0;
    while let Some(index) = pages.next_touched(from) {
        if !named[index as usize] {
            pages.clear_page(index);
        }
        from = index + 1;
    }
}

// Copies the pages of the bytes.
fn copy_pages(bytes: &[u8], pages: &mut Pages)
    requires image { IsRight bytes.now }
    requires mapped { AreMapped bytes.now (page_numbers pages.old) }
    ensures pages { page_numbers pages.new ≡ page_numbers pages.old }
    ensures named { (k : ℕ) → k < page_count bytes.now → page_bytes pages.new (page_number bytes.now k) ≡ page_part bytes.now k }
    ensures others { (i : ℕ) → i < length (page_numbers pages.old) → IsUnnamed bytes.now (slice_index (page_numbers pages.old) i) →
        page_bytes pages.new (slice_index (page_numbers pages.old) i) ≡ page_bytes pages.old (slice_index (page_numbers pages.old) i) }
{
    for k in 0..number_at(bytes, COUNT) {
        let at = page_start(k);
        let index = pages.index_of(number_at(bytes, at)).unwrap();
        pages.set_page(index, &bytes[at + 4..at + 4 + PAGE]);
    }
}

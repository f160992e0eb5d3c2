// Whether bytes are an image, field by field.
ghost use Rattle.std.specs.Prelude.{◌≡◌, ◌+◌, ◌<◌, ◌≤◌, ◌∷◌, [], find, length, None};
ghost use Rattle.state_image.specs.declared.layout.TheConstants.{PAGES};
ghost use Rattle.state_image.specs.ImageForm.{number_at, is_value, magic, version, pc, registers, kind, value, item, offset, written, count, header_fields, page, page_start, page_count, rises, is_wrong, start_or, first_wrong};

use crate::image::is_zero;
use crate::layout::{
    COUNT, ITEM, KIND, LETTERS, OFFSET, PAGE_FIELD, PAGES, PC, REGISTERS, VALUE, VERSION, WRITTEN,
};
use byteorder::{ByteOrder, LittleEndian};

// The most pages of an image, and as many numbers of pages as there are.
const MOST_PAGES: u32 = 4096;

const NUMBERS: u32 = 0x10_0000;

/// Where the first wrong field starts, or the bytes that follow the last page.
pub(crate) fn first_wrong(bytes: &[u8]) -> Option<usize>
    ensures { result ≡ first_wrong bytes.now }
{
    if let Some(at) = wrong_in_header(bytes) {
        return Some(at);
    }
    let count = number_at(bytes, COUNT);
    for k in 0..count {
        if is_wrong_page(bytes, k) {
            return Some(page_start(k));
        }
    }
    let end = page_start(count);
    if end < bytes.len() { Some(end) } else { None }
}

// Where the first wrong field before the pages starts.
fn wrong_in_header(bytes: &[u8]) -> Option<usize>
    ensures value { result ≡ start_or (find (is_wrong bytes.now) header_fields) None }
    ensures whole { result ≡ None → PAGES ≤ length bytes.now }
    ensures few { result ≡ None → page_count bytes.now ≤ 4096 }
{
    if let Some(at) = wrong_in_front(bytes) {
        return Some(at);
    }
    if let Some(at) = wrong_in_status(bytes) {
        return Some(at);
    }
    wrong_in_rest(bytes)
}

// Where the letters, the version, pc and the registers are wrong first.
fn wrong_in_front(bytes: &[u8]) -> Option<usize>
    ensures { result ≡ start_or (find (is_wrong bytes.now) (magic ∷ version ∷ pc ∷ registers ∷ [])) None }
{
    if bytes.len() < VERSION || !bytes.starts_with(b"RVST") {
        return Some(LETTERS);
    }
    if bytes.len() < PC || number_at(bytes, VERSION) != 1 {
        return Some(VERSION);
    }
    if bytes.len() < REGISTERS || number_at(bytes, PC) % 4 != 0 {
        return Some(PC);
    }
    if bytes.len() < KIND {
        return Some(REGISTERS);
    }
    None
}

// Where the status is wrong first.
fn wrong_in_status(bytes: &[u8]) -> Option<usize>
    ensures { result ≡ start_or (find (is_wrong bytes.now) (kind ∷ value ∷ [])) None }
{
    if bytes.len() < VALUE || number_at(bytes, KIND) > 2 {
        return Some(KIND);
    }
    if bytes.len() < ITEM || !is_value(number_at(bytes, KIND), number_at(bytes, VALUE)) {
        return Some(VALUE);
    }
    None
}

// Where the place in the input, the number of bytes written, or the number of pages is wrong first.
fn wrong_in_rest(bytes: &[u8]) -> Option<usize>
    ensures value { result ≡ start_or (find (is_wrong bytes.now) (item ∷ offset ∷ written ∷ count ∷ [])) None }
    ensures whole { result ≡ None → PAGES ≤ length bytes.now }
    ensures few { result ≡ None → page_count bytes.now ≤ 4096 }
{
    if bytes.len() < OFFSET {
        return Some(ITEM);
    }
    if bytes.len() < WRITTEN {
        return Some(OFFSET);
    }
    if bytes.len() < COUNT {
        return Some(WRITTEN);
    }
    if bytes.len() < PAGES || number_at(bytes, COUNT) > MOST_PAGES {
        return Some(COUNT);
    }
    None
}

// Whether a value fits a kind of status.
fn is_value(kind: u32, value: u32) -> bool
    ensures { result ≡ is_value kind value }
{
    match kind {
        0 => value == 0,
        1 => value <= 255,
        _ => matches!(value, 0..=3 | 5 | 7),
    }
}

// Whether the field of a page is wrong.
fn is_wrong_page(bytes: &[u8], k: u32) -> bool
    requires { k < 4096 }
    ensures { result ≡ is_wrong bytes.now (page k) }
{
    let at = page_start(k);
    if bytes.len() < at + PAGE_FIELD || !rises(bytes, k) {
        return true;
    }
    number_at(bytes, at) >= NUMBERS || is_zero(&bytes[at + 4..at + PAGE_FIELD])
}

// Whether the number of a page is above that of the page before.
fn rises(bytes: &[u8], k: u32) -> bool
    requires few { k < 4096 }
    requires there { page_start k + 4 ≤ length bytes.now }
    ensures { result ≡ rises bytes.now k }
{
    k == 0 || number_at(bytes, page_start(k - 1)) < number_at(bytes, page_start(k))
}

/// Where the field of a page starts.
pub(crate) fn page_start(k: u32) -> usize
    ensures { result ≡ page_start k }
{
    PAGES + PAGE_FIELD * k as usize
}

/// The number at a place.
pub(crate) fn number_at(bytes: &[u8], at: usize) -> u32
    requires { at + 4 ≤ length bytes.now }
    ensures { result ≡ number_at bytes.now at }
{
    LittleEndian::read_u32(&bytes[at..])
}

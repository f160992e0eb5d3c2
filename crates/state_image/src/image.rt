// The digest of a state's image. No memory holds the whole image: it goes into the hash piece by piece.
ghost use Rattle.std.specs.Prelude.{◌≡◌, ◌==◌, ℕ, false, length, drop, slice_index_or};
ghost use Rattle.std.specs.List.{flat_map, list_all};
ghost use Rattle.std.specs.Int.{to_le_bytes, w32};
ghost use Rattle.sha2.specs.Hashers.{Holds256};
ghost use Rattle.sha2.specs.Sha256.{sha256};
ghost use Rattle.state_image.specs.HashInput.{Feeds};
ghost use Rattle.state_image.specs.StoredPages.{MarksStored};
ghost use Rattle.state_image.specs.Image.{image, header, status_kind, status_value, pages_stored, page_field};

use rv_machine::{State, Status};
use rv_pages::Pages;
use sha2::{Digest, Sha256};

// The version of the form.
pub(crate) const VERSION: u32 = 1;

// As many pages as may be mapped.
pub(crate) const MAX_PAGES: usize = 4096;

// So many bytes of a page are tested at once for one that isn't 0.
const PIECE: usize = 256;

/// The SHA-256 of a state's image. It takes no memory.
pub fn image_digest(state: &State) -> [u8; 32]
    ensures { result ≡ sha256 (image state.now) }
{
    let mut stored = [false; MAX_PAGES];
    let count = mark_stored(&state.pages, &mut stored);
    let mut hasher = hash_header(state, count);
    feed_pages(&mut hasher, &state.pages, &stored);
    hasher.finalize()
}

// The hash of the image's part before its pages. So many pages are stored.
fn hash_header(state: &State, stored: u32) -> Sha256
    requires { stored ≡ length (pages_stored state.now.memory) }
    ensures { Holds256 result (header state.now) }
{
    let mut hasher = Sha256::new();
    hasher.update(b"RVST");
    hasher.update(VERSION.to_le_bytes());
    hasher.update(state.pc.to_le_bytes());
    feed_registers(&mut hasher, &state.x);
    let (kind, value) = status_numbers(state.status);
    hasher.update(kind.to_le_bytes());
    hasher.update(value.to_le_bytes());
    hasher.update(state.item.to_le_bytes());
    hasher.update(state.offset.to_le_bytes());
    hasher.update(state.written.to_le_bytes());
    hasher.update(stored.to_le_bytes());
    hasher
}

// Hashes x1 to x31.
fn feed_registers(hasher: &mut Sha256, x: &[u32; 32])
    ensures { Feeds hasher.old hasher.new (flat_map (to_le_bytes w32) (drop 1 x.now)) }
{
    for word in &x[1..] {
        hasher.update(word.to_le_bytes());
    }
}

// The kind of a status, and the number that goes with it.
pub(crate) fn status_numbers(status: Status) -> (u32, u32)
    ensures kind { result.0 ≡ status_kind status }
    ensures value { result.1 ≡ status_value status }
{
    match status {
        Status::Running => (0, 0),
        Status::Exited(code) => (1, code as u32),
        Status::Trapped(cause) => (2, cause as u32),
    }
}

// Marks the pages that are stored by their indices, and counts them. Pages that were never written aren't looked at.
pub(crate) fn mark_stored(pages: &Pages, stored: &mut [bool]) -> u32
    requires room { length stored.old ≡ 4096 }
    requires unmarked { (k : ℕ) → slice_index_or stored.old k false ≡ false }
    ensures count { result ≡ length (pages_stored pages.now) }
    ensures marked { MarksStored pages.now stored.new }
    ensures room { length stored.new ≡ 4096 }
{
    let mut count = 0;
    let mut from = 0;
    while let Some(index) = pages.next_touched(from) {
        let is_stored = !is_zero(pages.page(index));
        stored[index as usize] = is_stored;
        count += is_stored as u32;
        from = index + 1;
    }
    count
}

// Hashes the pages that are stored.
fn feed_pages(hasher: &mut Sha256, pages: &Pages, stored: &[bool])
    requires room { length stored.now ≡ 4096 }
    requires marked { MarksStored pages.now stored.now }
    ensures { Feeds hasher.old hasher.new (flat_map (page_field pages.now) (pages_stored pages.now)) }
{
    let mut from = 0;
    while let Some(index) = pages.next_touched(from) {
        if stored[index as usize] {
            hasher.update(pages.number(index).to_le_bytes());
            hasher.update(pages.page(index));
        }
        from = index + 1;
    }
}

// Whether all bytes are 0. Other bytes mostly occur in the first piece.
pub(crate) fn is_zero(bytes: &[u8]) -> bool
    ensures { result ≡ list_all (λ b. b == 0) bytes.now }
{
    for piece in bytes.chunks(PIECE) {
        if !is_zero_piece(piece) {
            return false;
        }
    }
    true
}

// Whether a piece is all zero. It reads all of it, many bytes at a time. That is faster than to stop at the first other
// byte.
fn is_zero_piece(bytes: &[u8]) -> bool
    ensures { result ≡ list_all (λ b. b == 0) bytes.now }
{
    let mut seen = 0;
    for byte in bytes {
        seen |= *byte;
    }
    seen == 0
}

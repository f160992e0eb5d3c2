// Bytes that are read as a journal.
ghost use Rattle.std.specs.Prelude.{◌≡◌, ◌≢◌, ◌⊎◌, ◌+◌, ◌≤◌, ℕ, List, length, take, drop, MatchResult, IfOk, IfErr, OnOk};
ghost use Rattle.std.specs.Vec.{vec_len};
ghost use Rattle.input_journal.specs.Form.{IsJournal, IsShort};
ghost use Rattle.input_journal.specs.Faults.{FirstFault};
ghost use Rattle.input_journal.specs.RecordedInput.{text_of, AreItemsOf, HasJournalFault};
ghost use Rattle.input_journal.specs.Parts.{items_in, AreParts};
ghost use Rattle.input_journal.specs.Parser.{Gives, number_at, item_at, count_of, reading};

use crate::fault::JournalFault;
use crate::journal::{Journal, Part};
use byteorder::{ByteOrder, LittleEndian};
use std::alloc::Global;

/// The most items of a journal.
const MOST_ITEMS: u32 = 65_536;

/// The most bytes of an item.
const MOST_BYTES: u32 = 1_048_576;

/// Reads the journal that all the bytes are, and keeps them.
pub fn read_journal(alloc: Global, bytes: Vec<u8>) -> Result<Journal, JournalFault>
    // The bytes spell the journal that is read. Bytes of a journal are read, unless memory runs out.
    ensures found { IfOk result (IsJournal bytes.items) }
    ensures only { (items : List (List ℕ)) → IsJournal bytes.items items →
        MatchResult result (λ journal. journal ≡ items) (λ fault. fault ≡ JournalFault.Memory) }

    // A refusal has the first fault. Bytes with a fault are refused for it, unless memory runs out.
    ensures refused { IfErr result (λ fault. fault ≢ JournalFault.Memory → FirstFault bytes.items fault) }
    ensures first { (fault : JournalFault) → FirstFault bytes.items fault →
        MatchResult result (λ _. ⊥) (λ answer. (answer ≡ fault) ⊎ (answer ≡ JournalFault.Memory)) }
{
    let parts = read_parts(alloc, bytes.as_slice())?;
    Ok(Journal { bytes, parts })
}

/// The recorded input of a run, read from its journal; none where there is no journal.
pub fn read_recorded(alloc: Global, bytes: Option<Vec<u8>>) -> Result<Journal, JournalFault>
    ensures found { IfOk result (AreItemsOf (text_of bytes)) }
    ensures refused { IfErr result (λ fault. fault ≢ JournalFault.Memory → HasJournalFault (text_of bytes) fault) }
{
    match bytes {
        Some(bytes) => read_journal(alloc, bytes),
        None => Ok(Journal::none(alloc)),
    }
}

// Where the items of the journal are that all the bytes are.
fn read_parts(alloc: Global, bytes: &[u8]) -> Result<Vec<Part>, JournalFault>
    ensures found { IfOk result (λ parts. IsJournal bytes.now (items_in bytes.now parts.items)) }
    ensures only { (items : List (List ℕ)) → IsJournal bytes.now items →
        MatchResult result (λ parts. items_in bytes.now parts.items ≡ items) (λ fault. fault ≡ JournalFault.Memory) }
    ensures refused { IfErr result (λ fault. fault ≢ JournalFault.Memory → FirstFault bytes.now fault) }
    ensures first { (fault : JournalFault) → FirstFault bytes.now fault →
        MatchResult result (λ _. ⊥) (λ answer. (answer ≡ fault) ⊎ (answer ≡ JournalFault.Memory)) }
    ensures few { IfOk result (λ parts. vec_len parts ≤ 65536) }
    ensures parts { IfOk result (λ parts. AreParts (length bytes.now) parts.items) }
{
    find_parts(alloc, bytes)
}

// The parts of the bytes that are items, read from left to right.
#[tactic(auto, unfolding(crate::specs::Parser::reading))]
fn find_parts(alloc: Global, bytes: &[u8]) -> Result<Vec<Part>, JournalFault>
    ensures value { Gives (λ parts. items_in bytes.now parts.items) result (reading bytes.now) }
    ensures few { IfOk result (λ parts. vec_len parts ≤ 65536) }
    ensures parts { IfOk result (λ parts. AreParts (length bytes.now) parts.items) }
{
    let count = read_count(bytes)?;
    let mut parts = Vec::new(alloc);
    let mut at = 12;
    for _ in 0..count {
        let len = read_item(bytes, at)?.len();
        if parts.push(Part { at: at + 4, len }).is_err() {
            return Err(JournalFault::Memory);
        }
        at += 4 + len;
    }
    if at < bytes.len() {
        return Err(JournalFault::Trailing(at as u64));
    }
    Ok(parts)
}

// The number of items, after the letters and the version.
#[tactic(auto, unfolding(crate::specs::Parser::count_of))]
fn read_count(bytes: &[u8]) -> Result<u32, JournalFault>
    ensures value { Gives (λ n. n) result (count_of bytes.now) }
    ensures few { IfOk result (λ n. n ≤ 65536) }
    ensures within { OnOk result (12 ≤ length bytes.now) }
{
    if !bytes.starts_with(b"RVJL") {
        return Err(JournalFault::Magic);
    }
    if read_number(bytes, 4)? != 1 {
        return Err(JournalFault::Version);
    }
    let count = read_number(bytes, 8)?;
    if count > MOST_ITEMS {
        return Err(JournalFault::TooLong(8));
    }
    Ok(count)
}

// The bytes of the item whose length is at this place.
#[tactic(auto, unfolding(crate::specs::Parser::item_at))]
fn read_item(bytes: &[u8], at: usize) -> Result<&[u8], JournalFault>
    requires { at ≤ length bytes.now }
    ensures value { Gives (λ item. item.now) result (item_at at (drop at bytes.now)) }
    ensures short { IfOk result (λ item. IsShort item.now) }
    ensures within { IfOk result (λ item. at + 4 + length item.now ≤ length bytes.now) }
    ensures place { IfOk result (λ item. item.now ≡ take (length item.now) (drop (at + 4) bytes.now)) }
{
    let len = read_number(bytes, at)?;
    if len > MOST_BYTES {
        return Err(JournalFault::TooLong(at as u64));
    }
    let rest = &bytes[at + 4..];
    if rest.len() < len as usize {
        return Err(JournalFault::Truncated(at as u64 + 4));
    }
    Ok(&rest[..len as usize])
}

// The number of four bytes at a place.
fn read_number(bytes: &[u8], at: usize) -> Result<u32, JournalFault>
    requires { at ≤ length bytes.now }
    ensures value { Gives (λ n. n) result (number_at at (drop at bytes.now)) }
    ensures within { OnOk result (at + 4 ≤ length bytes.now) }
{
    let rest = &bytes[at..];
    if rest.len() < 4 {
        return Err(JournalFault::Truncated(at as u64));
    }
    Ok(LittleEndian::read_u32(rest))
}

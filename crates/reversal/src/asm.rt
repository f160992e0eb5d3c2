// The words of a source of instructions, as bytes.
ghost use Rattle.std.specs.Prelude.{◌≡◌, ℕ, ◌≤◌, List, length, IfOk};
ghost use Rattle.reversal.specs.Prelude.{word_bytes, DecidesAsm, IsDecided};

use crate::job::Job;
use endings::Outcome;
use rv_asm::assemble;
use std::alloc::{AllocError, Global};

/// The decision on a request to assemble a source.
pub fn decide_asm(alloc: Global, source: &[u8]) -> Result<Job, Outcome>
    requires { length source.now ≤ 67108864 }
    ensures { (counts : List ℕ) → IsDecided (DecidesAsm source.now) counts result }
{
    let words = match assemble(alloc, source) {
        Ok(words) => words,
        Err(fault) => return Err(Outcome::bad_source(fault)),
    };
    let bytes = bytes_of(alloc, &words)?;
    Ok(Job::Bytes(bytes))
}

// The bytes of words, the low one of each first.
fn bytes_of(alloc: Global, words: &[u32]) -> Result<Vec<u8>, AllocError>
    ensures { IfOk result (λ bytes. bytes.items ≡ word_bytes words.now) }
{
    let mut bytes = Vec::with_capacity(alloc, words.len() * 4)?;
    for word in words {
        bytes.extend_from_slice(&word.to_le_bytes())?;
    }
    Ok(bytes)
}

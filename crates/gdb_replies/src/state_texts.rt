// How a state is shown to gdb.
ghost use Rattle.std.specs.Prelude.{◌≡◌, ◌++◌, OnOk};
ghost use Rattle.hex.specs.Hex.{encode_lower};
ghost use Rattle.gdb_replies.specs.StateTexts.{mapped_bytes, registers_text, register_text, memory_text};

use gdb_wire::{push_hex, push_word};
use rv_machine::State;
use rv_pages::Pages;
use std::alloc::AllocError;

// The most bytes that are shown at once.
const MOST_BYTES: u32 = 8192;

// The reply if there is nothing to show.
const NOTHING_THERE: &[u8] = b"E01";

/// Adds all registers: x0 to x31, and pc. If memory runs out, it may have added a part.
pub fn push_registers(out: &mut Vec<u8>, state: &State) -> Result<(), AllocError>
    ensures { OnOk result (out.new.items ≡ out.old.items ++ registers_text state.now) }
{
    for word in &state.x {
        push_word(out, *word)?;
    }
    push_word(out, state.pc)
}

/// Adds the register with gdb's number, or `E01` if there is none. If memory runs out, it may have added a part.
pub fn push_register(out: &mut Vec<u8>, state: &State, n: u32) -> Result<(), AllocError>
    ensures { OnOk result (out.new.items ≡ out.old.items ++ register_text state.now n) }
{
    match n {
        0..32 => push_word(out, state.x[n as usize]),
        32 => push_word(out, state.pc),
        _ => out.extend_from_slice(NOTHING_THERE),
    }
}

/// Adds the bytes from an address on, up to the first unmapped one, or `E01` if there is none. It adds at most so many,
/// and at most 8,192. If memory runs out, it may have added a part.
pub fn push_memory(out: &mut Vec<u8>, state: &State, at: u32, len: u32) -> Result<(), AllocError>
    ensures { OnOk result (out.new.items ≡ out.old.items ++ memory_text state.now at len) }
{
    let count = len.min(MOST_BYTES);
    if count == 0 || state.pages.load8(at).is_none() {
        return out.extend_from_slice(NOTHING_THERE);
    }
    push_bytes(out, &state.pages, at, count)
}

// Adds the bytes from an address on, so many at most, up to the first that isn't mapped.
fn push_bytes(out: &mut Vec<u8>, pages: &Pages, at: u32, count: u32) -> Result<(), AllocError>
    ensures { OnOk result (out.new.items ≡ out.old.items ++ encode_lower (mapped_bytes pages.now at count)) }
{
    for k in 0..count {
        let Some(byte) = pages.load8(at.wrapping_add(k)) else {
            return Ok(());
        };
        push_hex(out, &[byte])?;
    }
    Ok(())
}

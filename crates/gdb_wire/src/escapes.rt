// Escapes in the body of a packet.
ghost use Rattle.std.specs.Prelude.{◌≡◌, ◌++◌, OnOk};
ghost use Rattle.std.specs.List.{flat_map};
ghost use Rattle.gdb_wire.specs.Escapes.{unescaped, escaped_byte};

use std::alloc::AllocError;

/// Adds the text of a body. If memory runs out, it may have added a part.
pub fn push_unescaped(out: &mut Vec<u8>, body: &[u8]) -> Result<(), AllocError>
    ensures { OnOk result (out.new.items ≡ out.old.items ++ unescaped body.now) }
{
    let mut at = 0;
    while at < body.len() {
        if at + 1 < body.len() && body[at] == b'}' {
            out.push(body[at + 1] ^ 32)?;
            at += 2;
        } else {
            out.push(body[at])?;
            at += 1;
        }
    }
    Ok(())
}

// Adds the body of a text, with escapes.
pub(crate) fn push_escaped(out: &mut Vec<u8>, text: &[u8]) -> Result<(), AllocError>
    ensures { OnOk result (out.new.items ≡ out.old.items ++ flat_map escaped_byte text.now) }
{
    for byte in text {
        if matches!(*byte, b'#' | b'$' | b'}' | b'*') {
            out.push(b'}')?;
            out.push(*byte ^ 32)?;
        } else {
            out.push(*byte)?;
        }
    }
    Ok(())
}

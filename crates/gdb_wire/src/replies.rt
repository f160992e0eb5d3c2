// The replies to gdb.
ghost use Rattle.std.specs.Prelude.{◌≡◌, ◌++◌, OnOk};
ghost use Rattle.std.specs.Int.{w32, to_le_bytes};
ghost use Rattle.hex.specs.Hex.{encode_lower};
ghost use Rattle.gdb_wire.specs.Replies.{reply_packet};

use crate::checksum::checksum_of;
use crate::escapes::push_escaped;
use std::alloc::AllocError;

/// Adds the packet of a reply. If memory runs out, it may have added a part.
pub fn push_packet(out: &mut Vec<u8>, reply: &[u8]) -> Result<(), AllocError>
    ensures { OnOk result (out.new.items ≡ out.old.items ++ reply_packet reply.now) }
{
    out.push(b'$')?;
    let start = out.len();
    push_escaped(out, reply)?;
    let checksum = checksum_of(&out[start..]);
    out.push(b'#')?;
    push_hex(out, &[checksum])
}

/// Adds bytes as hexadecimal digits, two for each. If memory runs out, it may have added a part.
pub fn push_hex(out: &mut Vec<u8>, bytes: &[u8]) -> Result<(), AllocError>
    ensures { OnOk result (out.new.items ≡ out.old.items ++ encode_lower bytes.now) }
{
    for byte in bytes {
        let mut digits = [0; 2];
        hex::encode_to_slice(&[*byte], &mut digits).unwrap();
        out.extend_from_slice(&digits)?;
    }
    Ok(())
}

/// Adds a word of 32 bits as eight hexadecimal digits, the lowest byte first. If memory runs out, it may have added a
/// part.
pub fn push_word(out: &mut Vec<u8>, word: u32) -> Result<(), AllocError>
    ensures { OnOk result (out.new.items ≡ out.old.items ++ encode_lower (to_le_bytes w32 word)) }
{
    push_hex(out, &word.to_le_bytes())
}

// Transfers bytes between memory and any reader or writer.
ghost use Rattle.std.specs.Prelude.{◌≡◌, ℕ, ◌+◌, ◌<◌, ◌≤◌, length, take, Ok, IfOk, IfSome, OnOk, OnErr};
ghost use Rattle.std.specs.Vec.{vec_len, vec_capacity};
ghost use Rattle.std.specs.Io.KnownBytes.{Appends};
ghost use Rattle.keepers.specs.Claims.{WhereTold, Begins, TakesAtMost};

use crate::inputs::Whole;
use std::io;
use std::io::{ErrorKind, Read, Write};

// How many bytes a file is asked for at once.
const PIECE: usize = 65_536;

// Writes a whole piece, and flushes it. After an error a prefix of it was written.
pub(crate) fn write_whole<W: Write>(out: &mut W, piece: &[u8]) -> io::Result<()>
    ensures ok { OnOk result (Appends (W.contents out.old) (W.contents out.new) piece.now) }
    ensures refused { OnErr result ((k : ℕ) × Appends (W.contents out.old) (W.contents out.new) (take k piece.now)) }
{
    let mut at = 0;
    for _ in 0..u64::MAX {
        if at == piece.len() {
            out.flush()?;
            return Ok(());
        }
        match out.write(&piece[at..]) {
            Ok(0) => return Err(io::Error::from(ErrorKind::WriteZero)),
            Ok(count) => at += count,
            Err(error) => {
                if error.kind() != ErrorKind::Interrupted {
                    return Err(error);
                }
            }
        }
    }
    Err(io::Error::from(ErrorKind::Interrupted))
}

// Reads until the room is full or the file ends, and returns how many bytes it read.
pub(crate) fn read_first<F: Read>(file: &mut F, room: &mut [u8]) -> io::Result<usize>
    ensures fits { IfOk result (λ count. count ≤ length room.old) }
    ensures bytes { IfOk result (λ count. WhereTold (F.remaining file.old) (λ bytes. take count room.new ≡ take (length room.old) bytes)) }
{
    let mut at = 0;
    for _ in 0..u64::MAX {
        if at == room.len() {
            return Ok(at);
        }
        match file.read(&mut room[at..]) {
            Ok(0) => return Ok(at),
            Ok(count) => at += count,
            Err(error) => {
                if error.kind() != ErrorKind::Interrupted {
                    return Err(error);
                }
            }
        }
    }
    Err(io::Error::from(ErrorKind::Interrupted))
}

// Reads the rest of a file into `into`, replacing what was there, in pieces. It requests at most one byte past the
// limit, and keeps none past it.
pub(crate) fn read_whole<F: Read>(file: &mut F, limit: u32, into: &mut Vec<u8>) -> io::Result<Whole>
    ensures all { result ≡ Ok Whole.All → IfSome (F.remaining file.old) (λ bytes. into.new.items ≡ bytes) }
    ensures longer { result ≡ Ok Whole.Longer → IfSome (F.remaining file.old) (λ bytes. limit < length bytes) }
    ensures begun { IfSome (F.remaining file.old) (λ bytes. Begins into.new.items bytes) }
    ensures takes { TakesAtMost (limit + 1) (F.remaining file.old) (F.remaining file.new) }
    ensures within { vec_len into.new ≤ limit }
    ensures reserved { vec_capacity into.old ≤ vec_capacity into.new }
{
    let mut piece = [0; PIECE];
    into.clear();
    for _ in 0..u64::MAX {
        let left = limit as usize - into.len();
        let end = piece.len().min(left + 1);
        match file.read(&mut piece[..end]) {
            Ok(0) => return Ok(Whole::All),
            Ok(count) => {
                if count > left {
                    return Ok(Whole::Longer);
                }
                if into.extend_from_slice(&piece[..count]).is_err() {
                    return Err(io::Error::from(ErrorKind::OutOfMemory));
                }
            }
            Err(error) => {
                if error.kind() != ErrorKind::Interrupted {
                    return Err(error);
                }
            }
        }
    }
    Err(io::Error::from(ErrorKind::Interrupted))
}

// Replies with neighbouring output packets joined, so that it doesn't matter where texts are cut.

use gdb_wire::{Item, next_item};
use std::alloc::{AllocError, Global};

/// The bytes, with `$O`, the digits of all and `#` in the place of packets that follow one another with texts for the user.
pub fn joined(alloc: Global, bytes: &[u8]) -> Result<Vec<u8>, AllocError> {
    let mut out = Vec::new(alloc);
    let mut rest = bytes;
    let mut is_open = false;
    for _ in 0..bytes.len() {
        let Some(found) = next_item(rest) else {
            break;
        };
        let (front, behind) = rest.split_at(found.len);
        is_open = push_item(&mut out, &found.item, front, is_open)?;
        rest = behind;
    }
    close(&mut out, is_open)?;
    out.extend_from_slice(rest)?;
    Ok(out)
}

// Adds an item with its bytes, where a text for the user may be open, and tells whether one is open then.
fn push_item(
    out: &mut Vec<u8>,
    item: &Item<'_>,
    bytes: &[u8],
    is_open: bool,
) -> Result<bool, AllocError> {
    match digits_of(item) {
        Some(digits) => {
            if !is_open {
                out.extend_from_slice(b"$O")?;
            }
            out.extend_from_slice(digits)?;
            Ok(true)
        }
        None => {
            close(out, is_open)?;
            out.extend_from_slice(bytes)?;
            Ok(false)
        }
    }
}

fn close(out: &mut Vec<u8>, is_open: bool) -> Result<(), AllocError> {
    if is_open {
        out.extend_from_slice(b"#")?;
    }
    Ok(())
}

// The digits of a text for the user.
fn digits_of<'a>(item: &Item<'a>) -> Option<&'a [u8]> {
    match item {
        Item::Packet(b"OK") => None,
        Item::Packet([b'O', digits @ ..]) => Some(digits),
        _ => None,
    }
}

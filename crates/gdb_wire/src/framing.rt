// The items that come in.
ghost use Rattle.std.specs.Prelude.{◌≡◌, ◌+◌, ◌≤◌, ◌<◌, ◌++◌, ◌∷◌, length, take, IfSome, MatchOption};
ghost use Rattle.gdb_wire.specs.Items.{IsBody, IsItem, IsPartial, said_by};

use crate::checksum::has_checksum;
use crate::finding::first_index;
use crate::item::{Found, Item};

/// The item at the front, if it is complete. What follows it doesn't matter.
pub fn next_item(bytes: &[u8]) -> Option<Found<'_>>
    ensures some { IfSome result (λ found. 0 < found.len) }
    ensures within { IfSome result (λ found. found.len ≤ length bytes.now) }
    ensures item { MatchOption result (IsPartial bytes.now) (λ found. IsItem (said_by found.item) (take found.len bytes.now)) }
{
    let (first, rest) = bytes.split_first()?;
    match *first {
        b'$' => packet_at(rest),
        3 => Some(alone(Item::Interrupt)),
        b'-' => Some(alone(Item::Resend)),
        _ => Some(alone(Item::AckOrNoise)),
    }
}

// An item of one byte.
fn alone<'a>(item: Item<'a>) -> Found<'a>
    ensures { result ≡ record { item = item.entry; len = 1 } }
{
    Found { item, len: 1 }
}

// The packet whose text after the `$` this is.
fn packet_at(rest: &[u8]) -> Option<Found<'_>>
    ensures some { IfSome result (λ found. 0 < found.len) }
    ensures within { IfSome result (λ found. found.len ≤ length rest.now + 1) }
    ensures item { MatchOption result (IsPartial (36 ∷ rest.now)) (λ found. IsItem (said_by found.item) (take found.len (36 ∷ rest.now))) }
{
    let end = first_index(rest, b'#')?;
    if rest.len() - end < 3 {
        return None;
    }
    let item = packet_of(&rest[..end], &rest[end + 1..end + 3]);
    Some(Found { item, len: end + 4 })
}

// The packet with this body and these digits.
fn packet_of<'a>(body: &'a [u8], digits: &[u8]) -> Item<'a>
    requires body { IsBody body.now }
    requires two { length digits.now ≡ 2 }
    ensures { IsItem (said_by result) (36 ∷ (body.now ++ 35 ∷ digits.now)) }
{
    if has_checksum(body, digits) {
        Item::Packet(body)
    } else {
        Item::DamagedPacket
    }
}

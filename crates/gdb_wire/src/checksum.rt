// The checksum of a packet.
ghost use Rattle.std.specs.Prelude.{◌≡◌, ◌↔◌, length, IsTrue};
ghost use Rattle.gdb_wire.specs.Items.{checksum, IsChecksum};

use hex::FromHex;

// The sum of a body's bytes modulo 256.
pub(crate) fn checksum_of(body: &[u8]) -> u8
    ensures { result ≡ checksum body.now }
{
    let mut total = 0u8;
    for byte in body {
        total = total.wrapping_add(*byte);
    }
    total
}

// Whether two bytes are the digits of a body's checksum.
pub(crate) fn has_checksum(body: &[u8], digits: &[u8]) -> bool
    requires { length digits.now ≡ 2 }
    ensures { IsTrue result ↔ IsChecksum body.now digits.now }
{
    match <[u8; 1]>::from_hex(digits) {
        Ok(byte) => byte == [checksum_of(body)],
        Err(_) => false,
    }
}

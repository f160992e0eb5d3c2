// What a test says of bytes.
use std::process::Abort;

/// These bytes are those.
pub(crate) fn expect(rt: &impl Abort, seen: &[u8], right: &[u8]) {
    assert_eq!(rt; seen, right);
}

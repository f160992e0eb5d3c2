// Runs of addresses.

/// So many consecutive addresses from one on, modulo 2 ^ 32.
#[derive(Clone, Copy, PartialEq, Eq)]
pub struct Span {
    /// The first address.
    pub at: u32,
    /// The number of addresses.
    pub count: u32,
}

impl Span {
    // No address.
    pub(crate) const NONE: Span = Span { at: 0, count: 0 };
}

// What comes from gdb.

/// An item on the line from gdb.
#[derive(Clone, Copy, PartialEq, Eq)]
pub enum Item<'a> {
    /// A packet with its checksum, and its body, which is still escaped.
    Packet(&'a [u8]),
    /// A packet whose digits aren't its checksum.
    DamagedPacket,
    /// Ctrl-C.
    Interrupt,
    /// `-`: the last reply is to be sent again.
    Resend,
    /// `+`, or a meaningless byte.
    AckOrNoise,
}

/// An item at the front of bytes, and how many of them it takes.
#[derive(Clone, Copy, PartialEq, Eq)]
pub struct Found<'a> {
    pub item: Item<'a>,
    pub len: usize,
}

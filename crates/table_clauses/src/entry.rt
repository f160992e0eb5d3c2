// The place of a clause that fails.

/// An entry of a table, and a clause that fails there.
#[derive(Clone, Copy, PartialEq, Eq)]
pub struct Entry {
    /// 0 is F, 1 is H, 2 is Fd and 3 is Hd.
    pub table: u8,
    pub level: u8,
    /// The number of free slots.
    pub free: u32,
    /// The length of the stretch.
    pub steps: u32,
    /// The number of the clause.
    pub clause: u8,
}

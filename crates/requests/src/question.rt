// Questions about a run.

/// A question about a run.
#[derive(Clone, Copy)]
pub enum Question {
    /// The state with this number.
    State(u64),
    /// The last step that writes a byte of the word at this address.
    LastWrite(u32),
    /// The last step that changes a byte of the word at this address.
    LastChange(u32),
}

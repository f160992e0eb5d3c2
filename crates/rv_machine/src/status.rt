// Whether the machine runs.

/// Whether the machine runs, or why it stopped.
#[derive(Clone, Copy, Debug, PartialEq, Eq)]
pub enum Status {
    /// It runs.
    Running,
    /// The program ended with this exit code.
    Exited(u8),
    /// A trap with this cause.
    Trapped(u8),
}

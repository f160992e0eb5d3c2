// Why a move stops.

/// Why a move stops.
#[derive(Clone, Copy, PartialEq, Eq)]
pub enum Halt {
    /// A step was taken, or there is a breakpoint.
    AtPlace,
    /// The next step in the move's direction would cross a write to the range with this index.
    AtWrite(usize),
    /// The run begins here.
    AtBeginning,
    /// The run ends here.
    AtEnd,
    /// Gdb interrupted the move.
    Interrupted,
}

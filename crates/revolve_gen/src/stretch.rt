// A part of the steps, and what is to be written of it.

/// A stretch of steps whose first state is held.
#[derive(Clone, Copy, PartialEq, Eq)]
pub struct Stretch {
    /// The number of its first state.
    pub start: u32,
    /// The length of the stretch.
    pub steps: u32,
}

// What is to be written before the held stretches are.
#[derive(Clone, Copy)]
pub(crate) enum Phase {
    // The end forward of no steps.
    Empty,
    // A stretch whose start is in work; `first`: no step was taped yet.
    Fresh { start: u32, steps: u32, first: bool },
    // From a copied image the work goes on to the split of its stretch. The part after it comes next.
    Ahead { start: u32, split: u32, end: u32 },
    // The end forward, with the last step on the tape.
    Last { start: u32 },
    // The step that is on the tape.
    Taped { start: u32 },
    // Nothing.
    Back,
}

// A gate that workers pass.

/// Called by a worker before it fills its piece of a row. A test's own gate checks that pieces are filled in parallel.
pub trait Gate {
    /// Lets the worker of the piece with this number pass, counted from 0.
    fn enter(&self, piece: u32);
}

/// A gate that does nothing.
#[derive(Drop)]
pub struct NoGate;

impl Gate for NoGate {
    fn enter(&self, _piece: u32) {}
}

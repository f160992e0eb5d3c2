// How the list of a backward run is chosen.

/// The schedule of a run.
#[derive(Clone, Copy)]
pub enum Schedule<'a> {
    /// The one of the input with this name.
    Named(&'a [u8]),
    /// Revolve's list for the book, which is made during the call.
    Made,
}

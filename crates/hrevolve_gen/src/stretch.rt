// A stretch of a run, and the slots that are free for it.

/// So many steps of a run from state `first` on. So many slots of level `level` are free for them, and the lower levels'
/// slots too.
#[derive(Clone, Copy)]
pub struct Stretch {
    pub level: u8,
    pub first: u32,
    pub steps: u32,
    pub free: u32,
}

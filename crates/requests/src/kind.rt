// The kinds of plans without a period.

/// Which list a plan has.
#[derive(Clone, Copy)]
pub enum PlanKind {
    /// The list of Revolve.
    Revolve,
    /// The multistage list.
    Multistage,
    /// The list of DiskRevolve.
    Disk,
    /// The list of H-Revolve.
    Hrevolve,
}

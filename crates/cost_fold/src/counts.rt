// The counts of a list, and how large they may be.
ghost use Rattle.std.specs.Prelude.{◌*◌, ◌^◌, ◌<◌};
ghost use Rattle.plan_types.specs.declared.limits.TheConstants.{MOST_COST};
ghost use Rattle.cost_fold.specs.TotalCount.{all_counted};

/// How often a list does each thing that a book prices. Writes and reads are counted for each level. At the greatest
/// cost for each count, the sum fits in 64 bits.
#[derive(Clone, Copy, PartialEq, Eq)]
pub struct Counts {
    /// Forward steps, taped ones included.
    pub forward: u64,
    /// Steps that are taped.
    pub taped: u64,
    /// Steps that are reversed.
    pub reversed: u64,
    /// Images written to each level.
    pub writes: [u64; 4],
    /// Images read from each level.
    pub reads: [u64; 4],
    pub ghost payable: { all_counted forward reversed writes reads * MOST_COST < 2 ^ 64 },
}

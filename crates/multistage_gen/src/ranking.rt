// The places in the order of their savings, and their levels by that order.
ghost use Rattle.std.specs.Prelude.{◌≡◌, IfOk, map, cond, replicate};
ghost use Rattle.multistage_gen.specs.Ranks.{is_before, StandByPlace, AreLevels};

use std::alloc::{AllocError, Global};
use std::cmp::Reverse;

// A place with its saving on the faster level. The greatest savings come first, and among equals the lowest place.
#[derive(Clone, Copy, PartialEq, Eq, PartialOrd, Ord)]
pub(crate) struct Rank {
    pub saving: Reverse<u64>,
    pub place: usize,
}

// The level of each place, where so many have room on level 0.
pub(crate) fn levels_by_rank(
    alloc: Global,
    ranks: &[Rank],
    room: usize,
) -> Result<Vec<u8>, AllocError>
    requires { StandByPlace ranks.now }
    ensures { IfOk result (λ levels. AreLevels ranks.now room levels.items) }
{
    if ranks.len() <= room {
        return all_fast(alloc, ranks.len());
    }
    let mut order = Vec::from_slice(alloc, ranks)?;
    order.sort()?;
    split_at(alloc, ranks, order[room])
}

fn all_fast(alloc: Global, count: usize) -> Result<Vec<u8>, AllocError>
    ensures { IfOk result (λ levels. levels.items ≡ replicate count 0) }
{
    let mut levels = Vec::new(alloc);
    for _ in 0..count {
        levels.push(0)?;
    }
    Ok(levels)
}

// The ranks before this one are on level 0, and the others on level 1.
fn split_at(alloc: Global, ranks: &[Rank], first_slow: Rank) -> Result<Vec<u8>, AllocError>
    ensures { IfOk result (λ levels. levels.items ≡ map (λ rank. cond (is_before rank first_slow) 0 1) ranks.now) }
{
    let mut levels = Vec::new(alloc);
    for rank in ranks {
        levels.push(if *rank < first_slow { 0 } else { 1 })?;
    }
    Ok(levels)
}

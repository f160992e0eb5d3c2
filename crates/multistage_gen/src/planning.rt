// The levels of the places of a list, by what they save.
ghost use Rattle.std.specs.Prelude.{◌≡◌, ◌+◌, ◌-◌, ◌*◌, ◌≤◌, All, List, [], ◌∷◌, length, map, IfOk};
ghost use Rattle.plan_types.specs.declared.action.Action.{Action};
ghost use Rattle.plan_types.specs.declared.limits.TheConstants.{MOST_ACTIONS};
ghost use Rattle.level_book.specs.declared.book.Level.{Level};
ghost use Rattle.level_book.specs.Prelude.{room};
ghost use Rattle.revolve_gen.specs.Prelude.{written, read};
ghost use Rattle.multistage_gen.specs.Traffic.{IsTraffic};
ghost use Rattle.multistage_gen.specs.Threshold.{AreSavings};
ghost use Rattle.multistage_gen.specs.Ranks.{IsCounted, saving_of, ranks_from, ArePlanned};

use crate::ranking::{Rank, levels_by_rank};
use crate::traffic::{PlaceTraffic, places};
use level_book::{Book, Level};
use plan_types::Action;
use std::alloc::{AllocError, Global};
use std::cmp::Reverse;

// How much less the traffic of a place costs on the faster level.
fn saving(traffic: &PlaceTraffic, fast: &Level, slow: &Level) -> u64
    requires { IsCounted traffic.now }
    ensures { result ≡ saving_of fast.now slow.now traffic.now }
{
    let write = u64::from(slow.write.saturating_sub(fast.write));
    let read = u64::from(slow.read.saturating_sub(fast.read));
    traffic.writes * write + traffic.reads * read
}

// What places with this traffic save.
fn savings_of(
    alloc: Global,
    traffic: &[PlaceTraffic],
    fast: &Level,
    slow: &Level,
) -> Result<Vec<u64>, AllocError>
    requires { All IsCounted traffic.now }
    ensures { IfOk result (λ savings. savings.items ≡ map (saving_of fast.now slow.now) traffic.now) }
{
    let mut savings = Vec::new(alloc);
    for of in traffic {
        savings.push(saving(of, fast, slow))?;
    }
    Ok(savings)
}

// The savings on the faster of a book's two levels, for each list with this traffic.
pub(crate) fn savings_by(
    alloc: Global,
    traffic: &[PlaceTraffic],
    book: &Book,
) -> Result<Vec<u64>, AllocError>
    requires two { length book.now.levels ≡ 2 }
    requires counted { All IsCounted traffic.now }
    ensures { IfOk result (λ savings. (list : List Action) (fast slow : Level) → book.now.levels ≡ fast ∷ slow ∷ [] →
        IsTraffic (written 0 list) (read 0 list) traffic.now → AreSavings list fast slow savings.items) }
{
    savings_of(alloc, traffic, book.level(0), book.level(1))
}

/// How much less each place's images cost on the faster of two levels than on the slower.
pub fn place_savings(alloc: Global, list: &[Action], book: &Book) -> Result<Vec<u64>, AllocError>
    requires two { length book.now.levels ≡ 2 }
    requires few { length list.now ≤ MOST_ACTIONS }
    ensures { IfOk result (λ savings. (fast slow : Level) → book.now.levels ≡ fast ∷ slow ∷ [] → AreSavings list.now fast slow savings.items) }
{
    let traffic = places(alloc, list)?;
    savings_by(alloc, &traffic, book)
}

// The ranks of the places with this traffic.
fn ranks(
    alloc: Global,
    traffic: &[PlaceTraffic],
    fast: &Level,
    slow: &Level,
) -> Result<Vec<Rank>, AllocError>
    requires { All IsCounted traffic.now }
    ensures { IfOk result (λ ranks. ranks.items ≡ ranks_from fast.now slow.now 0 traffic.now) }
{
    let mut ranks = Vec::new(alloc);
    for (place, of) in traffic.iter().enumerate() {
        ranks.push(Rank {
            saving: Reverse(saving(of, fast, slow)),
            place,
        })?;
    }
    Ok(ranks)
}

// The level of each place: the places that save most are on level 0, as many as fit. This holds for each list with this
// traffic.
pub(crate) fn planned_levels(
    alloc: Global,
    traffic: &[PlaceTraffic],
    steps: u32,
    book: &Book,
) -> Result<Vec<u8>, AllocError>
    requires two { length book.now.levels ≡ 2 }
    requires counted { All IsCounted traffic.now }
    ensures each { IfOk result (λ levels. length levels.items ≡ length traffic.now) }
    ensures planned { IfOk result (λ levels. (list : List Action) (fast slow : Level) → book.now.levels ≡ fast ∷ slow ∷ [] →
        IsTraffic (written 0 list) (read 0 list) traffic.now → ArePlanned (room book.now 0 steps) list fast slow levels.items) }
{
    let ranks = ranks(alloc, traffic, book.level(0), book.level(1))?;
    levels_by_rank(alloc, &ranks, book.room(0, steps) as usize)
}

// The traffic of the places of a stack.
ghost use Rattle.std.specs.Prelude.{◌≡◌, ℕ, ◌+◌, ◌-◌, ◌^◌, ◌<◌, ◌≤◌, [], ◌∷◌, ◌++◌, List, length, slice_get, Some, IfOk, OnOk, vec_len};
ghost use Rattle.plan_types.specs.declared.action.Action.{Action};
ghost use Rattle.revolve_gen.specs.Prelude.{written, read};
ghost use Rattle.multistage_gen.specs.TrafficCount.{HasCounted};
ghost use Rattle.multistage_gen.specs.Traffic.{IsTraffic};

use plan_types::Action;
use revolve_gen::StackStep;
use std::alloc::{AllocError, Global};

/// How often the images at a place of the stack are written and read.
#[derive(Clone, Copy, PartialEq, Eq)]
pub struct PlaceTraffic {
    pub writes: u64,
    pub reads: u64,
}

// The traffic of the counted actions, and how many images are held after them.
#[derive(Drop)]
struct Count {
    places: Vec<PlaceTraffic>,
    held: usize,
}

impl Count {
    // No action was counted.
    fn new(alloc: Global) -> Count
        ensures { HasCounted [] result.held result.places.items }
    {
        Count {
            places: Vec::new(alloc),
            held: 0,
        }
    }

    // Counts one more action. A Copy or a Move counts as one of the newest image, whichever it names.
    fn add(&mut self, action: &Action) -> Result<(), AllocError>
        requires { (front : List Action) × HasCounted front self.old.held self.old.places.items × (length front < 2 ^ 64 - 1) }
        ensures { OnOk result ((front : List Action) → HasCounted front self.old.held self.old.places.items →
            HasCounted (front ++ action.now ∷ []) self.new.held self.new.places.items) }
    {
        match StackStep::of(action) {
            StackStep::Push => {
                write_at(&mut self.places, self.held)?;
                self.held += 1;
            }
            StackStep::Read => read_at(&mut self.places, self.held.saturating_sub(1))?,
            StackStep::Pop => {
                self.held = self.held.saturating_sub(1);
                read_at(&mut self.places, self.held)?;
            }
            StackStep::Stay => {}
        }
        Ok(())
    }
}

/// The writes and reads of each place of a list. Each Copy and Move counts as one of the newest image, whichever it names.
pub fn places(alloc: Global, list: &[Action]) -> Result<Vec<PlaceTraffic>, AllocError>
    ensures { IfOk result (λ places. IsTraffic (written 0 list.now) (read 0 list.now) places.items) }
{
    // A list has fewer actions than 2^64, so the counts fit.
    let _actions = list.len();
    let mut count = Count::new(alloc);
    for action in list {
        count.add(action)?;
    }
    Ok(count.places)
}

// Appends the traffic of a place, if it is the next one.
fn reach(places: &mut Vec<PlaceTraffic>, place: usize) -> Result<(), AllocError>
    requires { place ≤ vec_len places.old }
    ensures there { OnOk result ((place < vec_len places.new) × (vec_len places.old ≤ vec_len places.new)) }
    ensures few { OnOk result (vec_len places.new ≤ vec_len places.old + 1) }
    ensures old { OnOk result ((p : ℕ) → p < vec_len places.old → slice_get places.new.items p ≡ slice_get places.old.items p) }
    ensures new { OnOk result ((p : ℕ) → vec_len places.old ≤ p → p < vec_len places.new →
        (p ≡ place) × (slice_get places.new.items p ≡ Some (record { writes = 0; reads = 0 }))) }
{
    if place == places.len() {
        places.push(PlaceTraffic {
            writes: 0,
            reads: 0,
        })?;
    }
    Ok(())
}

// A place is written once more.
fn write_at(places: &mut Vec<PlaceTraffic>, place: usize) -> Result<(), AllocError>
    requires near { place ≤ vec_len places.old }
    requires small { (ws : List ℕ) × (rs : List ℕ) × IsTraffic ws rs places.old.items × (length ws < 2 ^ 64 - 1) }
    ensures ok { OnOk result ((ws rs : List ℕ) → IsTraffic ws rs places.old.items → IsTraffic (ws ++ place ∷ []) rs places.new.items) }
    ensures there { OnOk result ((place < vec_len places.new) × (vec_len places.old ≤ vec_len places.new)) }
{
    reach(places, place)?;
    places[place].writes += 1;
    Ok(())
}

// A place is read once more.
fn read_at(places: &mut Vec<PlaceTraffic>, place: usize) -> Result<(), AllocError>
    requires near { place ≤ vec_len places.old }
    requires small { (ws : List ℕ) × (rs : List ℕ) × IsTraffic ws rs places.old.items × (length rs < 2 ^ 64 - 1) }
    ensures ok { OnOk result ((ws rs : List ℕ) → IsTraffic ws rs places.old.items → IsTraffic ws (rs ++ place ∷ []) places.new.items) }
    ensures there { OnOk result ((place < vec_len places.new) × (vec_len places.old ≤ vec_len places.new)) }
{
    reach(places, place)?;
    places[place].reads += 1;
    Ok(())
}

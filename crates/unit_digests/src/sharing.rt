// Takes the digests of a unit's states in parallel. The states are assigned beforehand. Each worker moves into its
// thread and comes back with its digests. So no worker sees what another one changes.
ghost use Rattle.std.specs.Prelude.{◌≡◌, ℕ, ◌+◌, min, ◌≤◌, ◌<◌, [], ◌∷◌, ◌++◌, List, Some, IfOk, length, map, slice_get};
ghost use Rattle.std.specs.Vec.{vec_len, vec_capacity};
ghost use Rattle.std.specs.List.{AllByRecursion};
ghost use Rattle.rv_pages.specs.Prelude.{page_numbers};
ghost use Rattle.rv_machine.specs.Prelude.{MachineState};
ghost use Rattle.unit_undo.specs.declared.undo.TheConstants.{MOST_ENTRIES};
ghost use Rattle.unit_undo.specs.Prelude.{LeadsBack, led_back};
ghost use denote.Param.Send.{IsSync};
ghost use Rattle.unit_digests.specs.Digests.{states_of, AreDigests, IsKnown, HasPages};
ghost use Rattle.unit_digests.specs.WorkDivision.{mapped, IsTaken, HasTaken, HasShare, HasRoom, part_of, IsDealtOut};

use plan_types::Gate;
use rv_machine::State;
use state_image::image_digest;
use std::alloc::{AllocError, Global};
use std::thread;
use std::thread::Threads;
use unit_undo::{MOST_ENTRIES, Undo, UndoWalk};

/// A digest that a worker took, and the number of its state.
#[derive(Clone, Copy, Drop)]
pub(crate) struct Taken {
    pub number: u32,
    pub digest: [u8; 32],
}

/// The assigned states, from `least` up to below `end`, and the number of workers. From the last state back the workers
/// take turns.
#[derive(Clone, Copy)]
pub(crate) struct Deal {
    pub least: u32,
    pub end: u32,
    pub workers: u32,
}

/// A worker: a state with which it goes back, and the digests that it took last.
#[derive(Drop)]
pub(crate) struct Digester {
    pub state: State,
    pub taken: Vec<Taken>,
}

impl Digester {
    /// One of so many workers, with room for its part of the digests of any unit.
    pub(crate) fn begin(alloc: Global, start: &State, workers: u32) -> Result<Digester, AllocError>
        requires { 1 ≤ workers }
        ensures pages { IfOk result (λ digester. mapped digester ≡ page_numbers start.now.memory) }
        ensures room { IfOk result (HasRoom (part_of workers)) }
    {
        let room = (MOST_ENTRIES / workers) as usize + 1;
        Ok(Digester {
            state: start.clone()?,
            taken: Vec::with_capacity(alloc, room)?,
        })
    }

    // Takes the digests of the states assigned to this worker, going back from one to the next.
    fn take_each<G: Gate>(
        mut self,
        gate: &G,
        after: &State,
        undo: &Undo,
        deal: Deal,
        number: u32,
    ) -> Digester
        requires back { LeadsBack undo.now.entries after.now (led_back undo.now.entries after.now) }
        requires pages { HasPages after.now (mapped self) }
        requires within { deal.end ≤ length undo.now.entries }
        requires short { deal.end ≤ MOST_ENTRIES }
        requires workers { 1 ≤ deal.workers }
        requires room { HasRoom (part_of deal.workers) self }
        ensures share { HasShare (states_of undo.now.entries after.now) deal number result }
        ensures pages { mapped result ≡ mapped self }
        ensures reserved { vec_capacity self.taken ≤ vec_capacity result.taken }
    {
        self.taken.clear();
        self.state.copy_from(after);
        let mut walk = undo.walk();
        let mut end = deal.end.saturating_sub(number);
        while end > deal.least {
            gate.enter(number);
            go_back(&mut walk, &mut self.state, end - 1);
            let digest = image_digest(&self.state);
            self.taken
                .push(Taken {
                    number: end - 1,
                    digest,
                })
                .unwrap();
            end = end.saturating_sub(deal.workers);
        }
        self
    }
}

// Goes back until so many entries are left.
fn go_back(walk: &mut UndoWalk<'_>, state: &mut State, left: u32)
    requires fewer { left < length walk.old }
    requires back { LeadsBack walk.old state.old (led_back walk.old state.old) }
    ensures left { length walk.new ≡ left }
    ensures back { LeadsBack walk.new state.new (led_back walk.new state.new) }
    ensures passed { (front : List MachineState) × (led_back walk.old state.old ≡ front ++ state.new ∷ led_back walk.new state.new) }
    ensures pages { page_numbers state.new.memory ≡ page_numbers state.old.memory }
{
    while walk.left() > left {
        walk.back(state);
    }
}

/// Takes digests by all these workers. Each has a thread but the first, which is the caller. The caller starts all
/// threads, since a starting thread may wait for a processor until the caller is done.
#[cycle(sharing)]
pub(crate) fn take_digests<R: Threads + Sync, G: Gate + Sync>(
    rt: &R,
    gate: &G,
    after: &State,
    undo: &Undo,
    deal: Deal,
    mut digesters: Vec<Digester>,
) -> Vec<Digester>
    requires back { LeadsBack undo.now.entries after.now (led_back undo.now.entries after.now) }
    requires dealt { IsDealtOut undo.now.entries after.now deal (vec_len digesters) digesters.items }
    ensures shares { (i : ℕ) (d : _) → slice_get result.items i ≡ Some d → HasShare (states_of undo.now.entries after.now) deal i d }
    ensures pages { map mapped result.items ≡ map mapped digesters.items }
    ensures rooms { (room : ℕ) → AllByRecursion (HasRoom room) digesters.items → AllByRecursion (HasRoom room) result.items }
    ensures reserved { vec_capacity digesters ≤ vec_capacity result }
{
    let Some(last) = digesters.pop() else {
        return digesters;
    };
    if !digesters.is_empty() {
        return take_beside(rt, gate, after, undo, deal, last, digesters);
    }
    let last = last.take_each(gate, after, undo, deal, 0);
    digesters.push(last).unwrap();
    digesters
}

// Takes digests by the last worker in a thread, and by the others.
#[cycle(sharing)]
fn take_beside<R: Threads + Sync, G: Gate + Sync>(
    rt: &R,
    gate: &G,
    after: &State,
    undo: &Undo,
    deal: Deal,
    last: Digester,
    others: Vec<Digester>,
) -> Vec<Digester>
    requires back { LeadsBack undo.now.entries after.now (led_back undo.now.entries after.now) }
    requires last { IsDealtOut undo.now.entries after.now deal (vec_len others + 1) (last ∷ []) }
    requires others { IsDealtOut undo.now.entries after.now deal (vec_len others) others.items }
    requires reserved { vec_len others < vec_capacity others }
    ensures shares { (i : ℕ) (d : _) → slice_get result.items i ≡ Some d → HasShare (states_of undo.now.entries after.now) deal i d }
    ensures pages { map mapped result.items ≡ map mapped (others.items ++ last ∷ []) }
    ensures rooms { (room : ℕ) → AllByRecursion (HasRoom room) (others.items ++ last ∷ []) → AllByRecursion (HasRoom room) result.items }
    ensures reserved { vec_capacity others ≤ vec_capacity result }
{
    let number = others.len() as u32;
    let first = move || -> Digester
        requires { LeadsBack undo.now.entries after.now (led_back undo.now.entries after.now)
            × IsDealtOut undo.now.entries after.now deal (number + 1) (last ∷ []) }
        ensures { HasShare (states_of undo.entry.now.entries after.entry.now) deal number result × (mapped result ≡ mapped last)
            × (vec_capacity last.taken ≤ vec_capacity result.taken) }
    { last.take_each(gate, after, undo, deal, number) };
    let behind = move || -> Vec<Digester>
        requires { IsSync R.row × IsSync G.row × LeadsBack undo.now.entries after.now (led_back undo.now.entries after.now)
            × IsDealtOut undo.now.entries after.now deal (vec_len others) others.items }
        ensures { ((i : ℕ) (d : _) → slice_get result.items i ≡ Some d → HasShare (states_of undo.entry.now.entries after.entry.now) deal i d)
            × (map mapped result.items ≡ map mapped others.items)
            × ((room : ℕ) → AllByRecursion (HasRoom room) others.items → AllByRecursion (HasRoom room) result.items)
            × (vec_capacity others ≤ vec_capacity result) }
    { take_digests(rt, gate, after, undo, deal, others) };
    let (last, mut digesters) = thread::join(rt, first, behind);
    digesters.push(last).unwrap();
    digesters
}

/// Makes room for so many digests. Only those that are there are known.
pub(crate) fn make_room(count: u32, known: &mut Vec<Option<[u8; 32]>>)
    ensures known { (states : List MachineState) → AreDigests known.old.items states → AreDigests known.new.items states }
    ensures still { (n : ℕ) → IsKnown known.old.items n → IsKnown known.new.items n }
    ensures room { min count (vec_capacity known.old) ≤ vec_len known.new }
    ensures reserved { vec_capacity known.old ≤ vec_capacity known.new }
{
    for _ in known.len()..known.capacity().min(count as usize) {
        known.push(None).unwrap();
    }
}

/// The number of the first state whose digest may be unknown. Only the first state of a unit may be known beforehand.
pub(crate) fn least_unknown(known: &[Option<[u8; 32]>]) -> u32
    ensures below { (n : ℕ) → n < result → IsKnown known.now n }
    ensures first { IsKnown known.now 0 → 1 ≤ result }
{
    match known.first() {
        Some(Some(_)) => 1,
        _ => 0,
    }
}

/// Adds the digests that all workers took to those that are known.
pub(crate) fn put_digests(digesters: &[Digester], known: &mut Vec<Option<[u8; 32]>>)
    ensures known { (states : List MachineState) → AreDigests known.old.items states → AllByRecursion (HasTaken states) digesters.now →
        AreDigests known.new.items states }
    ensures still { (n : ℕ) → IsKnown known.old.items n → IsKnown known.new.items n }
    ensures put { (i k : ℕ) (d : _) (t : _) → slice_get digesters.now i ≡ Some d → slice_get d.taken.items k ≡ Some t →
        t.number < vec_len known.old → IsKnown known.new.items t.number }
    ensures len { vec_len known.new ≡ vec_len known.old }
    ensures reserved { vec_capacity known.old ≤ vec_capacity known.new }
{
    for digester in digesters {
        put_each(digester.taken.as_slice(), known);
    }
}

// Adds digests to those that are known.
fn put_each(taken: &[Taken], known: &mut Vec<Option<[u8; 32]>>)
    ensures known { (states : List MachineState) → AreDigests known.old.items states → AllByRecursion (IsTaken states) taken.now →
        AreDigests known.new.items states }
    ensures still { (n : ℕ) → IsKnown known.old.items n → IsKnown known.new.items n }
    ensures put { (k : ℕ) (t : _) → slice_get taken.now k ≡ Some t → t.number < vec_len known.old → IsKnown known.new.items t.number }
    ensures len { vec_len known.new ≡ vec_len known.old }
    ensures reserved { vec_capacity known.old ≤ vec_capacity known.new }
{
    for digest in taken {
        if (digest.number as usize) < known.len() {
            known[digest.number as usize] = Some(digest.digest);
        }
    }
}

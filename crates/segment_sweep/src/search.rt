// The search, by one worker for each segment.
ghost use Rattle.std.specs.Prelude.{ℕ, ◌*◌, ◌<◌, ◌≤◌, IfOk, length, slice_index_or};
ghost use Rattle.plan_types.specs.declared.limits.TheConstants.{MOST_STEPS};
ghost use Rattle.rv_machine.specs.Prelude.{MachineState};
ghost use Rattle.segment_sweep.specs.LastMatch.{Query, Found};
ghost use Rattle.segment_sweep.specs.MarkedRun.{StandFor};
ghost use Rattle.segment_sweep.specs.SegmentResults.{Covers, CoversSegment, IsQuery};

use crate::marks::Marks;
use crate::worker::{Sought, Word, worker};
use input_journal::Journal;
use plan_types::Gate;
use std::alloc::{AllocError, Global};
use std::marker::Brand;
use std::sync::atomic::AtomicIn;
use std::thread;
use std::thread::Threads;

// The later of two places.
fn later(first: Option<u32>, second: Option<u32>) -> Option<u32>
    ensures { (q : Query) (a b c : ℕ) → Covers q a b first → Covers q b c second → Covers q a c result }
{
    match (first, second) {
        (Some(one), Some(other)) => Some(one.max(other)),
        (Some(one), None) => Some(one),
        (None, other) => other,
    }
}

// The last place that workers found. If one ran out of memory, there is no answer.
fn last_place<K: Sought>(
    answers: &[Result<Option<u32>, AllocError>],
    width: u32,
) -> Result<Option<u32>, AllocError>
    requires each { (i : ℕ) (d : _) → i < length answers.now → CoversSegment K.query width i (slice_index_or answers.now i d) }
    requires enough { K.query.count < length answers.now * width }
    ensures { IfOk result (λ place. Found K.query place) }
{
    let mut last = None;
    for answer in answers {
        match answer {
            Ok(place) => last = later(last, *place),
            Err(error) => return Err(*error),
        }
    }
    Ok(last)
}

// The search that answers a given query.
fn search<K: Sought + Sync, R: Threads + Sync, G: Gate + Sync>(
    rt: &R,
    alloc: Global,
    marks: &Marks,
    journal: &Journal,
    digest: &[u8; 32],
    gate: &G,
) -> Result<Option<u32>, AllocError>
    requires query { IsQuery K.query marks.now journal.now digest.now }
    ensures { IfOk result (λ place. Found K.query place) }
{
    let word = AtomicIn::<Word<K>>::new(0);
    let one = |segment: usize| -> Result<Option<u32>, AllocError>
        requires { (segment < length marks.now.states) × IsQuery K.query marks.now journal.now digest.now }
        ensures { CoversSegment K.query marks.entry.now.width segment result }
    { worker::<K, G>(marks, journal, digest, gate, &word, segment) };
    let answers = thread::map_indices(rt, alloc, marks.segments(), &one)?;
    last_place::<K>(&answers, marks.width())
}

/// The number of the last state, from 0 to the marks' count, whose image has the digest. Each segment has a worker, in
/// a thread of its own if one can be started. Before each digest a worker passes the gate, with its segment's number
/// counted from 0. It takes memory for one state, and none for images. Its steps have their own count.
pub fn find_digest<R: Threads + Sync, G: Gate + Sync>(
    rt: &R,
    alloc: Global,
    marks: &Marks,
    journal: &Journal,
    digest: &[u8; 32],
    gate: &G,
) -> Result<Option<u32>, AllocError>
    requires stand { (start : MachineState) × StandFor start journal.now marks.now }
    requires few { marks.now.count ≤ MOST_STEPS }
    ensures { IfOk result (λ place. (start : MachineState) → StandFor start journal.now marks.now →
        Found (record { start = start; journal = journal.now; digest = digest.now; count = marks.now.count }) place) }
{
    search::<Brand, R, G>(rt, alloc, marks, journal, digest, gate)
}

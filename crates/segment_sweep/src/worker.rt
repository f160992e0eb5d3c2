// What one worker does, and the word that all workers share.
ghost use Rattle.std.specs.Prelude.{◌≡◌, ◌+◌, ◌<◌, ◌≤◌, length};
ghost use Rattle.std.specs.Bool.{Decides};
ghost use Rattle.plan_types.specs.declared.limits.TheConstants.{MOST_STEPS};
ghost use Rattle.rv_machine.specs.Prelude.{state_number, IsBlankOf};
ghost use Rattle.state_image.specs.Prelude.{image};
ghost use Rattle.sha2.specs.Sha256.{sha256};
ghost use Rattle.segment_sweep.specs.LastMatch.{Query};
ghost use Rattle.segment_sweep.specs.SegmentResults.{Covers, CoversSegment, IsWord, IsQuery, no_query};

use crate::marks::Marks;
use input_journal::Journal;
use plan_types::Gate;
use rv_machine::{State, Steps, step};
use state_image::image_digest;
use std::alloc::AllocError;
use std::marker::{Brand, PhantomData};
use std::sync::atomic::Ordering::SeqCst;
use std::sync::atomic::{AtomicIn, Rule};
use std::sync::ledger::{Blank, Ledger};

/// What a search looks for. Each search has a query of its own.
pub(crate) trait Sought {
    ghost query: { Query };
}

impl Sought for Brand {
    ghost query = { no_query };
}

/// The rule of the word that workers share.
pub(crate) struct Word<K: Sought> {
    of: PhantomData<K>,
}

impl<K: Sought> Rule for Word<K> {
    ghost invariant = { λ word. IsWord K.query word };
}

// Whether the image of a state has the digest.
fn has_digest(state: &State, digest: &[u8; 32]) -> bool
    ensures { Decides result (sha256 (image state.now) ≡ digest.now) }
{
    image_digest(state) == *digest
}

// Searches the states from `from` up to below `to`, and returns the last place among them. It starts with the given
// one. It ends early where the word has a later place, and returns that.
fn sweep<K: Sought, G: Gate, L: Ledger>(
    journal: &Journal,
    digest: &[u8; 32],
    gate: &G,
    word: &AtomicIn<Word<K>>,
    segment: u32,
    from: u32,
    to: u32,
    mut state: State,
    blank: Blank,
) -> Option<u32>
    requires ledger { IsBlankOf blank.name blank.parts L.name L.parts }
    requires journal { journal.now ≡ K.query.journal }
    requires digest { digest.now ≡ K.query.digest }
    requires within { (from ≤ to) × (to ≤ K.query.count + 1) × (K.query.count ≤ MOST_STEPS) }
    requires state { state ≡ state_number K.query.start K.query.journal from }
    ensures { Covers K.query from to result }
{
    let mut steps = Steps::<L>::new(blank);
    let mut found = None;
    for n in from..to {
        let seen = word.load(SeqCst);
        if seen > to as u64 {
            return Some((seen - 1) as u32);
        }
        gate.enter(segment);
        if has_digest(&state, digest) {
            found = Some(n);
            if seen < n as u64 + 1 {
                word.store(n as u64 + 1, SeqCst);
            }
        }
        step(&mut state, journal, &mut steps);
    }
    found
}

/// The answer of the worker of the segment with this number. It takes memory for its state. Its steps have their own
/// count.
pub(crate) fn worker<K: Sought, G: Gate>(
    marks: &Marks,
    journal: &Journal,
    digest: &[u8; 32],
    gate: &G,
    word: &AtomicIn<Word<K>>,
    segment: usize,
) -> Result<Option<u32>, AllocError>
    requires segment { segment < length marks.now.states }
    requires query { IsQuery K.query marks.now journal.now digest.now }
    ensures { CoversSegment K.query marks.now.width segment result }
{
    let state = marks.mark(segment).clone()?;
    let from = segment as u32 * marks.width();
    let to = from.saturating_add(marks.width()).min(marks.count() + 1);
    Ok(sweep::<K, G, Brand>(
        journal,
        digest,
        gate,
        word,
        segment as u32,
        from,
        to,
        state,
        Blank::new(1),
    ))
}

// A state, and the digest of its image where it is known.
ghost use Rattle.std.specs.Prelude.{◌≡◌, ◌↔◌, ℕ, ◌+◌, ◌≤◌, ◌∷◌, length, slice_get, IfSome, None, Some, Err, OnOk, OnErr};
ghost use Rattle.rv_pages.specs.Prelude.{page_numbers};
ghost use Rattle.rv_machine.specs.Prelude.{state_number};
ghost use Rattle.sha2.specs.Sha256.{sha256};
ghost use Rattle.state_image.specs.Prelude.{image, first_wrong, first_unmapped, line};
ghost use Rattle.unit_undo.specs.Prelude.{Entry, undone, CanGoBack, IsMadeFor, LeadsBack, states_below};
ghost use Rattle.unit_digests.specs.Prelude.{states_of, AreDigests};
ghost use Rattle.reverse_runner.specs.Prelude.{IsDecoded, IsNoImage};

use input_journal::Journal;
use plan_types::Line;
use rv_machine::{State, Steps, advance, advance_watched};
use state_image::{ImageFault, decode_image, image_digest, line_front, push_digest};
use std::marker::Model;
use std::sync::ledger::Ledger;
use unit_undo::Undo;

/// A state of the machine, with the SHA-256 of its image if that is known. So the digest of a fetched state isn't taken
/// again. Contracts mention the state alone.
#[derive(Drop)]
pub struct KnownState {
    state: State,
    digest: Option<[u8; 32]>,
}

impl KnownState {
    /// A state with an unknown digest.
    pub fn new(state: State) -> KnownState
        ensures { result ≡ state }
    {
        KnownState {
            state,
            digest: None,
        }
    }

    /// The state alone.
    pub fn state(&self) -> &State
        ensures { result.now ≡ self.now }
    {
        &self.state
    }

    /// The SHA-256 of its image. It takes no memory. If it is known, it takes no time.
    pub fn digest(&self) -> [u8; 32]
        ensures { result ≡ sha256 (image self.now) }
    {
        match self.digest {
            Some(digest) => digest,
            None => image_digest(&self.state),
        }
    }

    /// Replaces `text` by the line of the state with the number `n`. It takes no memory.
    pub fn show(&self, n: u32, text: &mut Line)
        ensures text { text.new ≡ line n self.now }
        ensures short { length text.new ≤ 420 }
    {
        line_front(n, &self.state, text);
        push_digest(text, &self.digest());
    }

    /// The SHA-256 of its image where it is known.
    pub fn known(&self) -> Option<[u8; 32]>
        ensures { IfSome result (λ digest. digest ≡ sha256 (image self.now)) }
    {
        self.digest
    }

    /// Takes so many steps of the machine. Zero steps keep a known digest.
    pub fn advance<L: Ledger>(&mut self, journal: &Journal, count: u32, steps: &mut Steps<L>)
        ensures states { self.new ≡ state_number self.old journal.now count }
        ensures counted { steps.new ≡ steps.old + count }
        ensures mapped { page_numbers self.new.memory ≡ page_numbers self.old.memory }
    {
        if count > 0 {
            self.digest = None;
            advance(&mut self.state, journal, count, steps);
        }
    }

    /// Takes so many steps, and leaves an entry for each in the undo list, and no others.
    pub(crate) fn advance_noting<L: Ledger>(
        &mut self,
        journal: &Journal,
        count: u32,
        steps: &mut Steps<L>,
        undo: &mut Undo,
    )
        requires made { IsMadeFor journal.now undo.old }
        requires few { count ≤ undo.old.unit }
        ensures states { self.new ≡ state_number self.old journal.now count }
        ensures mapped { page_numbers self.new.memory ≡ page_numbers self.old.memory }
        ensures back { LeadsBack undo.new.entries self.new (states_below self.old journal.now count) }
        ensures stays { (undo.new.unit ≡ undo.old.unit) × (undo.new.room ≡ undo.old.room) }
        ensures counted { steps.new ≡ steps.old + count }
    {
        undo.clear();
        self.digest = None;
        advance_watched(&mut self.state, journal, count, steps, undo);
    }

    /// Copies another state with the same pages into this one.
    pub(crate) fn copy_from(&mut self, other: &KnownState)
        requires { page_numbers self.old.memory ≡ page_numbers other.now.memory }
        ensures { self.new ≡ other.now }
    {
        self.state.copy_from(&other.state);
        self.digest = other.digest;
    }

    /// Undoes the step of the last entry of an undo list, and removes the entry. `known` has the known digests of the
    /// list's states, in the order of the run.
    pub(crate) fn back(&mut self, undo: &mut Undo, known: &[Option<[u8; 32]>])
        requires back { CanGoBack undo.old.entries self.old }
        requires known { AreDigests known.now (states_of undo.old.entries self.old) }
        ensures back { (e : Entry) × ((undo.old ≡ record undo.new { entries = e ∷ undo.new.entries }) × (self.new ≡ undone e self.old)) }
        ensures pages { page_numbers self.new.memory ≡ page_numbers self.old.memory }
    {
        undo.back(&mut self.state);
        self.digest = digest_at(known, undo.count());
    }

    /// Replaces this state by that of an image with a digest. After a refusal it is unchanged.
    pub fn decode(&mut self, bytes: &[u8], digest: &[u8; 32]) -> Result<(), ImageFault>
        requires { digest.now ≡ sha256 bytes.now }
        ensures not_image { (at : ℕ) → (result ≡ Err (ImageFault.NotImage at)) ↔ (first_wrong bytes.now ≡ Some at) }
        ensures other_pages { (page : ℕ) → (result ≡ Err (ImageFault.OtherPages page)) ↔ ((first_wrong bytes.now ≡ None)
            × (first_unmapped bytes.now (page_numbers self.old.memory) ≡ Some page)) }
        ensures decoded { OnOk result (IsDecoded self.old self.new bytes.now) }
        ensures refused { OnErr result ((self.new ≡ self.old) × IsNoImage self.old bytes.now) }
        ensures pages { page_numbers self.new.memory ≡ page_numbers self.old.memory }
    {
        match decode_image(bytes, &mut self.state) {
            Ok(()) => {
                self.digest = Some(*digest);
                self.state.is_machine_state();
                Ok(())
            }
            Err(fault) => Err(fault),
        }
    }
}

impl Model for KnownState {
    ghost use Rattle.rv_machine.specs.MachineState.{MachineState};
    ghost use Rattle.rv_machine.specs.StateCode.{state_code};
    ghost use Rattle.reverse_runner.specs.KnownDigests.{IsDigestOf};

    ghost Value = { MachineState };

    ghost coded = { state_code };

    ghost view = { λ s. s.state };

    ghost invariant = { λ s. IsDigestOf s.digest s.state };
}

// The digest of the state with this number, where it is known.
fn digest_at(known: &[Option<[u8; 32]>], number: u32) -> Option<[u8; 32]>
    ensures { IfSome result (λ digest. slice_get known.now number ≡ Some (Some digest)) }
{
    match known.get(number as usize) {
        Some(digest) => *digest,
        None => None,
    }
}

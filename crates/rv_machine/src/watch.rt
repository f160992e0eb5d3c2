// Watchers of the steps of a machine.
ghost use Rattle.std.specs.Prelude.{◌≡◌, ℕ, Bool, List, IsTrue, false, true};
ghost use Rattle.rv_machine.specs.MachineState.{MachineState};
ghost use Rattle.rv_machine.specs.Watchers.{IsNext};

use crate::next::Next;
use crate::state::State;
use input_journal::Journal;

/// Looks at each step of a machine before it is taken.
pub trait Watch {
    /// Whether a watcher may look at the next step of a state with this recorded input.
    ghost can_note: { Self → MachineState → List (List ℕ) → Type 0 };
    /// Relates the watcher before a look, the state, the recorded input, and the watcher after it.
    ghost noted: { Self → MachineState → List (List ℕ) → Self → Type 0 };

    /// Looks at the next step of a state.
    fn note(&mut self, state: &State, journal: &Journal, next: &Next)
        requires can { can_note self.old state.now journal.now }
        requires next { IsNext next.now state.now }
        ensures { noted self.old state.now journal.now self.new };
}

/// Says in which running states a run stops. It checks each state before its step.
pub trait Stop {
    /// Whether a run with this recorded input stops in a state.
    ghost stops: { Self → MachineState → List (List ℕ) → Bool };
    /// Whether it stops in a state, whatever the next step does.
    ghost is_at: { Self → MachineState → Bool };

    /// Whether the run stops in this state, whatever the next step does. It is called before that step is decoded.
    fn is_at(&self, state: &State) -> bool
        ensures value { result ≡ is_at self.now state.now }
        ensures stops { IsTrue result → (journal : List (List ℕ)) → stops self.now state.now journal ≡ true };

    /// Whether the run stops in this state, which `is_at` lets pass.
    fn stops(&self, state: &State, journal: &Journal, next: &Next) -> bool
        requires next { IsNext next.now state.now }
        requires elsewhere { is_at self.now state.now ≡ false }
        ensures { result ≡ stops self.now state.now journal.now };
}

// Looks at nothing.
#[derive(Drop)]
pub(crate) struct Nobody;

impl Watch for Nobody {
    ghost can_note = { λ _ _ _. Unit {0} };

    ghost noted = { λ _ _ _ _. Unit {0} };

    #[inline(always)]
    fn note(&mut self, _state: &State, _journal: &Journal, _next: &Next) {}
}

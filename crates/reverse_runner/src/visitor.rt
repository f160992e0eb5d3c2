// The trait of visitors, which get the states of a session.
ghost use Rattle.std.specs.Prelude.{◌≡◌, ℕ, ◌≤◌, List, Err, OnOk, OnErr};
ghost use Rattle.rv_machine.specs.Prelude.{MachineState};
ghost use Rattle.keepers.specs.Prelude.{Rose};

use crate::fault::RunFault;
use crate::known_state::KnownState;
use input_journal::Journal;
use thiserror::Error;

/// Why a visitor refuses a state.
#[derive(Clone, Copy, Debug, PartialEq, Eq, Error)]
pub enum VisitFault {
    /// The visit failed.
    #[error("the visitor failed")]
    Failed,
}

/// Gets the states of a session, each with its number and the session's journal.
pub trait Visitor {
    /// Relates the visitor before an Ok call, the number, the state, the journal, and the visitor after it.
    ghost got: { Self → ℕ → MachineState → List (List ℕ) → Self → Type 0 };
    /// What a visit that failed with `Failed` does.
    ghost missed: { Self → ℕ → MachineState → List (List ℕ) → Self → Type 0 };

    ghost fault_count: { Self → ℕ };

    /// Gets state number `n`.
    fn state(&mut self, n: u32, state: &KnownState, journal: &Journal) -> Result<(), VisitFault>
        ensures ok { OnOk result (got self.old n state.now journal.now self.new) }
        ensures refused { OnErr result (missed self.old n state.now journal.now self.new) }
        ensures quiet { OnOk result (fault_count self.new ≡ fault_count self.old) }
        ensures later { fault_count self.old ≤ fault_count self.new }
        ensures cause { OnErr result (Rose (fault_count self.old) (fault_count self.new)) };
}

// Gives a state to the visitor.
pub(crate) fn hand_out<V: Visitor>(
    visitor: &mut V,
    n: u32,
    state: &KnownState,
    journal: &Journal,
) -> Result<(), RunFault>
    ensures got { OnOk result (V.got visitor.old n state.now journal.now visitor.new) }
    ensures missed { OnErr result (V.missed visitor.old n state.now journal.now visitor.new) }
    ensures fault { OnErr result (result ≡ Err RunFault.Visitor) }
    ensures quiet { OnOk result (V.fault_count visitor.new ≡ V.fault_count visitor.old) }
    ensures later { V.fault_count visitor.old ≤ V.fault_count visitor.new }
    ensures cause { OnErr result (Rose (V.fault_count visitor.old) (V.fault_count visitor.new)) }
{
    match visitor.state(n, state, journal) {
        Ok(()) => Ok(()),
        Err(_) => Err(RunFault::Visitor),
    }
}

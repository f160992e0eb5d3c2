// Where output is written.
ghost use Rattle.std.specs.Prelude.{◌≡◌, ℕ, ◌≤◌, List, ◌++◌, Option, OnOk, OnErr};
ghost use Rattle.keepers.specs.Counts.{Rose, raised};
ghost use Rattle.keepers.specs.Claims.{Tells, AddsPrefix};

use thiserror::Error;

/// Why output can't be written.
#[derive(Clone, Copy, Debug, PartialEq, Eq, Error)]
pub enum SinkFault {
    /// Writing failed.
    #[error("the output can't be written")]
    Failed,
}

/// Takes output, a piece at a time.
pub trait Sink {
    /// The bytes that it took, for a sink that claims to know them.
    ghost told: { Self → Option (List ℕ) };
    /// The calls of `write`, including refused ones.
    ghost call_count: { Self → ℕ };

    ghost fault_count: { Self → ℕ };

    /// Adds a piece. After a refusal it has added a prefix of the piece.
    fn write(&mut self, piece: &[u8]) -> Result<(), SinkFault>
        ensures ok { OnOk result (Tells (told self.old) (told self.new) (λ old new. new ≡ old ++ piece.now)) }
        ensures refused { OnErr result (Tells (told self.old) (told self.new) (AddsPrefix piece.now)) }
        ensures calls { call_count self.new ≡ raised (call_count self.old) 1 }
        ensures quiet { OnOk result (fault_count self.new ≡ fault_count self.old) }
        ensures later { fault_count self.old ≤ fault_count self.new }
        ensures cause { OnErr result (Rose (fault_count self.old) (fault_count self.new)) };
}

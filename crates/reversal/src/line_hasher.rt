// The visitor that hashes lines.
ghost use Rattle.std.specs.Prelude.{◌≡◌, ℕ, List, [], ◌∷◌, ◌++◌};
ghost use Rattle.state_image.specs.Prelude.{line};
ghost use Rattle.sha2.specs.Sha256.{sha256};
ghost use Rattle.sha2.specs.Hashers.{Holds256};

use input_journal::Journal;
use plan_types::Line;
use reverse_runner::{KnownState, VisitFault, Visitor};
use sha2::{Digest, Sha256};

/// Hashes the line of each state that it gets, and a line end.
#[derive(Drop)]
pub struct LineHasher {
    pub hasher: Sha256,
}

impl LineHasher {
    /// No lines so far.
    pub fn new() -> LineHasher
        ensures { Holds256 result.hasher [] }
    {
        LineHasher {
            hasher: Sha256::new(),
        }
    }

    /// The SHA-256 of the lines.
    pub fn finalize(self) -> [u8; 32]
        ensures { (lines : List ℕ) → Holds256 self.hasher lines → result ≡ sha256 lines }
    {
        self.hasher.finalize()
    }
}

impl Visitor for LineHasher {
    ghost got = { λ h n s journal g. (lines : List ℕ) → Holds256 h.hasher lines → Holds256 g.hasher (lines ++ (line n s ++ 10 ∷ [])) };

    ghost missed = { λ h n s journal g. ⊥ };

    ghost fault_count = { λ _. 0 };

    fn state(&mut self, n: u32, state: &KnownState, _journal: &Journal) -> Result<(), VisitFault> {
        let mut line = Line::new();
        state.show(n, &mut line);
        line.push(b"\n");
        self.hasher.update(line.bytes());
        Ok(())
    }
}

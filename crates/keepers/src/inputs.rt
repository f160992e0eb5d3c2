// Where inputs are read.
ghost use Rattle.std.specs.Prelude.{◌≡◌, ◌≢◌, ◌⊎◌, ℕ, ◌<◌, ◌≤◌, List, [], ◌∷◌, ◌++◌, length, Option, Some, Ok, Err, IsSomeAnd};
ghost use Rattle.std.specs.Vec.{vec_len, vec_capacity};
ghost use Rattle.std.specs.FinMap as finmap;
ghost use Rattle.keepers.specs.Counts.{Rose};
ghost use Rattle.keepers.specs.Claims.{Files, WhereTold, Begins, bytes_in};

use thiserror::Error;

/// Whether a whole input was read.
#[derive(Clone, Copy, Debug, PartialEq, Eq)]
pub enum Whole {
    /// It was.
    All,
    /// The input is longer than the limit.
    Longer,
}

/// Why an input can't be read.
#[derive(Clone, Copy, Debug, PartialEq, Eq, Error)]
pub enum InputFault {
    /// There is no such input, or reading it failed.
    #[error("the input can't be read")]
    Failed,
    /// There was no memory.
    #[error("out of memory")]
    Memory,
}

/// Inputs by their names.
pub trait Inputs {
    /// The inputs, for an object that claims to know them. They never change.
    ghost told: { Self → Option Files };
    /// The names that were asked for, in order.
    ghost asked: { Self → List (List ℕ) };

    ghost fault_count: { Self → ℕ };

    /// Reads the named input into `into`, replacing what was there. It stops soon after `limit` bytes. If the answer
    /// isn't All, `into` holds the input's first bytes, or none if there is no input. A name without an input is a
    /// fault.
    fn read(&mut self, name: &[u8], limit: u32, into: &mut Vec<u8>) -> Result<Whole, InputFault>
        ensures all { result ≡ Ok Whole.All → WhereTold (told self.old) (λ files. finmap.get files name.now ≡ Some into.new.items) }
        ensures fits { result ≡ Ok Whole.All → vec_len into.new ≤ limit }
        ensures within { vec_len into.new ≤ limit }
        ensures begun { WhereTold (told self.old) (λ files. Begins into.new.items (bytes_in files name.now)) }
        ensures longer { result ≡ Ok Whole.Longer → WhereTold (told self.old) (λ files. IsSomeAnd (finmap.get files name.now) (λ bytes. limit < length bytes)) }
        ensures reserved { vec_capacity into.old ≤ vec_capacity into.new }
        ensures same { told self.new ≡ told self.old }
        ensures asks { result ≢ Err InputFault.Memory → asked self.new ≡ asked self.old ++ name.now ∷ [] }
        ensures may_ask { result ≡ Err InputFault.Memory → (asked self.new ≡ asked self.old) ⊎ (asked self.new ≡ asked self.old ++ name.now ∷ []) }
        ensures quiet { result ≢ Err InputFault.Failed → fault_count self.new ≡ fault_count self.old }
        ensures later { fault_count self.old ≤ fault_count self.new }
        ensures cause { result ≡ Err InputFault.Failed → Rose (fault_count self.old) (fault_count self.new) };
}

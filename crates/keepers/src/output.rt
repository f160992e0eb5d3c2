// What output is written to.
ghost use Rattle.std.specs.Prelude.{◌≡◌, Bool, is_some};

use std::io::{Stdout, Write};

/// A writer whose content is always known, as a vector's is, or never, as that of standard output.
pub trait Output: Write {
    /// Whether its content is known.
    ghost tells: { Bool };

    /// The content of all its values is known, or of none.
    ghost steady: { (w : Self) → is_some (Self.contents w) ≡ tells };
}

impl Output for Vec<u8> {
    ghost use Rattle.std.specs.Prelude.{true, refl};

    ghost tells = { true };

    ghost steady = { λ _. refl };
}

impl Output for Stdout {
    ghost use Rattle.std.specs.Prelude.{false, refl};

    ghost tells = { false };

    ghost steady = { λ _. refl };
}

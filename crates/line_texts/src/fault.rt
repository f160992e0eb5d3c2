// Where a text breaks a rule.
ghost use Rattle.std.specs.Prelude.{◌≡◌, ℕ};

use std::alloc::{AllocError, AllocFailed};
use thiserror::Error;

/// The first fault of a text.
#[derive(Clone, Copy, Debug, PartialEq, Eq, Error)]
pub enum Fault {
    /// The broken rule, and where. Rules, lines and columns count from 1, columns in bytes. A fault of no place has line
    /// 0 and column 0.
    #[error("line {line}, column {column}: rule {rule}")]
    At { rule: u8, line: u32, column: u32 },
    /// There was no memory.
    #[error("out of memory")]
    Memory,
}

impl From<AllocError> for Fault {
    ghost use Rattle.std.specs.Prelude.{◌≡◌};
    ghost use Rattle.line_texts.specs.declared.fault.Fault.TheVariants.{Memory};

    ghost from_gives = { λ _ e. e ≡ Memory };

    fn from(_e: AllocError) -> Fault {
        Fault::Memory
    }
}

impl<T: Drop> From<AllocFailed<T>> for Fault {
    ghost use Rattle.std.specs.Prelude.{◌≡◌};
    ghost use Rattle.line_texts.specs.declared.fault.Fault.TheVariants.{Memory};

    ghost from_gives = { λ _ e. e ≡ Memory };

    fn from(_e: AllocFailed<T>) -> Fault {
        Fault::Memory
    }
}

/// The rules of a line, each with its number.
pub trait Rules {
    ghost number_of: { Self → ℕ };

    fn number(self) -> u8
        ensures { result ≡ number_of self };
}

/// A fault within a line.
#[derive(Clone, Copy)]
pub struct LineFault<R> {
    /// The broken rule.
    pub rule: R,
    /// Where, in bytes from 1.
    pub column: u32,
}

impl<R: Rules> LineFault<R> {
    /// The fault, as one of the text whose line has this number.
    pub fn at(self, line: u32) -> Fault
        ensures { result ≡ Fault.At (R.number_of self.rule) line self.column }
    {
        Fault::At {
            rule: self.rule.number(),
            line,
            column: self.column,
        }
    }
}

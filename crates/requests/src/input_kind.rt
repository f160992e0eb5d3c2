// The kinds of inputs.
ghost use Rattle.std.specs.Prelude.{◌≡◌};
ghost use Rattle.requests.specs.Operands.{limit_of, named};
ghost use Rattle.requests.specs.InputOutcome.{input_of};

use crate::inputs::Input;

/// What an input is read as.
#[derive(Clone, Copy, PartialEq, Eq)]
pub enum InputKind {
    Program,
    Journal,
    Book,
    Schedule,
    Certificate,
    Source,
    /// The raw program that is disassembled.
    Words,
    Script,
}

impl InputKind {
    /// How many bytes an input of this kind may have.
    pub fn limit(self) -> u32
        ensures { result ≡ limit_of self }
    {
        match self {
            InputKind::Program => 33_554_432,
            InputKind::Journal | InputKind::Source => 67_108_864,
            InputKind::Book => 65_536,
            InputKind::Schedule | InputKind::Certificate => 536_870_912,
            InputKind::Words => 4_194_304,
            InputKind::Script => 1_048_576,
        }
    }

    /// An input of this kind by its name.
    pub fn named(self, name: &[u8]) -> Input<'_>
        ensures { input_of result ≡ named self name.now }
    {
        Input { kind: self, name }
    }
}

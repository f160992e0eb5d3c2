// The rules of a line of a source.
ghost use Rattle.rv_asm.specs.Source.{number_of_rule};

use line_texts::Rules;

#[derive(Clone, Copy)]
pub(crate) enum Rule {
    NotInstruction = 1,
    Number = 2,
    Register = 3,
    Label = 4,
    Twice = 5,
    TooLong = 6,
}

impl Rules for Rule {
    ghost number_of = { number_of_rule };

    fn number(self) -> u8 {
        self as u8
    }
}

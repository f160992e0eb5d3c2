// The rules of a line of a script.
ghost use Rattle.reverse_console.specs.ScriptFaults.{number_of_rule};

use line_texts::Rules;

// By their numbers.
#[derive(Drop)]
pub(crate) enum Rule {
    NotCommand = 1,
    Number,
    Address,
    Range,
}

impl Rules for Rule {
    ghost number_of = { number_of_rule };

    fn number(self) -> u8 {
        self as u8
    }
}

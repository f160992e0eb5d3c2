// The rules of a line of a schedule.
ghost use Rattle.action_text.specs.Parser.{number_of_rule};

use line_texts::{LineFault, Rules};

// By their numbers.
#[derive(Clone, Copy)]
pub(crate) enum Rule {
    NotAction = 1,
    Number,
    Level,
    Profile,
    TooMany,
}

// What was read from a line, or the line's first fault.
pub(crate) type Parsed<T> = Result<T, LineFault<Rule>>;

impl Rules for Rule {
    ghost number_of = { number_of_rule };

    fn number(self) -> u8 {
        self as u8
    }
}

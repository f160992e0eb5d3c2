// The rules of a line of a certificate.
ghost use Rattle.cert_text.specs.ReaderState.{number_of_rule};

use line_texts::Rules;

// By their numbers.
#[derive(Clone, Copy)]
pub(crate) enum Rule {
    Number = 3,
    Shape,
}

impl Rules for Rule {
    ghost number_of = { number_of_rule };

    fn number(self) -> u8 {
        self as u8
    }
}

// Numbers in the text of a packet.
ghost use Rattle.std.specs.Prelude.{◌≡◌};
ghost use Rattle.hex.specs.Hex.{hex_digit_value};
ghost use Rattle.gdb_wire.specs.RequestParser.{number_of, numbers_of};

use crate::finding::first_index;

/// The most digits of a number: those of 32 bits.
const MOST_DIGITS: usize = 8;

// The number of all these digits.
#[tactic(auto, unfolding(crate::specs::RequestParser::number_of))]
pub(crate) fn number(digits: &[u8]) -> Option<u32>
    ensures { result ≡ number_of digits.now }
{
    if digits.is_empty() || digits.len() > MOST_DIGITS {
        return None;
    }
    let mut n = 0;
    for byte in digits {
        n = n * 16 + digit(*byte)?;
    }
    Some(n)
}

// The value of a digit.
fn digit(byte: u8) -> Option<u32>
    ensures { result ≡ hex_digit_value byte }
{
    char::from(byte).to_digit(16)
}

// Two numbers with a comma between them.
pub(crate) fn numbers(text: &[u8]) -> Option<(u32, u32)>
    ensures { result ≡ numbers_of text.now }
{
    let comma = first_index(text, b',')?;
    Some((number(&text[..comma])?, number(&text[comma + 1..])?))
}

// Numbers, registers and names, by their spelling.
ghost use Rattle.std.specs.Prelude.{◌≡◌, option_map};
ghost use Rattle.std.specs.List.{list_all};
ghost use Rattle.rv_asm.specs.Numbers.{negative, digit as digit_of, value_behind, decimal_of as decimal_value, hex_of as hex_value, number_of as number_value, register_of as register_value, begins_number as number_begins, begins_letter as letter_begins, is_name_byte, is_name as is_a_name};
ghost use Rattle.rv_asm.specs.declared.number.Signed.TheVariants.{Plus};

use line_texts::without_first;

// A number with its sign. `Minus` is of numbers that aren't 0.
#[derive(Clone, Copy)]
pub(crate) enum Signed {
    Plus(u64),
    Minus(u64),
}

// The value of a digit or a lower-case letter up to `f`; 16 for any other byte.
fn digit(c: u8) -> u64
    ensures { result ≡ digit_of c }
{
    match c {
        b'0'..=b'9' => u64::from(c - b'0'),
        b'a'..=b'f' => u64::from(c - b'a') + 10,
        _ => 16,
    }
}

// The number of hexadecimal digits. None if another byte is among them, or above 32 bits.
#[tactic(auto, unfolding(crate::specs::Numbers::value_behind))]
fn value(digits: &[u8]) -> Option<u64>
    ensures { result ≡ value_behind 0 digits.now }
{
    let mut n = 0u64;
    let mut rest = digits;
    while let [byte, after @ ..] = rest {
        let last = digit(*byte);
        if last >= 16 {
            return None;
        }
        let shifted = n * 16;
        let next = shifted + last;
        if next > u64::from(u32::MAX) {
            return None;
        }
        n = next;
        rest = after;
    }
    Some(n)
}

// Decimal digits without a leading zero.
fn decimal_of(digits: &[u8]) -> Option<u64>
    ensures { result ≡ decimal_value digits.now }
{
    line_texts::number_of(digits, 0xffff_ffff)
}

// 1 to 8 hexadecimal digits.
#[tactic(auto, unfolding(crate::specs::Numbers::hex_of))]
fn hex_of(digits: &[u8]) -> Option<u64>
    ensures { result ≡ hex_value digits.now }
{
    if digits.len() < 1 || digits.len() > 8 {
        return None;
    }
    value(digits)
}

// The number that a text spells.
#[tactic(auto, unfolding(crate::specs::Numbers::number_of))]
pub(crate) fn number_of(text: &[u8]) -> Option<Signed>
    ensures { result ≡ number_value text.now }
{
    match text {
        [] => None,
        [_] => plus(decimal_of(text)),
        [first, second, digits @ ..] => {
            if *first == b'-' {
                minus(decimal_of(without_first(text)))
            } else if *first == b'0' && *second == b'x' {
                plus(hex_of(digits))
            } else {
                plus(decimal_of(text))
            }
        }
    }
}

// A number without a sign.
fn plus(found: Option<u64>) -> Option<Signed>
    ensures { result ≡ option_map Plus found }
{
    match found {
        Some(n) => Some(Signed::Plus(n)),
        None => None,
    }
}

// The number after a `-`.
fn minus(found: Option<u64>) -> Option<Signed>
    ensures { result ≡ negative found }
{
    match found {
        Some(n) => { if n == 0 { None } else { Some(Signed::Minus(n)) } }
        None => None,
    }
}

// The number of the register that a text spells.
#[tactic(auto, unfolding(crate::specs::Numbers::register_of))]
pub(crate) fn register_of(text: &[u8]) -> Option<u8>
    ensures { result ≡ register_value text.now }
{
    let [b'x', digits @ ..] = text else {
        return None;
    };
    let n = decimal_of(digits)?;
    if n < 32 { Some(n as u8) } else { None }
}

// Whether a token begins as a number does.
pub(crate) fn begins_number(text: &[u8]) -> bool
    ensures { result ≡ number_begins text.now }
{
    match text {
        [first, ..] => first.is_ascii_digit() || *first == b'-',
        [] => false,
    }
}

// Whether it begins as a register does.
pub(crate) fn begins_letter(text: &[u8]) -> bool
    ensures { result ≡ letter_begins text.now }
{
    match text {
        [first, ..] => first.is_ascii_alphabetic(),
        [] => false,
    }
}

// Whether a token is a name: 1 to 32 letters, digits and `_`, and no digit first.
#[tactic(auto, unfolding(crate::specs::Numbers::is_name))]
pub(crate) fn is_name(text: &[u8]) -> bool
    ensures { result ≡ is_a_name text.now }
{
    match text {
        [] => false,
        [first, ..] => !first.is_ascii_digit() && text.len() <= 32 && are_name_bytes(text),
    }
}

// Whether all bytes are allowed in a name.
fn are_name_bytes(bytes: &[u8]) -> bool
    ensures { result ≡ list_all is_name_byte bytes.now }
{
    let mut rest = bytes;
    while let [byte, after @ ..] = rest {
        if !byte.is_ascii_alphanumeric() && *byte != b'_' {
            return false;
        }
        rest = after;
    }
    true
}

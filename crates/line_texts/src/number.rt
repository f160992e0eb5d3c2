// Numbers in decimal digits.
ghost use Rattle.std.specs.Prelude.{◌≡◌, ◌≤◌, ℕ, List, IfSome, IfNone, MatchOption, decimal};
ghost use Rattle.line_texts.specs.Numbers.{IsNumberAt};
ghost use Rattle.line_texts.specs.Parsers.{GivesSome, digits_at, number_at, number_of};

/// The number at the front of the bytes, and the bytes after it. It has no sign and no leading zero. It takes the
/// longest run of digits, and is None above the limit.
#[inline(always)]
pub fn number_at(bytes: &[u8], limit: u64) -> Option<(u64, &[u8])>
    ensures found { IfSome result (λ x. IsNumberAt limit bytes.now x.0 x.1.now) }
    ensures none { IfNone result ((n : ℕ) (rest : List ℕ) → IsNumberAt limit bytes.now n rest → ⊥) }

    // The number and the rest, as a function on lists.
    ensures gives { GivesSome (λ x. (x.0, x.1.now)) result (number_at limit bytes.now) }
{
    front(bytes, limit)
}

/// The number that a whole text is.
#[inline(always)]
pub fn number_of(text: &[u8], limit: u64) -> Option<u64>
    ensures number { MatchOption result ((n : ℕ) → n ≤ limit → text.now ≡ decimal n → ⊥)
        (λ n. (n ≤ limit) × (text.now ≡ decimal n)) }

    // As a function on lists.
    ensures gives { result ≡ number_of limit text.now }
{
    whole(text, limit)
}

#[inline(always)]
#[tactic(auto, unfolding(crate::specs::Parsers::number_at))]
fn front(bytes: &[u8], limit: u64) -> Option<(u64, &[u8])>
    ensures { GivesSome (λ x. (x.0, x.1.now)) result (number_at limit bytes.now) }
{
    match bytes {
        [b'0', b'0'..=b'9', ..] => None,
        [b'0', rest @ ..] => Some((0, rest)),
        [b'1'..=b'9', ..] => digits(bytes, limit),
        _ => None,
    }
}

#[inline(always)]
#[tactic(auto, unfolding(crate::specs::Parsers::number_of))]
fn whole(text: &[u8], limit: u64) -> Option<u64>
    ensures { result ≡ number_of limit text.now }
{
    match front(text, limit) {
        Some((n, [])) => Some(n),
        _ => None,
    }
}

// The number of the digits at the front of the bytes, and the bytes after them.
#[inline(always)]
#[tactic(auto, unfolding(crate::specs::Parsers::digits_at))]
fn digits(bytes: &[u8], limit: u64) -> Option<(u64, &[u8])>
    ensures { GivesSome (λ x. (x.0, x.1.now)) result (digits_at limit 0 bytes.now) }
{
    let mut n = 0;
    let mut rest = bytes;
    while let [byte @ b'0'..=b'9', after @ ..] = rest {
        let digit = u64::from(*byte - b'0');
        if n > limit / 10 || digit > limit - n * 10 {
            return None;
        }
        n = n * 10 + digit;
        rest = after;
    }
    Some((n, rest))
}

// Blanks, and a byte at the front.
ghost use Rattle.std.specs.Prelude.{◌≡◌, ◌<◌, ◌≤◌, length, IfSome};
ghost use Rattle.line_texts.specs.Tokens.{is_blank};
ghost use Rattle.line_texts.specs.Parsers.{GivesSome, past, without_blanks};

/// The bytes from the first one on that isn't a blank.
#[inline(always)]
#[tactic(auto, unfolding(crate::specs::Parsers::without_blanks))]
pub fn after_blanks(bytes: &[u8]) -> &[u8]
    ensures value { result.now ≡ without_blanks bytes.now }
    ensures within { length result.now ≤ length bytes.now }
{
    let mut rest = bytes;
    while let [byte, after @ ..] = rest {
        if !is_blank(*byte) {
            return rest;
        }
        rest = after;
    }
    rest
}

// Most bytes are above all blanks, so one comparison rules them out.
pub(crate) fn is_blank(b: u8) -> bool
    ensures { result ≡ is_blank b }
{
    b <= b' ' && (b == b' ' || b == b'\t' || b == b'\r')
}

/// The bytes after this one, where it comes first.
pub fn past(bytes: &[u8], byte: u8) -> Option<&[u8]>
    ensures value { GivesSome (λ rest. rest.now) result (past byte bytes.now) }
    ensures within { IfSome result (λ rest. length rest.now < length bytes.now) }
{
    match bytes {
        [first, rest @ ..] if *first == byte => Some(rest),
        _ => None,
    }
}

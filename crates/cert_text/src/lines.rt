// The certificate lines of a text.
ghost use Rattle.std.specs.Prelude.{◌≡◌, ◌<◌, ◌≤◌, ◌+◌, ◌-◌, ◌^◌, ℕ, [], ◌∷◌, length, MatchResult};
ghost use Rattle.line_texts.specs.Prelude.{lines};
ghost use Rattle.cert_text.specs.MarkedLines.{is_marked, marked, line_count};

use line_texts::length_before;

// A certificate line: its number, its bytes after `#!`, and the bytes of the lines after it.
#[derive(Clone, Copy)]
pub(crate) struct MarkedLine<'a> {
    pub number: u32,
    pub text: &'a [u8],
    pub later: &'a [u8],
}

// The first certificate line of these bytes, which follow so many lines, or the number of lines. Of other lines it
// reads only the first two bytes and the end.
pub(crate) fn next_marked(bytes: &[u8], before: u32) -> Result<MarkedLine<'_>, u32>
    requires { before + length bytes.now < 2 ^ 31 }
    ensures { MatchResult result
        (λ line. (marked (before + 1) (lines bytes.now) ≡ record {
          number = line.number;
          text = line.text.now;
        } ∷ marked (line.number + 1) (lines line.later.now))
        × (line.number + line_count (lines line.later.now) ≡ before + line_count (lines bytes.now))
        × (length line.text.now < 2 ^ 31) × (line.number + length line.later.now < 2 ^ 31))
        (λ all. (marked (before + 1) (lines bytes.now) ≡ []) × (all ≡ before + line_count (lines bytes.now)) × (all < 2 ^ 31)) }
{
    let mut rest = bytes;
    let mut passed = before;
    while !rest.is_empty() {
        let (line, later) = split_line(rest);
        passed += 1;
        if is_marked(line) {
            return Ok(MarkedLine {
                number: passed,
                text: &line[2..],
                later,
            });
        }
        rest = later;
    }
    Err(passed)
}

// Whether a line begins with `#!`.
fn is_marked(line: &[u8]) -> bool
    ensures { result ≡ is_marked line.now }
{
    match line {
        [b'#', b'!', ..] => true,
        _ => false,
    }
}

// The first line, and the bytes after its end.
fn split_line(bytes: &[u8]) -> (&[u8], &[u8])
    requires { 0 < length bytes.now }
    ensures lines { (n : ℕ) → marked n (lines bytes.now) ≡ marked n (result.0.now ∷ lines result.1.now) }
    ensures count { line_count (lines bytes.now) ≡ 1 + line_count (lines result.1.now) }
    ensures shorter { length result.1.now < length bytes.now }
    ensures within { length result.0.now ≤ length bytes.now }
{
    let (line, rest) = bytes.split_at(length_before(bytes, b'\n'));
    match rest {
        [_, later @ ..] => (line, later),
        [] => (line, rest),
    }
}

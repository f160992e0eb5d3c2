// The tokens of a line of a source.
ghost use Rattle.std.specs.Prelude.{◌≡◌, ◌≤◌, ◌<◌, ◌^◌, length};
ghost use Rattle.std.proofs.Common.{arith};
ghost use Rattle.std.proofs.lemmas.Bool.Decides.{nat_tests};
ghost use Rattle.rv_asm.specs.Tokens.{before_comment, tokens, is_run_byte};

use line_texts::{RunBytes, Tokens, length_before};

// Letters, digits, `_`, `.` and `-` make runs.
#[derive(Drop)]
pub(crate) struct SourceRuns;

impl RunBytes for SourceRuns {
    ghost in_run = { is_run_byte };

    // Letters and digits come in any order, so the test has no branch for each.
    fn in_run(byte: u8) -> bool {
        let is_letter = byte.is_ascii_lowercase() | byte.is_ascii_uppercase();
        is_letter | byte.is_ascii_digit() | (byte == b'_') | (byte == b'.') | (byte == b'-')
    }

    ghost no_blank = { λ b run. Prim.grind (arith, nat_tests) };
}

pub(crate) type SourceTokens<'a> = Tokens<'a, SourceRuns>;

// The tokens of a line.
#[tactic(auto, unfolding(crate::specs::Tokens::tokens))]
pub(crate) fn line_tokens(line: &[u8]) -> SourceTokens<'_>
    requires { length line.now < 2 ^ 31 }
    ensures { result ≡ tokens 1 line.now }
{
    Tokens::new(without_comment(line), 1)
}

// The bytes before a comment.
fn without_comment(line: &[u8]) -> &[u8]
    ensures value { result.now ≡ before_comment line.now }
    ensures within { length result.now ≤ length line.now }
{
    let (code, _) = line.split_at(length_before(line, b'#'));
    code
}

// The numbers of a schedule, up to 1,000,000.
ghost use Rattle.std.specs.Prelude.{◌≤◌, IfSome};
ghost use Rattle.plan_types.specs.declared.limits.TheConstants.{MOST_STEPS};
ghost use Rattle.line_texts.specs.Prelude.{GivesSome, number_at};

use plan_types::MOST_STEPS;

// The number at the front of the bytes, and the bytes after it.
#[inline(always)]
pub(crate) fn number_at(bytes: &[u8]) -> Option<(u32, &[u8])>
    ensures value { GivesSome (λ x. (x.0, x.1.now)) result (number_at MOST_STEPS bytes.now) }
    ensures small { IfSome result (λ x. x.0 ≤ MOST_STEPS) }
{
    let (n, rest) = line_texts::number_at(bytes, u64::from(MOST_STEPS))?;
    Some((n as u32, rest))
}

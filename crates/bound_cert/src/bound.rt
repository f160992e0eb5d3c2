// The number of a certificate.
ghost use Rattle.std.specs.Prelude.{◌≡◌, ◌≤◌, min};
ghost use Rattle.plan_types.specs.declared.limits.TheConstants.{MOST_STEPS};
ghost use Rattle.binomials.specs.Prelude.{beta_before};
ghost use Rattle.bound_cert.specs.Verdicts.{FindsNumber};

use binomials::beta;

// N + k · N − β(c + 1, k − 1) for N steps and c slots, or None where that is negative. It takes no memory.
pub(crate) fn bound(steps: u32, slots: u32, k: u32) -> Option<u64>
    requires short { steps ≤ MOST_STEPS }
    requires slots { slots ≤ steps }
    ensures { FindsNumber steps slots k result }
{
    let most = u64::from(steps) * (u64::from(k) + 1);
    if slots == 0 {
        // β(1, k − 1) is k.
        return most.checked_sub(u64::from(k));
    }
    if k > 2 * steps {
        // β(c + 1, k − 1) is at least β(2, k − 1), which is k · (k + 1) / 2.
        return None;
    }
    // If it is more than all, the cap shows it.
    let less = beta_before(slots + 1, k, most + 1);
    most.checked_sub(less)
}

// β(c, k − 1), and the cap where that is less.
fn beta_before(c: u32, k: u32, cap: u64) -> u64
    requires { k ≤ 2000001 }
    ensures { result ≡ min (beta_before c k) cap }
{
    beta(c, i64::from(k) - 1, u128::from(cap)) as u64
}

// Binomial numbers up to a cap.
ghost use Rattle.std.specs.Prelude.{◌≡◌, ◌≤◌, ◌^◌, min, pos, ◌≤ℤ◌};
ghost use Rattle.binomials.specs.Binomials.{beta_of};

/// The binomial number β(c, r), or the cap where that is less. It takes no memory.
pub fn beta(c: u32, r: i64, cap: u128) -> u128
    requires repeats { r ≤ℤ pos 2000000 }
    requires cap { cap ≤ 2 ^ 90 }
    ensures { result ≡ min (beta_of c r) cap }
{
    if r < 0 {
        return 0;
    }
    let repeats = r as u64;
    let mut value = 1u128;
    for done in 0..repeats {
        if value >= cap {
            return cap;
        }
        let next = done as u128 + 1;
        value = value * (c as u128 + next) / next;
    }
    value.min(cap)
}

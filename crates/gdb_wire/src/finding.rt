// Finds a byte.
ghost use Rattle.std.specs.Prelude.{◌≡◌, ◌≢◌, ◌<◌, length, take, slice_index, MatchOption};
ghost use Rattle.std.specs.List.{All};

// The index of the first such byte.
pub(crate) fn first_index(bytes: &[u8], sought: u8) -> Option<usize>
    ensures { MatchOption result (All (λ b. b ≢ sought) bytes.now)
        (λ k. (k < length bytes.now) × All (λ b. b ≢ sought) (take k bytes.now) × (slice_index bytes.now k ≡ sought)) }
{
    bytes.iter().position(|byte| *byte == sought)
}

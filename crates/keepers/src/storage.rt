// What is seen of storage.
ghost use Rattle.std.specs.Prelude.{ℕ, Option};
ghost use Rattle.keepers.specs.Claims.{Images, Location};

/// The calls of each kind, including refused ones, and how often one failed. Each count is at most `u64::MAX`.
#[derive(Clone, Copy, PartialEq, Eq)]
pub struct CallCounts {
    pub puts: u64,
    pub gets: u64,
    pub frees: u64,
    pub faults: u64,
}

impl CallCounts {
    /// Nothing was called.
    pub(crate) const NONE: CallCounts = CallCounts {
        puts: 0,
        gets: 0,
        frees: 0,
        faults: 0,
    };
}

/// What is seen of slots of storage. Contracts take all of it as one, as `K.Storage`.
pub trait Storage {
    /// The images by their slots, for storage that claims to know them.
    ghost told: { Self → Option Images };
    /// The number of its slots.
    ghost slot_count: { Self → ℕ };
    /// The calls of each kind, including refused ones.
    ghost put_count: { Self → ℕ };

    ghost get_count: { Self → ℕ };

    ghost free_count: { Self → ℕ };

    ghost fault_count: { Self → ℕ };
    /// Images of at most this many bytes never need memory, if it has a room.
    ghost room_bytes: { Self → Option ℕ };
    /// Where its images are.
    ghost place: { Self → Location };
}

// A set of positions on one level, a bit for each.
ghost use Rattle.std.specs.Prelude.{◌≡◌, ◌+◌, ◌*◌, ◌/◌, ◌^◌, ◌<◌, ◌≤◌, true, false, IfOk, length};
ghost use Rattle.std.specs.Vec.{vec_len};
ghost use Rattle.std.specs.FinSet as set;
ghost use Rattle.plan_types.specs.declared.limits.TheConstants.{MOST_STEPS};
ghost use Rattle.schedule_rules.specs.Bits.{set_of};

use std::alloc::{AllocError, Global};

/// A set of positions from 0 to a greatest one, and how many there are.
#[derive(Drop)]
pub struct Positions {
    pub words: Vec<u64>,
    pub count: u32,
    ghost counted: { count ≡ set.len (set_of words.items) },
    ghost small: { vec_len words ≤ 2 ^ 20 },
}

impl Positions {
    /// The empty set, with room for the positions from 0 to `greatest`.
    pub fn new(alloc: Global, greatest: u32) -> Result<Positions, AllocError>
        requires { greatest ≤ MOST_STEPS }
        ensures empty { IfOk result (λ p. set_of p.words.items ≡ set.empty) }
        ensures room { IfOk result (λ p. length p.words.items ≡ greatest / 64 + 1) }
    {
        let words = vec![in alloc; 0u64; greatest as usize / 64 + 1]?;
        Ok(Positions { words, count: 0 })
    }

    /// Whether a position is in the set.
    #[inline]
    pub fn contains(&self, n: u32) -> bool
        ensures { result ≡ set.contains (set_of self.now.words.items) n }
    {
        match self.words.get(n as usize / 64) {
            Some(word) => *word >> (n % 64) & 1 == 1,
            None => false,
        }
    }

    /// Adds a position that isn't in the set.
    #[inline]
    pub fn insert(&mut self, n: u32)
        requires room { n / 64 < length self.old.words.items }
        requires new { set.contains (set_of self.old.words.items) n ≡ false }
        ensures set { set_of self.new.words.items ≡ set.insert (set_of self.old.words.items) n }
        ensures room { length self.new.words.items ≡ length self.old.words.items }
    {
        let word = &mut self.words[n as usize / 64];
        *word = *word | 1u64 << (n % 64);
        self.count += 1;
    }

    /// Removes a position that is in the set.
    #[inline]
    pub fn remove(&mut self, n: u32)
        requires { set.contains (set_of self.old.words.items) n ≡ true }
        ensures set { set_of self.new.words.items ≡ set.remove (set_of self.old.words.items) n }
        ensures room { length self.new.words.items ≡ length self.old.words.items }
    {
        let word = &mut self.words[n as usize / 64];
        *word = *word & !(1u64 << (n % 64));
        self.count -= 1;
    }
}

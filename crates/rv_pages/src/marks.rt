// Marks of the pages that were written.
ghost use Rattle.std.specs.Prelude.{◌≡◌, ◌≢◌, ℕ, ◌<◌, length, max};
ghost use Rattle.rv_pages.specs.Marks.{mark_of, IsNextMark};

// The bits of a word, and the words for as many marks as there may be pages.
const BITS: usize = 64;

const WORDS: usize = 64;

/// A bit for each index of a page.
#[derive(Clone, Copy)]
pub(crate) struct Marks {
    words: [u64; WORDS],
}

impl Marks {
    /// No index is marked.
    pub(crate) fn none() -> Marks
        ensures marks { (k : ℕ) → mark_of result.words k ≡ 0 }
        ensures size { length result.words ≡ 64 }
    {
        Marks { words: [0; WORDS] }
    }

    /// Sets the mark of an index.
    #[inline(always)]
    pub(crate) fn mark(&mut self, index: usize)
        requires index { index < 4096 }
        requires size { length self.old.words ≡ 64 }
        ensures marked { mark_of self.new.words index ≡ 1 }
        ensures others { (k : ℕ) → k ≢ index → mark_of self.new.words k ≡ mark_of self.old.words k }
        ensures size { length self.new.words ≡ 64 }
    {
        self.words[index / BITS] |= 1 << (index % BITS);
    }

    /// Clears the mark of an index.
    pub(crate) fn unmark(&mut self, index: usize)
        requires index { index < 4096 }
        requires size { length self.old.words ≡ 64 }
        ensures unmarked { mark_of self.new.words index ≡ 0 }
        ensures others { (k : ℕ) → k ≢ index → mark_of self.new.words k ≡ mark_of self.old.words k }
        ensures size { length self.new.words ≡ 64 }
    {
        self.words[index / BITS] &= !(1 << (index % BITS));
    }

    /// The marks that either has.
    pub(crate) fn union(&self, other: &Marks) -> Marks
        requires mine { length self.now.words ≡ 64 }
        requires theirs { length other.now.words ≡ 64 }
        ensures marks { (k : ℕ) → mark_of result.words k ≡ max (mark_of self.now.words k) (mark_of other.now.words k) }
        ensures size { length result.words ≡ 64 }
    {
        let mut both = [0; WORDS];
        for word in 0..WORDS {
            both[word] = self.words[word] | other.words[word];
        }
        Marks { words: both }
    }

    /// The first marked index from this one on.
    pub(crate) fn next(&self, from: usize) -> Option<usize>
        requires { length self.now.words ≡ 64 }
        ensures { IsNextMark self.now.words from result }
    {
        if from >= BITS * WORDS {
            return None;
        }
        let rest = self.words[from / BITS] >> (from % BITS);
        if rest != 0 {
            return Some(from + rest.trailing_zeros() as usize);
        }
        for word in from / BITS + 1..WORDS {
            if self.words[word] != 0 {
                return Some(word * BITS + self.words[word].trailing_zeros() as usize);
            }
        }
        None
    }
}

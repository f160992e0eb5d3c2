// Laws of the search. Each function does nothing; its contract is the law.
ghost use Rattle.std.specs.Prelude.{◌≡◌, ℕ, ◌+◌, ◌*◌, ◌<◌, ◌≤◌, Option};
ghost use Rattle.segment_sweep.specs.LastMatch.{Query, Found};
ghost use Rattle.segment_sweep.specs.MarkedRun.{segment_width, last_start};

/// Each query has one answer: the last place, or that there is none.
pub fn queries_have_one_answer()
    ensures some { (q : Query) → (a : Option ℕ) × Found q a }
    ensures one { (q : Query) (a b : Option ℕ) → Found q a → Found q b → a ≡ b }
{}

/// Segments have the least width with which they reach past state `count`. The last one begins no later than this
/// state, and has it.
pub fn segments_reach_past_the_last_state()
    ensures reach { (count workers : ℕ) → 1 ≤ workers → count < segment_width count workers * workers }
    ensures least { (count workers width : ℕ) → count < width * workers → segment_width count workers ≤ width }
    ensures within { (count workers : ℕ) → last_start count workers ≤ count }
    ensures last { (count workers : ℕ) → count < last_start count workers + segment_width count workers }
{}

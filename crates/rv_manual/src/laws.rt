// The manual's listing and the step table of the machine are equal. Each function does nothing; its contract is the
// law.
ghost use Rattle.std.specs.Prelude.{◌≡◌, ℕ, ◌^◌, ◌<◌, ◌≤◌, List, is_some, count_by};
ghost use Rattle.rv_decode.specs.Prelude.{decoded};
ghost use Rattle.input_journal.specs.Prelude.{IsRecorded};
ghost use Rattle.rv_machine.specs.Prelude.{MachineState, IsMachineState, state_number, next};
ghost use Rattle.rv_manual.specs.Formats.{takes};
ghost use Rattle.rv_manual.specs.Listing.{listing};
ghost use Rattle.rv_manual.specs.NextState.{is_listed, next_by_manual, state_by_manual};

/// The listing has an instruction for a word exactly if the machine has one.
pub fn words_are_those_of_the_manual()
    ensures { (w : ℕ) → w < 2 ^ 32 → is_listed w ≡ is_some (decoded w) }
{}

/// No two rows of the listing match one word, so their order doesn't matter.
pub fn rows_are_apart()
    ensures { (w : ℕ) → w < 2 ^ 32 → count_by (takes w) listing ≤ 1 }
{
    rv_decode::laws::rows_are_apart();
}

/// The next state of any machine state is the one that the listing gives, for every word at pc.
pub fn steps_are_those_of_the_manual()
    ensures { (s : MachineState) (journal : List (List ℕ)) → IsMachineState s → next s journal ≡ next_by_manual s journal }
{}

/// So each state of a run is the one that the listing gives.
pub fn runs_are_those_of_the_manual()
    ensures { (first : MachineState) (journal : List (List ℕ)) (n : ℕ) → IsMachineState first → IsRecorded journal →
        state_number first journal n ≡ state_by_manual first journal n }
{}

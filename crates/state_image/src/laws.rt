// Laws of images. Each function does nothing; its contract is the law.
ghost use Rattle.std.specs.Prelude.{◌≡◌, ℕ, List};
ghost use Rattle.rv_pages.specs.Prelude.{page_numbers};
ghost use Rattle.input_journal.specs.Prelude.{IsRecorded};
ghost use Rattle.rv_machine.specs.Prelude.{MachineState, IsMachineState, state_number};
ghost use Rattle.state_image.specs.Image.{image};

/// Two machine states with the same mapped pages and the same image are equal.
pub fn images_tell_states()
    ensures { (s t : MachineState) → IsMachineState s → IsMachineState t → page_numbers s.memory ≡ page_numbers t.memory → image s ≡ image t → s ≡ t }
{}

/// Two states of one run with the same image are equal. The run has recorded input and starts in a machine state.
pub fn images_tell_states_of_a_run()
    ensures { (first : MachineState) (journal : List (List ℕ)) (m n : ℕ) → IsMachineState first → IsRecorded journal
        → image (state_number first journal m) ≡ image (state_number first journal n)
        → state_number first journal m ≡ state_number first journal n }
{}

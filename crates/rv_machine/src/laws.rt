// Laws of products and quotients, and of the states of a run. Each function does nothing; its contract is the law.
ghost use Rattle.std.specs.Prelude.{◌≡◌, ℕ, ◌+◌, ◌%◌, ◌^◌, ◌<◌, List, length};
ghost use Rattle.input_journal.specs.Prelude.{IsRecorded};
ghost use Rattle.rv_machine.specs.MachineState.{MachineState, IsMachineState};
ghost use Rattle.rv_machine.specs.ProductLaws.{AreProducts, AreQuotients};
ghost use Rattle.rv_machine.specs.Output.{outputs};
ghost use Rattle.rv_machine.specs.States.{state_number};
ghost use Rattle.rv_machine.specs.StepChanges.{IsStep};
ghost use Rattle.rv_machine.specs.StepTable.{next, register_changed, written};

/// The upper and lower words of a product make up the product of whole numbers modulo 2 ^ 64. This holds for signed and
/// unsigned readings. The lower word is the same in each reading.
pub fn products_have_two_words()
    ensures { (a b : ℕ) → a < 2 ^ 32 → b < 2 ^ 32 → AreProducts a b }
{}

/// A quotient and a remainder, signed or unsigned, are those of one division of whole numbers. Division by zero and
/// overflow give the values in the manual.
pub fn quotients_leave_remainders()
    ensures { (a b : ℕ) → a < 2 ^ 32 → b < 2 ^ 32 → AreQuotients a b }
{}

/// From a machine state, steps with recorded input lead to machine states only.
pub fn runs_stay_in_machine_states()
    ensures { (first : MachineState) (journal : List (List ℕ)) (n : ℕ) → IsMachineState first → IsRecorded journal →
        IsMachineState (state_number first journal n) }
{}

/// A step changes one register and the bytes at the addresses that it writes, which are all mapped. It unmaps nothing.
/// It writes at most four bytes more than it reads of the recorded input.
pub fn steps_change_what_they_name()
    ensures { (s : MachineState) (journal : List (List ℕ)) → IsStep s (next s journal) (register_changed s) (written s journal) journal }
{}

/// A run counts the bytes that it writes, modulo 2 ^ 64.
pub fn runs_count_their_output()
    ensures { (first : MachineState) (journal : List (List ℕ)) (n : ℕ) → first.written < 2 ^ 64 →
        (state_number first journal n).written ≡ (first.written + length (outputs first journal n)) % 2 ^ 64 }
{}

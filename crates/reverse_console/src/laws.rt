// Laws of the marks and of scripts. Each function does nothing; its contract is the law.
ghost use Rattle.std.specs.Prelude.{◌≡◌, ◌⊎◌, ◌≤◌, ℕ, max, List, Option};
ghost use Rattle.level_book.specs.Prelude.{BookCosts, slots_of, total_room};
ghost use Rattle.input_journal.specs.Prelude.{IsRecorded};
ghost use Rattle.rv_machine.specs.Prelude.{MachineState, IsMachineState, state_number};
ghost use Rattle.reverse_console.specs.declared.order.Order.{Order as AnOrder};
ghost use Rattle.reverse_console.specs.Answer.{IsAnswer};
ghost use Rattle.reverse_console.specs.Collision.{Collides, AnswerCollides, TextCollides};
ghost use Rattle.reverse_console.specs.ScriptAnswers.{IsTextOf, answer_text};
ghost use Rattle.reverse_console.specs.StateSources.{Source, ComesFrom, IsAnswerSeen};
ghost use Rattle.reverse_console.specs.MarksOfRun.{KeepsMarks};
ghost use Rattle.reverse_console.specs.Marks.{MarkPlan, capacity};
ghost use Rattle.reverse_console.specs.MarkLaws.{IsLeastStride, AreBelow, IsGreatestMark, HaveLevels};
ghost use Rattle.reverse_console.specs.ScriptLaws.{OneScript, OneFault, ScriptsHaveNoFault, ScriptOrFault};

use revolve_gen::laws::books_are_roomy;

/// The stride is the least number of steps, at least 1, with which the available marks span the run.
pub fn the_stride_is_the_least()
    ensures { (p : MarkPlan) → 1 ≤ capacity p → IsLeastStride p }
{}

/// The marks are those whose states are below the number of steps. State 0 is one even without steps.
pub fn the_marks_stand_below_the_steps()
    ensures { (p : MarkPlan) → AreBelow p }
{}

/// The mark of a state is the last whose state isn't above it.
pub fn the_mark_is_the_greatest()
    ensures { (p : MarkPlan) → IsGreatestMark p }
{}

/// If the levels of a book have room for a mark, each mark is on one of them.
pub fn the_marks_have_levels()
    ensures { (book : BookCosts) (count : ℕ) → 1 ≤ total_room book (max count 1) → HaveLevels (record { slots = slots_of book; count = count }) }
{
    books_are_roomy();
}

/// Bytes mean at most one list of orders.
pub fn scripts_give_one_list()
    ensures { OneScript }
{}

/// Bytes have at most one first fault, and those of a script have none.
pub fn script_faults_are_unique()
    ensures one { OneFault }
    ensures none { ScriptsHaveNoFault }
{}

/// All bytes are a script or have a first fault.
pub fn bytes_are_a_script_or_have_a_fault()
    ensures { ScriptOrFault }
{}

/// Over any keepers, let the digests of a run's marks be kept. A state from a mark is the run's with its number. An
/// answer is that of an index into the run's states. Its text is the line of the run's state. Otherwise a collision
/// came back for a mark: bytes other than its image, with the same SHA-256.
pub fn marks_tell_the_run_or_collide()
    ensures state { (first : MachineState) (from : Source) → IsMachineState first → IsRecorded from.journal → KeepsMarks first from →
        (i n : ℕ) (s : MachineState) (came : ComesFrom from i n s) → (s ≡ state_number first from.journal n) ⊎ Collides first from i n s came }
    ensures answer { (first : MachineState) (from : Source) → IsMachineState first → IsRecorded from.journal → KeepsMarks first from →
        (place : ℕ) (order : AnOrder) (answer : Option ℕ) (seen : IsAnswerSeen from place order answer) →
        IsAnswer first from.journal from.plan.count place order answer ⊎ AnswerCollides first from place order answer seen }
    ensures text { (first : MachineState) (from : Source) → IsMachineState first → IsRecorded from.journal → KeepsMarks first from →
        (answer : Option ℕ) (text : List ℕ) (says : IsTextOf from answer text) →
        (text ≡ answer_text first from.journal answer) ⊎ TextCollides first from answer text says }
{}

// Laws of performed lists. Each function does nothing; its contract is the law.
ghost use Rattle.std.specs.Prelude.{◌≡◌, ◌⊎◌, ℕ, ◌*◌, ◌≤◌, List, Option, Contains};
ghost use Rattle.plan_types.specs.declared.action.Action.{Action};
ghost use Rattle.level_book.specs.declared.book.Slots.{Slots};
ghost use Rattle.level_book.specs.Prelude.{Configuration, start, Leads, Valid};
ghost use Rattle.input_journal.specs.Prelude.{IsRecorded};
ghost use Rattle.rv_machine.specs.Prelude.{MachineState, IsMachineState, state_number};
ghost use Rattle.keepers.specs.Prelude.{Images};
ghost use Rattle.reverse_runner.specs.Prelude.{Holdings, StandsByDigests, handed, holdings_of, begun, unit_states};
ghost use Rattle.reverse_queries.specs.Collision.{CollidesOn};
ghost use Rattle.reverse_queries.specs.Queries.{WritesIn, ChangesIn, WritesWord, ChangesWord, IsLast, front_to, up_to};
ghost use Rattle.reverse_queries.specs.HoldingsTrace.{GoesThrough};

/// Over any keepers, let a list be performed from the start of a run. Each state given is the run's with its number,
/// and the held images are right by their digests. Otherwise an action fetched a collision: an image other than the
/// run's state has, with the same SHA-256.
pub fn lists_hand_out_the_run_or_collide()
    ensures { (first : MachineState) (journal : List (List ℕ)) (unit steps : ℕ) (slots : List Slots) (list : List Action) (c : Configuration)
        (told : ℕ → Option Images) (last : Holdings) (states : ℕ → MachineState) →
        IsMachineState first → IsRecorded journal → Leads steps slots (start steps slots) list c →
        (through : GoesThrough unit steps journal list (holdings_of (begun first journal unit steps slots) told) last states) →
        (((n : ℕ) → Contains (handed unit steps list) n → states n ≡ state_number first journal n) × StandsByDigests first journal unit c last)
        ⊎ CollidesOn (unit_states first journal unit) list through.held }
{}

/// Over any keepers, let a valid list be performed as far as an answer needs. The state at the wanted place is the
/// run's. The last step that writes or changes a word, by the given states, is that of the run. Otherwise an action
/// fetched a collision.
pub fn answers_are_of_the_run_or_collide()
    ensures state { (first : MachineState) (journal : List (List ℕ)) (unit steps : ℕ) (slots : List Slots) (list : List Action)
        (told : ℕ → Option Images) (last : Holdings) (states : ℕ → MachineState) →
        IsMachineState first → IsRecorded journal → Valid steps slots list → (place : ℕ) → place ≤ unit * steps →
        (through : GoesThrough unit steps journal (front_to unit steps place list) (holdings_of (begun first journal unit steps slots) told) last states) →
        (states place ≡ state_number first journal place) ⊎ CollidesOn (unit_states first journal unit) (front_to unit steps place list) through.held }
    ensures last_write { (first : MachineState) (journal : List (List ℕ)) (unit steps : ℕ) (slots : List Slots) (list : List Action)
        (told : ℕ → Option Images) (last : Holdings) (states : ℕ → MachineState) →
        IsMachineState first → IsRecorded journal → Valid steps slots list → (word : ℕ) (answer : Option ℕ) →
        (through : GoesThrough unit steps journal (up_to unit steps answer list) (holdings_of (begun first journal unit steps slots) told) last states) →
        IsLast (WritesIn states journal word) (unit * steps) answer →
        IsLast (WritesWord first journal word) (unit * steps) answer
        ⊎ CollidesOn (unit_states first journal unit) (up_to unit steps answer list) through.held }
    ensures last_change { (first : MachineState) (journal : List (List ℕ)) (unit steps : ℕ) (slots : List Slots) (list : List Action)
        (told : ℕ → Option Images) (last : Holdings) (states : ℕ → MachineState) →
        IsMachineState first → IsRecorded journal → Valid steps slots list → (word : ℕ) (answer : Option ℕ) →
        (through : GoesThrough unit steps journal (up_to unit steps answer list) (holdings_of (begun first journal unit steps slots) told) last states) →
        IsLast (ChangesIn states word) (unit * steps) answer →
        IsLast (ChangesWord first journal word) (unit * steps) answer
        ⊎ CollidesOn (unit_states first journal unit) (up_to unit steps answer list) through.held }
{}

// Laws of lists and of levels. Each function does nothing; its contract is the law.
ghost use Rattle.std.specs.Prelude.{◌≡◌, ◌⊎◌, ℕ, ◌*◌, ◌<◌, true, List, length, Option, Some};
ghost use Rattle.std.specs.FinSet as set;
ghost use Rattle.plan_types.specs.declared.action.Action.{Action};
ghost use Rattle.level_book.specs.declared.book.Slots.{Slots};
ghost use Rattle.level_book.specs.Prelude.{Configuration, held_on, is_write, Goes, Valid};
ghost use Rattle.schedule_rules.specs.Prelude.{IsSound};
ghost use Rattle.input_journal.specs.Prelude.{IsRecorded};
ghost use Rattle.rv_machine.specs.Prelude.{MachineState, IsMachineState};
ghost use Rattle.keepers.specs.Prelude.{Images};
ghost use Rattle.image_store.specs.Prelude.{IsToldAnd};
ghost use Rattle.reverse_runner.specs.Prelude.{Holdings, Acts, StandsByDigests, Collides, HoldingsStandAt, AreAlone, IsLaidOut, HoldsJust, is_release, Spares, MayLeave, HoldsBesides, HoldsAllBut, pair_read, unit_states, handed, countdown};

/// A valid list gives the visitor all states from the last to state 0, each once.
pub fn valid_lists_hand_out_all()
    ensures { (unit steps : ℕ) (slots : List Slots) (list : List Action) → Valid steps slots list → handed unit steps list ≡ countdown (unit * steps) }
{}

/// If the levels of a session hold what its configuration names, they do so after every action. If they are at a run's
/// configuration, they are at the action's next one after it. If no keeper has other images than these, none has any
/// afterwards.
pub fn levels_follow_the_actions()
    ensures laid_out { (journal : List (List ℕ)) (unit steps : ℕ) (slots : List Slots) (c : Configuration) (a : Action) (d : Configuration)
        (old new : Holdings) →
        IsSound steps slots c → Goes steps slots c a d → Acts unit journal a old new → IsLaidOut steps slots c old.levels.store →
        IsLaidOut steps slots d new.levels.store }
    ensures stands { (first : MachineState) (journal : List (List ℕ)) (unit steps : ℕ) (slots : List Slots) (c : Configuration) (a : Action)
        (d : Configuration) (old new : Holdings) →
        IsMachineState first → IsRecorded journal → IsSound steps slots c → Goes steps slots c a d → Acts unit journal a old new →
        IsLaidOut steps slots c old.levels.store →
        HoldingsStandAt first journal unit c old → HoldingsStandAt first journal unit d new }
    ensures alone { (journal : List (List ℕ)) (unit steps : ℕ) (slots : List Slots) (c : Configuration) (a : Action) (d : Configuration) (old new : Holdings) →
        IsSound steps slots c → Goes steps slots c a d → Acts unit journal a old new → IsLaidOut steps slots c old.levels.store →
        AreAlone old.levels → AreAlone new.levels }
{}

/// Over any keepers, let a session be at a run's configuration by the digests that its levels keep. After an action it
/// is at the action's next configuration. Otherwise the action fetched a collision: an image other than the run's state
/// has, with the same SHA-256.
pub fn digests_follow_the_actions_or_collide()
    ensures { (first : MachineState) (journal : List (List ℕ)) (unit steps : ℕ) (slots : List Slots) (c : Configuration) (a : Action) (d : Configuration)
        (old new : Holdings) →
        IsMachineState first → IsRecorded journal → IsSound steps slots c → Goes steps slots c a d → Acts unit journal a old new →
        IsLaidOut steps slots c old.levels.store →
        StandsByDigests first journal unit c old → StandsByDigests first journal unit d new ⊎ Collides (unit_states first journal unit) a new.work }
{}

/// If a session's levels are right and no keeper has other images, each keeper holds exactly its level's images.
pub fn levels_hold_just_their_images()
    ensures { (first : MachineState) (journal : List (List ℕ)) (unit : ℕ) (c : Configuration) (s : Holdings) →
        HoldingsStandAt first journal unit c s → AreAlone s.levels →
        (k : ℕ) → k < length s.levels.store → IsToldAnd (s.levels.told k) (HoldsJust (unit_states first journal unit) (held_on c k)) }
{}

/// If they are right and an action is refused, each keeper still holds its level's images. On a level to which the
/// action puts an image, one more slot may hold anything. An image that the action releases may be gone.
pub fn refused_actions_leave_their_images()
    ensures spared { (first : MachineState) (journal : List (List ℕ)) (unit : ℕ) (c : Configuration) (a : Action) (s : Holdings) (told : ℕ → Option Images) →
        HoldingsStandAt first journal unit c s → AreAlone s.levels → MayLeave a s.levels told →
        (k : ℕ) → k < length s.levels.store → Spares a k → IsToldAnd (told k) (HoldsJust (unit_states first journal unit) (held_on c k)) }
    ensures put_to { (first : MachineState) (journal : List (List ℕ)) (unit : ℕ) (c : Configuration) (a : Action) (s : Holdings) (told : ℕ → Option Images) →
        HoldingsStandAt first journal unit c s → AreAlone s.levels → MayLeave a s.levels told →
        (k : ℕ) → k < length s.levels.store → is_write k a ≡ true → IsToldAnd (told k) (HoldsBesides (unit_states first journal unit) (held_on c k)) }
    ensures released { (first : MachineState) (journal : List (List ℕ)) (unit : ℕ) (c : Configuration) (a : Action) (s : Holdings) (told : ℕ → Option Images) →
        HoldingsStandAt first journal unit c s → AreAlone s.levels → MayLeave a s.levels told →
        (k n : ℕ) → k < length s.levels.store → is_release k a ≡ true → pair_read a ≡ Some (n, k) → set.contains (held_on c k) n ≡ true →
        IsToldAnd (told k) (HoldsAllBut (unit_states first journal unit) (held_on c k) n) }
{}

// Setting marks, and reaching a state from its mark.
ghost use Rattle.std.specs.Prelude.{◌≡◌, ◌≢◌, ◌+◌, ◌<◌, ◌≤◌, [], ◌∷◌, Ok, Err, OnOk, IfErr};
ghost use Rattle.rv_machine.specs.Prelude.{MachineState, state_number};
ghost use Rattle.reverse_runner.specs.Prelude.{VisitorAfter, told_by, calls_to, SamePages, slot_counts};
ghost use Rattle.reverse_console.specs.Costs.{PutsMarks, way};
ghost use Rattle.reverse_console.specs.Marks.{stride, marked, mark_count, mark_of};
ghost use Rattle.reverse_console.specs.MarkInvariant.{AreSet, AreKept, StandAt, PutsMark, SetsMark, MaySet, LeavesDesk, IsReady, source, Gets};
ghost use Rattle.reverse_console.specs.Refusals.{IsNotGot};
ghost use Rattle.reverse_console.specs.StateSources.{ComesFrom};

use crate::marks::Marks;
use input_journal::Journal;
use keepers::Keeper;
use reverse_runner::{Desk, RunFault, Visitor};
use rv_machine::Steps;
use std::sync::ledger::Ledger;

// Puts the image of the state in work on the level of a mark.
fn set_mark<K: Keeper>(
    desk: &mut Desk,
    marks: &Marks,
    mark: u32,
    keepers: &mut Vec<K>,
) -> Result<(), RunFault>
    requires known { mark < mark_count marks.now }
    requires may_set { MaySet marks.now mark desk.old (slot_counts K.Storage keepers.old.items) }
    ensures sets { SetsMark marks.now mark desk.old.work result desk.old.store desk.new.store (told_by K.Storage keepers.old.items)
        (told_by K.Storage keepers.new.items) }
    ensures work { desk.new.work ≡ desk.old.work }
    ensures puts { PutsMark marks.now mark result (calls_to K.Storage keepers.old.items) (calls_to K.Storage keepers.new.items) }
    ensures leaves { LeavesDesk K.Storage marks.now result desk.old desk.new keepers.old.items keepers.new.items }
{
    marks.are_roomy();
    marks.have_room();
    let digest = desk.encode();
    desk.keep(keepers, marks.level(mark), marks.marked(mark), &digest)
}

// Sets the marks, from the first state on.
pub(crate) fn set_marks<K: Keeper, L: Ledger>(
    desk: &mut Desk,
    marks: &Marks,
    journal: &Journal,
    keepers: &mut Vec<K>,
    steps: &mut Steps<L>,
) -> Result<(), RunFault>
    requires may_set { MaySet marks.now 0 desk.old (slot_counts K.Storage keepers.old.items) }
    ensures set { OnOk result (AreSet marks.now (mark_count marks.now) desk.new.store) }
    ensures stand { StandAt desk.old.work journal.now marks.now 0 desk.old.store (told_by K.Storage keepers.old.items) →
        OnOk result (StandAt desk.old.work journal.now marks.now (mark_count marks.now) desk.new.store (told_by K.Storage keepers.new.items)) }
    ensures kept { OnOk result (AreKept desk.old.work journal.now marks.now (mark_count marks.now) desk.new.store) }
    ensures machine { SamePages desk.new.work desk.old.work }
    ensures puts { PutsMarks marks.now result steps.old steps.new (calls_to K.Storage keepers.old.items) (calls_to K.Storage keepers.new.items) }
    ensures leaves { LeavesDesk K.Storage marks.now result desk.old desk.new keepers.old.items keepers.new.items }
{
    marks.have_room();
    set_mark(desk, marks, 0, keepers)?;
    for mark in 1..marks.number() {
        desk.advance(journal, marks.stride(), steps);
        set_mark(desk, marks, mark, keepers)?;
    }
    Ok(())
}

// Makes the state in work that of a mark.
pub(crate) fn recall<K: Keeper>(
    desk: &mut Desk,
    marks: &Marks,
    journal: &Journal,
    mark: u32,
    keepers: &mut Vec<K>,
) -> Result<(), RunFault>
    requires known { mark < mark_count marks.now }
    requires ready { IsReady marks.now desk.old (slot_counts K.Storage keepers.old.items) }
    ensures comes { OnOk result (ComesFrom (source marks.now journal.now desk.old (told_by K.Storage keepers.old.items)) mark (marked marks.now mark)
        desk.new.work) }
    ensures gets { Gets K.Storage marks.now journal.now (mark ∷ []) result
        desk.old desk.new keepers.old.items keepers.new.items }
    ensures not_got { IfErr result (IsNotGot (source marks.now journal.now desk.old (told_by K.Storage keepers.old.items)) mark) }
{
    marks.are_roomy();
    marks.have_room();
    journal.is_recorded();
    let level = marks.level(mark);
    let digest = desk.fetch(keepers, level, marks.marked(mark))?;
    desk.decode(level, &digest)
}

// Goes to a state from its mark, and gives it to the visitor.
pub(crate) fn go<K: Keeper, V: Visitor, L: Ledger>(
    desk: &mut Desk,
    marks: &Marks,
    journal: &Journal,
    n: u32,
    keepers: &mut Vec<K>,
    visitor: &mut V,
    steps: &mut Steps<L>,
) -> Result<(), RunFault>
    requires within { n ≤ marks.now.count }
    requires ready { IsReady marks.now desk.old (slot_counts K.Storage keepers.old.items) }
    ensures got { OnOk result ((s : MachineState)
        × (ComesFrom (source marks.now journal.now desk.old (told_by K.Storage keepers.old.items)) (mark_of marks.now n) n s
        × V.got visitor.old n s journal.now visitor.new)) }
    ensures missed { result ≡ Err RunFault.Visitor → (s : MachineState)
        × (ComesFrom (source marks.now journal.now desk.old (told_by K.Storage keepers.old.items)) (mark_of marks.now n) n s
        × V.missed visitor.old n s journal.now visitor.new) }
    ensures gets { Gets K.Storage marks.now journal.now
        (mark_of marks.now n ∷ []) result desk.old desk.new keepers.old.items keepers.new.items }
    ensures not_got { result ≢ Err RunFault.Visitor →
        IfErr result (IsNotGot (source marks.now journal.now desk.old (told_by K.Storage keepers.old.items)) (mark_of marks.now n)) }
    ensures counted { OnOk result (steps.new ≡ steps.old + way marks.now n n) }
    ensures counted_unseen { result ≡ Err RunFault.Visitor → steps.new ≡ steps.old + way marks.now n n }
    ensures idle { result ≢ Ok tt → result ≢ Err RunFault.Visitor → steps.new ≡ steps.old }
    ensures seen { VisitorAfter V.Visitor result visitor.old visitor.new }
{
    marks.have_room();
    let mark = marks.of(n);
    recall(desk, marks, journal, mark, keepers)?;
    desk.advance(journal, n - marks.marked(mark), steps);
    match visitor.state(n, &desk.work, journal) {
        Ok(()) => Ok(()),
        Err(_) => Err(RunFault::Visitor),
    }
}

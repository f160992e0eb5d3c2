// Searching a run for a state from its marks.
ghost use Rattle.std.specs.Prelude.{◌≡◌, ◌+◌, ◌-◌, ◌<◌, ◌≤◌, ◌↔◌, unwrap_or, IfOk, IsTrue};
ghost use Rattle.rv_machine.specs.Prelude.{state_number, next};
ghost use Rattle.reverse_runner.specs.Prelude.{told_by, SamePages, slot_counts};
ghost use Rattle.reverse_queries.specs.Prelude.{IsLast};
ghost use Rattle.reverse_console.specs.Answer.{IsFirst};
ghost use Rattle.reverse_console.specs.Costs.{looking_back, looking_on, BreaksBack, BreaksOn};
ghost use Rattle.reverse_console.specs.MarkInvariant.{IsReady, source, Looks};
ghost use Rattle.reverse_console.specs.SearchTargets.{Meets, IsSought, MeetsFrom};
ghost use Rattle.reverse_console.specs.StateSources.{HasPc, IsLastSeen, IsFirstSeen};

use crate::marking::recall;
use crate::marks::Marks;
use crate::order::Sought;
use input_journal::Journal;
use keepers::Keeper;
use reverse_queries::{bytes_of_word, some_differ};
use reverse_runner::{Desk, KnownState, RunFault};
use rv_machine::{Steps, wrote};
use std::sync::ledger::Ledger;

// Takes a step, and returns whether the state before it has the wanted property.
fn step_seeking<L: Ledger>(
    work: &mut KnownState,
    journal: &Journal,
    sought: &Sought,
    steps: &mut Steps<L>,
) -> bool
    requires { IsSought sought.now }
    ensures meets { IsTrue result ↔ Meets sought.now journal.now work.old }
    ensures next { work.new ≡ next work.old journal.now }
    ensures mapped { SamePages work.new work.old }
    ensures counted { steps.new ≡ steps.old + 1 }
{
    match *sought {
        Sought::Pc(address) => {
            let here = work.state().pc == address;
            work.advance(journal, 1, steps);
            here
        }
        Sought::Change(word) => {
            let before = bytes_of_word(work.state(), word);
            work.advance(journal, 1, steps);
            some_differ(&before, &bytes_of_word(work.state(), word))
        }
        Sought::Write(word) => {
            let writes = wrote(work.state(), journal, word);
            work.advance(journal, 1, steps);
            writes
        }
    }
}

// The last state with the wanted property from one number up to below another. The state in work has the first number
// before, and the other one after it.
fn seek_last<L: Ledger>(
    work: &mut KnownState,
    journal: &Journal,
    sought: &Sought,
    from: u32,
    to: u32,
    steps: &mut Steps<L>,
) -> Option<u32>
    requires order { from ≤ to }
    requires sought { IsSought sought.now }
    ensures last { IsLast (MeetsFrom sought.now journal.now work.old from) to result }
    ensures mapped { SamePages work.new work.old }
    ensures counted { steps.new ≡ steps.old + (to - from) }
{
    let mut last = None;
    for n in from..to {
        if step_seeking(work, journal, sought, steps) {
            last = Some(n);
        }
    }
    last
}

// The first state above one number, up to another, whose next instruction is at an address. The state in work has the
// first number before.
fn seek_first<L: Ledger>(
    work: &mut KnownState,
    journal: &Journal,
    address: u32,
    from: u32,
    to: u32,
    steps: &mut Steps<L>,
) -> Option<u32>
    requires order { from ≤ to }
    ensures first { IsFirst (λ n. HasPc address (state_number work.old journal.now (n - from))) from to result }
    ensures mapped { SamePages work.new work.old }
    ensures counted { steps.new + from ≡ steps.old + unwrap_or result to }
{
    for n in from..to {
        work.advance(journal, 1, steps);
        if work.state().pc == address {
            return Some(n + 1);
        }
    }
    None
}

// The last state below a place with the wanted property.
pub(crate) fn last_before<K: Keeper, L: Ledger>(
    desk: &mut Desk,
    marks: &Marks,
    journal: &Journal,
    sought: &Sought,
    place: u32,
    keepers: &mut Vec<K>,
    steps: &mut Steps<L>,
) -> Result<Option<u32>, RunFault>
    requires within { place ≤ marks.now.count }
    requires sought { IsSought sought.now }
    requires ready { IsReady marks.now desk.old (slot_counts K.Storage keepers.old.items) }
    ensures seen { IfOk result (IsLastSeen (source marks.now journal.now desk.old (told_by K.Storage keepers.old.items)) (Meets sought.now journal.now) place) }
    ensures looks { Looks K.Storage marks.now journal.now
        (looking_back marks.now place) (BreaksBack marks.now place) result desk.old desk.new keepers.old.items keepers.new.items steps.old steps.new }
{
    marks.have_room();
    let mut end = place;
    let mut left = marks.below(place);
    while left > 0 {
        left -= 1;
        let from = marks.marked(left);
        recall(desk, marks, journal, left, keepers)?;
        let last = seek_last(&mut desk.work, journal, sought, from, end, steps);
        if last.is_some() {
            return Ok(last);
        }
        end = from;
    }
    Ok(None)
}

// The first state above a place, which isn't the last, whose next instruction is at an address.
pub(crate) fn first_after<K: Keeper, L: Ledger>(
    desk: &mut Desk,
    marks: &Marks,
    journal: &Journal,
    address: u32,
    place: u32,
    keepers: &mut Vec<K>,
    steps: &mut Steps<L>,
) -> Result<Option<u32>, RunFault>
    requires before_end { place < marks.now.count }
    requires ready { IsReady marks.now desk.old (slot_counts K.Storage keepers.old.items) }
    ensures seen { IfOk result (IsFirstSeen (source marks.now journal.now desk.old (told_by K.Storage keepers.old.items)) (HasPc address) place marks.now.count) }
    ensures looks { Looks K.Storage marks.now journal.now
        (looking_on marks.now place) (BreaksOn marks.now place) result desk.old desk.new keepers.old.items keepers.new.items steps.old steps.new }
{
    marks.have_room();
    let mark = marks.of(place);
    recall(desk, marks, journal, mark, keepers)?;
    desk.advance(journal, place - marks.marked(mark), steps);
    Ok(seek_first(
        &mut desk.work,
        journal,
        address,
        place,
        marks.steps(),
        steps,
    ))
}

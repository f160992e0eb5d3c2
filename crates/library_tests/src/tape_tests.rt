// Which digests are known of the states that a session hands out.
ghost use Rattle.std.specs.Prelude.{◌≡◌, ◌<◌, ℕ, List};
ghost use Rattle.std.specs.List.{AllByRecursion};
ghost use Rattle.rv_machine.specs.Prelude.{IsBlankOf};
ghost use Rattle.unit_digests.specs.Prelude.{HasPages};
ghost use Rattle.reverse_runner.specs.Prelude.{HaveRoom, slot_counts};

use crate::sessions::have_room;
use crate::states::first_state;
use crate::undo_tests::{COUNTING, JOURNAL};
use input_journal::{Journal, read_journal};
use keepers::{Keeper, MemoryKeeper};
use level_book::Book;
use plan_types::{Action, Keep};
use reverse_runner::{KnownState, Session, VisitFault, Visitor};
use rv_machine::Steps;
use std::alloc::Global;
use std::marker::Brand;
use std::process::Abort;
use std::sync::ledger::{Blank, Ledger};
use std::test::Fail;
use std::thread::Threads;
use unit_digests::Digesters;

// It reverses one step.
const FORTH: [Action; 2] = [
    Action::Forward {
        from: 0,
        to: 1,
        keep: Keep::Tape,
    },
    Action::EndForward,
];

const BACK: [Action; 2] = [Action::Reverse { from: 1, to: 0 }, Action::EndReverse];

// Counts the states that it gets, and those of which the digest is known.
#[derive(Drop)]
struct Counts {
    states: u32,
    known: u32,
}

impl Visitor for Counts {
    ghost got = { λ old n s journal new. Unit {0} };

    ghost missed = { λ old n s journal new. ⊥ };

    ghost fault_count = { λ counts. 0 };

    fn state(&mut self, _n: u32, state: &KnownState, _journal: &Journal) -> Result<(), VisitFault> {
        self.states = self.states.saturating_add(1);
        if state.known().is_some() {
            self.known = self.known.saturating_add(1);
        }
        Ok(())
    }
}

// Performs an action if it breaks no rule, and says whether it did.
fn goes<K: Keeper, L: Ledger>(
    session: &mut Session,
    action: &Action,
    keepers: &mut Vec<K>,
    counts: &mut Counts,
    steps: &mut Steps<L>,
) -> bool
    requires { HaveRoom session.old.situation.steps session.old.situation.slots (slot_counts K.Storage keepers.old.items) }
    ensures room { HaveRoom session.new.situation.steps session.new.situation.slots (slot_counts K.Storage keepers.new.items) }
    ensures pages { (digesters : List (List ℕ)) → AllByRecursion (HasPages session.old.work) digesters →
        AllByRecursion (HasPages session.new.work) digesters }
{
    match session.config().judge(action) {
        Ok(()) => session.perform(action, keepers, counts, steps).is_ok(),
        Err(_) => false,
    }
}

// Performs two actions if they break no rule, and says whether it did.
fn both_go<K: Keeper, L: Ledger>(
    session: &mut Session,
    actions: &[Action; 2],
    keepers: &mut Vec<K>,
    counts: &mut Counts,
    steps: &mut Steps<L>,
) -> bool
    requires { HaveRoom session.old.situation.steps session.old.situation.slots (slot_counts K.Storage keepers.old.items) }
    ensures room { HaveRoom session.new.situation.steps session.new.situation.slots (slot_counts K.Storage keepers.new.items) }
    ensures pages { (digesters : List (List ℕ)) → AllByRecursion (HasPages session.old.work) digesters →
        AllByRecursion (HasPages session.new.work) digesters }
{
    let [first, second] = actions;
    if goes(session, first, keepers, counts, steps) {
        return goes(session, second, keepers, counts, steps);
    }
    false
}

// Goes forth over one step, a unit of 20 of the machine's, and back, and so many workers take the digests of the tape between.
fn counted<L: Ledger, R: Threads + Sync>(
    rt: &R,
    abort: &impl Abort,
    alloc: Global,
    workers: u32,
    blank: Blank,
) -> Result<Counts, Fail>
    requires { IsBlankOf blank.name blank.parts L.name L.parts }
{
    let journal = read_journal(alloc, Vec::from_slice(alloc, JOURNAL)?)?;
    let mut keepers = vec![in alloc; MemoryKeeper::new(alloc, 1)]?;
    let book = Book::plain(1);
    assert!(abort;
        have_room(keepers.as_slice(), &book, 1),
        "the level has a keeper"
    );
    let mut steps = Steps::<L>::new(blank);
    let mut counts = Counts {
        states: 0,
        known: 0,
    };
    let start = first_state(abort, alloc, &[0x10, 0x11, 0x12], &COUNTING, 0)?;
    let mut digesters = Digesters::begin(alloc, &start, 20, workers)?;
    let mut session = Session::begin(alloc, start, journal, 1, 20, book)?;
    let forth = both_go(&mut session, &FORTH, &mut keepers, &mut counts, &mut steps);
    assert!(abort; forth);
    session.digest_tape(rt, &mut digesters);
    let back = both_go(&mut session, &BACK, &mut keepers, &mut counts, &mut steps);
    assert!(abort; back);
    Ok(counts)
}

// The last state is handed out first, and isn't on the tape.
#[test]
fn the_digests_of_the_states_on_the_tape_are_known(rt: HostRuntime) -> Result<(), Fail> {
    let one = counted::<Brand, _>(&rt, &rt, rt.alloc(), 1, Blank::new(1))?;
    assert_eq!(rt; (one.states, one.known), (21, 0));
    let two = counted::<Brand, _>(&rt, &rt, rt.alloc(), 2, Blank::new(1))?;
    assert_eq!(rt; (two.states, two.known), (21, 20));
    Ok(())
}

// The questions on a run.
ghost use Rattle.std.specs.Prelude.{◌*◌, ◌≤◌, ◌<◌, length, IfErr, OnOk};
ghost use Rattle.rv_pages.specs.declared.pages.TheConstants.{LAST_WORD};
ghost use Rattle.reverse_runner.specs.Prelude.{Stays, VisitorAfter, KeepersAre, told_by, calls_to, rooms_by, holdings_of, slot_counts};
ghost use Rattle.reverse_queries.specs.Queries.{WritesIn, ChangesIn, front_to};
ghost use Rattle.reverse_queries.specs.QuestionEffects.{Performed, IsSpared, FindsLast};
ghost use Rattle.reverse_queries.specs.HoldingsTrace.{IsFoundOn};
ghost use Rattle.reverse_queries.specs.ListExecution.{AwaitsList, GetsState, MissesState, RefusedIn};

use crate::finder::Sought;
use crate::finding::find_last;
use crate::picked::Picked;
use keepers::Keeper;
use plan_types::Action;
use reverse_runner::{RunFault, Session, Visitor};
use rv_machine::Steps;
use std::sync::ledger::Ledger;

/// Performs a valid list from a session's start, up to the action that gives the state with a number. The visitor gets
/// only that state.
pub fn state_at<K: Keeper, V: Visitor, L: Ledger>(
    session: &mut Session,
    list: &[Action],
    keepers: &mut Vec<K>,
    place: u32,
    visitor: &mut V,
    steps: &mut Steps<L>,
) -> Result<(), RunFault>
    requires awaits { AwaitsList session.old list.now (slot_counts K.Storage keepers.old.items) }
    requires place { place ≤ session.old.unit * session.old.situation.steps }

    // The visitor gets one state under this number, among those given on the way. If the session is at its start, that
    // is the run's state.
    ensures gets { OnOk result (IsFoundOn (GetsState V.got session.old (told_by K.Storage keepers.old.items) place visitor.old visitor.new)
        session.old.unit session.old.situation.steps session.old.journal (front_to session.old.unit session.old.situation.steps place list.now)
        (holdings_of session.old (told_by K.Storage keepers.old.items)) (holdings_of session.new (told_by K.Storage keepers.new.items))) }

    // What was performed for it.
    ensures performed { OnOk result (Performed session.old (front_to session.old.unit session.old.situation.steps place list.now) session.new
        steps.old steps.new (calls_to K.Storage keepers.old.items)
        (calls_to K.Storage keepers.new.items)) }
    ensures stays { OnOk result (Stays session.old (told_by K.Storage keepers.old.items) session.new (told_by K.Storage keepers.new.items)) }

    // The session after a refusal, and its cause.
    ensures refused { IfErr result (λ fault. RefusedIn
        (MissesState V.missed session.old (told_by K.Storage keepers.old.items) place visitor.old visitor.new)
        (front_to session.old.unit session.old.situation.steps place list.now) fault session.old session.new (told_by K.Storage keepers.old.items)
        steps.old steps.new (calls_to K.Storage keepers.old.items)
        (calls_to K.Storage keepers.new.items)) }
    ensures spared { IsSpared result session.old (told_by K.Storage keepers.old.items) (rooms_by K.Storage keepers.old.items) }
    ensures seen { VisitorAfter V.Visitor result visitor.old visitor.new }
    ensures kept { KeepersAre K.Storage (λ k. k < length session.old.situation.slots) result keepers.old.items keepers.new.items }
{
    let mut picked = Picked::new(place, visitor);
    for action in list {
        session.perform(action, keepers, &mut picked, steps)?;
        if picked.passed {
            return Ok(());
        }
    }
    unreachable!()
}

/// Performs a valid list from a session's start. Returns the number of the last step that writes a byte of a word, if
/// any. It stops after the action that gives the state before that step.
pub fn last_write<K: Keeper, L: Ledger>(
    session: &mut Session,
    list: &[Action],
    keepers: &mut Vec<K>,
    word: u32,
    steps: &mut Steps<L>,
) -> Result<Option<u32>, RunFault>
    requires awaits { AwaitsList session.old list.now (slot_counts K.Storage keepers.old.items) }
    requires word { word ≤ LAST_WORD }
    ensures { FindsLast K.Storage (λ states. WritesIn states session.old.journal word) result list.now session.old session.new keepers.old.items keepers.new.items
        steps.old steps.new }
{
    find_last(session, list, keepers, Sought::Write, word, steps)
}

/// Performs a valid list from a session's start. Returns the number of the last step that changes a byte of a word, if
/// any. It stops after the action that gives the state before that step.
pub fn last_change<K: Keeper, L: Ledger>(
    session: &mut Session,
    list: &[Action],
    keepers: &mut Vec<K>,
    word: u32,
    steps: &mut Steps<L>,
) -> Result<Option<u32>, RunFault>
    requires awaits { AwaitsList session.old list.now (slot_counts K.Storage keepers.old.items) }
    requires word { word ≤ LAST_WORD }
    ensures { FindsLast K.Storage (λ states. ChangesIn states word) result list.now session.old session.new keepers.old.items keepers.new.items
        steps.old steps.new }
{
    find_last(session, list, keepers, Sought::Change, word, steps)
}

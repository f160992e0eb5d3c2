// The last step of a run that writes or changes a word.
ghost use Rattle.std.specs.Prelude.{◌≡◌, ◌≤◌, ◌↔◌, None, IsTrue};
ghost use Rattle.rv_pages.specs.declared.pages.TheConstants.{LAST_WORD};
ghost use Rattle.reverse_queries.specs.Queries.{word_bytes};
ghost use Rattle.reverse_queries.specs.ListExecution.{AwaitsList};
ghost use Rattle.reverse_queries.specs.QuestionEffects.{FindsLast};
ghost use Rattle.reverse_queries.specs.FinderModel.{DoesWhatIsAsked, Finds, Got};
ghost use Rattle.reverse_runner.specs.Prelude.{slot_counts};

use crate::finder::{Finder, Sought};
use crate::memory_word::{bytes_of_word, some_differ};
use input_journal::Journal;
use keepers::Keeper;
use plan_types::Action;
use reverse_runner::{KnownState, RunFault, Session, VisitFault, Visitor};
use rv_machine::{State, Steps, wrote};
use std::sync::ledger::Ledger;

impl Finder {
    // A finder that has no state yet.
    pub fn new(question: Sought, word: u32, last: u32) -> Finder
        requires { word ≤ LAST_WORD }
        ensures question { result.question ≡ question }
        ensures word { result.word ≡ word }
        ensures last { result.last ≡ last }
        ensures answer { result.answer ≡ None }
    {
        Finder {
            question,
            word,
            last,
            later: [None; 4],
            answer: None,
        }
    }

    // Whether the next step of a state has the wanted property. The word has these bytes afterwards.
    fn finds(&self, state: &State, journal: &Journal, bytes: &[Option<u8>; 4]) -> bool
        requires { bytes.now ≡ word_bytes state.now.memory self.now.word }
        ensures { IsTrue result ↔ Finds self.now.question self.now.word self.now.later state.now journal.now }
    {
        match self.question {
            Sought::Write => wrote(state, journal, self.word),
            Sought::Change => some_differ(bytes, &self.later),
        }
    }
}

impl Visitor for Finder {
    ghost got = { Got };

    ghost missed = { λ old n s journal new. ⊥ };

    ghost fault_count = { λ v. 0 };

    fn state(&mut self, n: u32, state: &KnownState, journal: &Journal) -> Result<(), VisitFault> {
        if self.answer.is_some() {
            return Ok(());
        }
        let state = state.state();
        let bytes = bytes_of_word(state, self.word);
        if self.finds(state, journal, &bytes) && n < self.last {
            self.answer = Some(n);
        }
        self.later = bytes;
        Ok(())
    }
}

// Performs a list up to the last state whose step has the wanted property, and returns its number.
pub(crate) fn find_last<K: Keeper, L: Ledger>(
    session: &mut Session,
    list: &[Action],
    keepers: &mut Vec<K>,
    question: Sought,
    word: u32,
    steps: &mut Steps<L>,
) -> Result<Option<u32>, RunFault>
    requires awaits { AwaitsList session.old list.now (slot_counts K.Storage keepers.old.items) }
    requires word { word ≤ LAST_WORD }
    ensures { FindsLast K.Storage (DoesWhatIsAsked question session.old.journal word) result list.now session.old session.new
        keepers.old.items keepers.new.items steps.old steps.new }
{
    let last = session.unit() * session.config().reverse();
    let mut finder = Finder::new(question, word, last);
    for action in list {
        session.perform(action, keepers, &mut finder, steps)?;
        if let Some(place) = finder.answer {
            return Ok(Some(place));
        }
    }
    Ok(None)
}

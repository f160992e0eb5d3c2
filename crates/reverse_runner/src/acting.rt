// What an action does to the states and the images of a session.
ghost use Rattle.std.specs.Prelude.{◌≡◌, ◌≢◌, ℕ, List, Err, OnOk, OnErr, IfErr, IsTrue};
ghost use Rattle.level_book.specs.Prelude.{Configuration, Goes, rule};
ghost use Rattle.reverse_runner.specs.Prelude.{VisitorAfter, handed_by, states_out, HandsOut, calls_keepers, IsOfStorage, IsReady, HasUnits, Ends, tape_in, slot_counts};

use crate::fault::RunFault;
use crate::visitor::{Visitor, hand_out};
use crate::workspace::Workspace;
use input_journal::Journal;
use keepers::Keeper;
use plan_types::{Action, Dest, Keep};
use rv_machine::Steps;
use schedule_rules::Config;
use std::sync::ledger::Ledger;

/// Does what an action does, and gives its states to the visitor.
pub(crate) fn act<K: Keeper, V: Visitor, L: Ledger>(
    space: &mut Workspace,
    config: &Config,
    unit: u32,
    journal: &Journal,
    action: &Action,
    keepers: &mut Vec<K>,
    visitor: &mut V,
    steps: &mut Steps<L>,
) -> Result<(), RunFault>
    requires ready { IsReady config.now.steps config.now.slots config.now.at space.old (slot_counts K.Storage keepers.old.items) }
    requires units { HasUnits unit journal.now config.now.steps config.now.at space.old }
    requires allowed { rule config.now.steps config.now.slots config.now.at action.now ≡ 0 }
    ensures ends { Ends K.Storage result unit journal.now config.now action.now space.old space.new keepers.old.items keepers.new.items
        steps.old steps.new }
    ensures units { (d : Configuration) → Goes config.now.steps config.now.slots config.now.at action.now d →
        OnOk result (HasUnits unit journal.now config.now.steps d space.new) }
    ensures lasting { result ≢ Err RunFault.Ended }
    ensures hands { HandsOut V.got V.missed journal.now (handed_by unit config.now.steps action.now)
        (states_out action.now space.old.desk.work (tape_in space.old).states) result visitor.old visitor.new }
    ensures seen { VisitorAfter V.Visitor result visitor.old visitor.new }
{
    match *action {
        Action::Forward { from, to, keep } => {
            forward(space, config, unit, journal, from, to, keep, keepers, steps)
        }
        Action::Reverse { to, .. } => space.hand_back(unit * to, visitor, journal),
        Action::Copy { n, from, dest } => copy(space, config, keepers, n, from, dest),
        Action::Move { n, from, dest } => {
            copy(space, config, keepers, n, from, dest)?;
            space.desk.release(keepers, from, n)
        }
        Action::EndForward => hand_out(visitor, unit * config.work(), &space.desk.work, journal),
        Action::EndReverse => Ok(()),
    }
}

// Keeps what a Forward keeps, and takes its steps.
fn forward<K: Keeper, L: Ledger>(
    space: &mut Workspace,
    config: &Config,
    unit: u32,
    journal: &Journal,
    from: u32,
    to: u32,
    keep: Keep,
    keepers: &mut Vec<K>,
    steps: &mut Steps<L>,
) -> Result<(), RunFault>
    requires ready { IsReady config.now.steps config.now.slots config.now.at space.old (slot_counts K.Storage keepers.old.items) }
    requires units { HasUnits unit journal.now config.now.steps config.now.at space.old }
    requires allowed { rule config.now.steps config.now.slots config.now.at (Action.Forward from to keep) ≡ 0 }
    ensures ends { Ends K.Storage result unit journal.now config.now (Action.Forward from to keep) space.old space.new
        keepers.old.items keepers.new.items steps.old steps.new }
    ensures units { (d : Configuration) → Goes config.now.steps config.now.slots config.now.at (Action.Forward from to keep) d →
        OnOk result (HasUnits unit journal.now config.now.steps d space.new) }
    ensures stores { OnErr result (IsTrue (calls_keepers (Action.Forward from to keep))) }
    ensures fault { IfErr result IsOfStorage }
{
    let count = unit * (to - from);
    match keep {
        Keep::Nothing => space.desk.advance(journal, count, steps),
        Keep::Store(level) => {
            let digest = space.desk.encode();
            space.desk.keep(keepers, level, from, &digest)?;
            space.desk.advance(journal, count, steps);
        }
        Keep::Tape => space.advance_on_tape(journal, count, steps),
    }
    Ok(())
}

// Copies a stored image into the work state or to another level.
fn copy<K: Keeper>(
    space: &mut Workspace,
    config: &Config,
    keepers: &mut Vec<K>,
    n: u32,
    from: u8,
    dest: Dest,
) -> Result<(), RunFault>
    requires ready { IsReady config.now.steps config.now.slots config.now.at space.old (slot_counts K.Storage keepers.old.items) }
    requires allowed { rule config.now.steps config.now.slots config.now.at (Action.Copy n from dest) ≡ 0 }
    ensures ends { (unit : ℕ) (journal : List (List ℕ)) (steps : ℕ) → Ends K.Storage result unit journal config.now (Action.Copy n from dest)
        space.old space.new keepers.old.items keepers.new.items steps steps }
    ensures fault { IfErr result IsOfStorage }
    ensures undo { space.new.undo ≡ space.old.undo }
{
    let digest = space.desk.fetch(keepers, from, n)?;
    match dest {
        Dest::Work => space.desk.decode(from, &digest),
        Dest::Level(to) => space.desk.keep(keepers, to, n, &digest),
    }
}

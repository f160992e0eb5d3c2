// How the orders of a script are answered in a sink.
ghost use Rattle.std.specs.Prelude.{◌≡◌, ◌++◌, ℕ, List, false, length, Option, IfOk, OnOk};
ghost use Rattle.rv_machine.specs.Prelude.{MachineState, IsMachineState};
ghost use Rattle.keepers.specs.Prelude.{Tells};
ghost use Rattle.reverse_runner.specs.Prelude.{FaultsAfter, told_by, calls_to, slot_counts};
ghost use Rattle.reverse_console.specs.Causes.{fault_of};
ghost use Rattle.reverse_console.specs.ConsoleState.{GoesOn, source_of};
ghost use Rattle.reverse_console.specs.OrderResults.{LeavesKeepers, AreSpared};
ghost use Rattle.reverse_console.specs.ScriptAnswers.{moment, AwaitsOrder, AwaitsOrders, LeavesOrder, IsOrderShown, IsAnswered, AreAnsweredBy, AreAnsweredIn};
ghost use Rattle.reverse_console.specs.MarksOfRun.{Stands};

use crate::console::Console;
use crate::order::Order;
use keepers::{Keeper, Sink};
use reverse_runner::{LineWriter, RunFault};
use rv_machine::Steps;
use std::sync::ledger::Ledger;

/// The order that was refused, counted from 1, and why. Visitor means that the sink failed.
#[derive(Clone, Copy, Debug, PartialEq, Eq)]
pub struct Stop {
    pub order: u32,
    pub fault: RunFault,
}

// Answers an order, and writes the line of the new state, if any.
fn show<K: Keeper, O: Sink, L: Ledger>(
    console: &mut Console,
    order: &Order,
    keepers: &mut Vec<K>,
    out: &mut O,
    steps: &mut Steps<L>,
) -> Result<bool, RunFault>
    requires { AwaitsOrder console.old order.now (slot_counts K.Storage keepers.old.items) }
    ensures shown { IfOk result (λ found. IsOrderShown (source_of console.old (told_by K.Storage keepers.old.items)) order.now found
        (moment console.old steps.old (calls_to K.Storage keepers.old.items) (O.call_count out.old))
        (moment console.new steps.new (calls_to K.Storage keepers.new.items) (O.call_count out.new)) (O.told out.old) (O.told out.new)) }
    ensures faults { FaultsAfter O.fault_count result out.old out.new }
    ensures leaves { LeavesOrder K.Storage order.now result console.old console.new keepers.old.items keepers.new.items
        (moment console.old steps.old (calls_to K.Storage keepers.old.items) (O.call_count out.old))
        (moment console.new steps.new (calls_to K.Storage keepers.new.items) (O.call_count out.new)) (O.told out.old) (O.told out.new) }
{
    let mut writer = LineWriter::new(out);
    console.perform(order, keepers, &mut writer, steps)
}

// Writes the answer to an order: the line of the state, or `none`.
fn answer_line<K: Keeper, O: Sink, L: Ledger>(
    console: &mut Console,
    order: &Order,
    keepers: &mut Vec<K>,
    out: &mut O,
    steps: &mut Steps<L>,
) -> Result<(), RunFault>
    requires { AwaitsOrder console.old order.now (slot_counts K.Storage keepers.old.items) }
    ensures answered { OnOk result ((answer : Option ℕ) × ((text : List ℕ)
        × (IsAnswered (source_of console.old (told_by K.Storage keepers.old.items)) order.now answer text
        (moment console.old steps.old (calls_to K.Storage keepers.old.items) (O.call_count out.old))
        (moment console.new steps.new (calls_to K.Storage keepers.new.items) (O.call_count out.new))
        × Tells (O.told out.old) (O.told out.new) (λ x y. y ≡ x ++ text)))) }
    ensures faults { FaultsAfter O.fault_count result out.old out.new }
    ensures leaves { LeavesOrder K.Storage order.now result console.old console.new keepers.old.items keepers.new.items
        (moment console.old steps.old (calls_to K.Storage keepers.old.items) (O.call_count out.old))
        (moment console.new steps.new (calls_to K.Storage keepers.new.items) (O.call_count out.new)) (O.told out.old) (O.told out.new) }
{
    let found = show(console, order, keepers, out, steps)?;
    if found {
        return Ok(());
    }
    match out.write(b"none\n") {
        Ok(()) => Ok(()),
        Err(_) => Err(RunFault::Visitor),
    }
}

/// Answers the orders of a script one by one, and writes each answer in one call of the sink.
pub fn answer_all<K: Keeper, O: Sink, L: Ledger>(
    console: &mut Console,
    orders: &[Order],
    keepers: &mut Vec<K>,
    out: &mut O,
    steps: &mut Steps<L>,
) -> Result<(), Stop>
    requires { AwaitsOrders console.old orders.now (slot_counts K.Storage keepers.old.items) }

    // What was answered and written, by the fetched bytes.
    ensures answers { AreAnsweredBy (source_of console.old (told_by K.Storage keepers.old.items)) orders.now result
        (moment console.old steps.old (calls_to K.Storage keepers.old.items) (O.call_count out.old))
        (moment console.new steps.new (calls_to K.Storage keepers.new.items) (O.call_count out.new)) (O.told out.old) (O.told out.new) }

    // If the console represents a run, the answers are those in the run, and it represents the run afterwards.
    ensures in_run { (first : MachineState) → IsMachineState first → Stands first console.old (told_by K.Storage keepers.old.items) →
        AreAnsweredIn first console.old.journal console.old.plan.count console.old.place orders.now result console.new.place (O.told out.old)
        (O.told out.new) }
    ensures stands { (first : MachineState) → Stands first console.old (told_by K.Storage keepers.old.items) →
        Stands first console.new (told_by K.Storage keepers.new.items) }
    ensures goes_on { GoesOn console.old console.new }
    ensures lasts { OnOk result (console.new.ended ≡ false) }

    // The cause of a refusal, and which refusals can't happen.
    ensures spared { AreSpared K.Storage console.old (fault_of result) keepers.old.items }
    ensures faults { FaultsAfter O.fault_count (fault_of result) out.old out.new }

    // What it leaves of the keepers.
    ensures keepers { LeavesKeepers K.Storage (length console.old.plan.slots) (fault_of result) keepers.old.items keepers.new.items }
{
    console.sees_its_run();
    for at in 0..orders.len() {
        if let Err(fault) = answer_line(console, &orders[at], keepers, out, steps) {
            return Err(Stop {
                order: at as u32 + 1,
                fault,
            });
        }
    }
    Ok(())
}

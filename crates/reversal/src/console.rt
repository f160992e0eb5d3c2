// Moving about in a run by the orders of a script.
ghost use Rattle.std.specs.Prelude.{◌≡◌, ◌≢◌, ◌<◌, ◌≤◌, ◌^◌, ℕ, max, length, slice_get, Some, IfOk, IfErr, OnOk};
ghost use Rattle.std.specs.Vec.{vec_len};
ghost use Rattle.plan_types.specs.declared.limits.TheConstants.{MOST_STEPS};
ghost use Rattle.level_book.specs.Prelude.{slots_of, total_room};
ghost use Rattle.reverse_runner.specs.Prelude.{HaveRoom, slot_counts};
ghost use Rattle.reverse_runner.specs.declared.fault.RunFault.TheVariants as fault_is;
ghost use Rattle.reverse_console.specs.declared.order.Order.{Order as AnOrder};
ghost use Rattle.reverse_console.specs.Prelude.{IsOrder, IsScript, HasFirstFault};
ghost use Rattle.endings.specs.Prelude.{done, no_plan, bad_script};
ghost use Rattle.requests.specs.Prelude.{stack_pages, IsWithinLimits, contents_of};
ghost use Rattle.reversal.specs.Prelude.{DecidesConsole, moves, fault_ending, CanAnswerOrders, IsRefusal, Does, text_of, IsDecided};

use crate::decision::{beginning_of, book_in, keep};
use crate::job::{Job, fault_ending};
use endings::Outcome;
use keepers::{Keeper, Sink};
use level_book::Book;
use requests::{Loaded, Options};
use reverse_console::laws::the_marks_have_levels;
use reverse_console::{Console, MarkedRun, Order, Stop, answer_all, read_orders};
use rv_machine::Steps;
use std::alloc::Global;
use std::sync::ledger::Ledger;

/// A run with marks, and the orders of a script.
#[derive(Drop)]
pub struct ConsoleRun {
    pub run: MarkedRun,
    pub orders: Vec<Order>,
}

impl ConsoleRun {
    /// Sets the marks, and answers the orders one after the other. An ending has the number of the order, and 0 for the
    /// marks.
    pub fn answer_orders<K: Keeper, O: Sink, L: Ledger>(
        self,
        alloc: Global,
        keepers: &mut Vec<K>,
        out: &mut O,
        counter: &mut Steps<L>,
    ) -> Outcome
        requires can_be_done { CanAnswerOrders self }
        requires room { HaveRoom (max self.run.count 1) (slots_of self.run.book) (slot_counts K.Storage keepers.old.items) }
        ensures { Does O.Sink K.Storage (moves self) result out.old out.new keepers.old keepers.new counter.old counter.new }
    {
        let ConsoleRun { run, orders } = self;
        run.start.is_machine_state();
        the_marks_have_levels();
        match Console::begin(alloc, run, keepers, counter) {
            Err(fault) => fault_ending(0, fault),
            Ok(mut console) => {
                console.sees_its_run();
                script_ending(answer_all(&mut console, &orders, keepers, out, counter))
            }
        }
    }
}

// How a call ends whose orders were answered, or one was refused.
fn script_ending(answered: Result<(), Stop>) -> Outcome
    requires { IfErr answered (λ stop. stop.fault ≢ fault_is.Ended) }
    ensures done { OnOk answered (result ≡ done) }
    ensures refused { IfErr answered (λ stop. result ≡ fault_ending stop.order stop.fault) }
{
    match answered {
        Ok(()) => Outcome::Done,
        Err(stop) => fault_ending(u64::from(stop.order), stop.fault),
    }
}

/// The decision on a console request of so many steps, by what was read for it and the keepers' slots.
pub fn decide_console(
    alloc: Global,
    options: &Options,
    steps: u32,
    loaded: &mut Loaded,
    counts: &[u32],
) -> Result<Job, Outcome>
    requires stack { (1 ≤ stack_pages options.now) × (stack_pages options.now ≤ 1024) }
    requires steps { steps ≤ MOST_STEPS }
    requires inputs { IsWithinLimits (contents_of loaded.old) }
    ensures { IsDecided
        (DecidesConsole options.now steps loaded.old.program.items (text_of loaded.old.journal) loaded.old.book.items loaded.old.script.items counts.now)
        counts.now result }
{
    let book = book_in(alloc, &loaded.book)?;
    keep(steps.max(1), &book, counts)?;
    need_slot(steps, &book)?;
    let (start, journal) = beginning_of(alloc, options, &loaded.program, loaded.journal.take())?;
    let orders = orders_in(alloc, &loaded.script, steps)?;
    let run = MarkedRun {
        start,
        journal,
        count: steps,
        book,
    };
    Ok(Job::Console(ConsoleRun { run, orders }))
}

// Requires a slot for a mark on some level of the book.
fn need_slot(steps: u32, book: &Book) -> Result<(), Outcome>
    ensures slots { OnOk result (1 ≤ total_room book.now (max steps 1)) }
    ensures refused { IfErr result (λ e. (1 ≤ total_room book.now (max steps 1) → ⊥) × (e ≡ no_plan steps (total_room book.now steps) 1)) }
{
    if book.total_room(steps.max(1)) == 0 {
        return Err(Outcome::NoPlan {
            steps,
            room: book.total_room(steps),
            rule: 1,
        });
    }
    Ok(())
}

// The orders that a script means in a run of so many steps.
fn orders_in(alloc: Global, bytes: &[u8], steps: u32) -> Result<Vec<Order>, Outcome>
    requires steps { steps ≤ MOST_STEPS }
    requires short { length bytes.now ≤ 1048576 }
    ensures found { IfOk result (λ orders. IsScript steps bytes.now orders.items) }
    ensures orders { IfOk result (λ orders. (i : ℕ) (order : AnOrder) → slice_get orders.items i ≡ Some order → IsOrder steps order) }
    ensures few { IfOk result (λ orders. vec_len orders < 2 ^ 32) }
    ensures refused { IfErr result (IsRefusal (HasFirstFault steps bytes.now) bad_script) }
{
    match read_orders(alloc, bytes, steps) {
        Ok(orders) => Ok(orders),
        Err(fault) => Err(Outcome::bad_script(fault)),
    }
}

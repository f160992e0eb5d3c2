// The words of an order: its command and its operand.
ghost use Rattle.std.specs.Prelude.{◌≡◌};
ghost use Rattle.plan_types.specs.declared.limits.TheConstants.{MOST_STEPS};
ghost use Rattle.line_texts.specs.Prelude.{number_of as number_in};
ghost use Rattle.reverse_console.specs.Script.{order_with as order_of_command};
ghost use Rattle.reverse_console.specs.ScriptFaults.{rule_of as rule_of_command};
ghost use Rattle.reverse_console.specs.ScriptParser.{command_of as command_in, operand_of as operand_in, is_given};

use crate::fault::Rule;
use crate::order::Order;
use line_texts::address_of;
use plan_types::MOST_STEPS;
use rv_pages::LAST_WORD;

// What an order begins with.
#[derive(Clone, Copy)]
pub(crate) enum Command {
    Back,
    Step,
    Goto,
    BackTo,
    RunTo,
    BackChange,
    BackWrite,
}

// The command that a word names.
#[tactic(auto, unfolding(crate::specs::ScriptParser::command_of))]
pub(crate) fn command_of(word: &[u8]) -> Option<Command>
    ensures { result ≡ command_in word.now }
{
    if word == b"back".as_slice() {
        Some(Command::Back)
    } else if word == b"step".as_slice() {
        Some(Command::Step)
    } else if word == b"goto".as_slice() {
        Some(Command::Goto)
    } else if word == b"back-to".as_slice() {
        Some(Command::BackTo)
    } else if word == b"run-to".as_slice() {
        Some(Command::RunTo)
    } else if word == b"back-change".as_slice() {
        Some(Command::BackChange)
    } else if word == b"back-write".as_slice() {
        Some(Command::BackWrite)
    } else {
        None
    }
}

// The order of a command with a number of steps or of a state, or with an address.
pub(crate) fn order_with(command: Command, operand: u32) -> Order
    ensures { result ≡ order_of_command command operand }
{
    match command {
        Command::Back => Order::Back(operand),
        Command::Step => Order::Step(operand),
        Command::Goto => Order::Goto(operand),
        Command::BackTo => Order::BackTo(operand),
        Command::RunTo => Order::RunTo(operand),
        Command::BackChange => Order::BackChange(operand),
        Command::BackWrite => Order::BackWrite(operand),
    }
}

// Whether a run of so many steps allows the order.
pub(crate) fn may_be_given(order: &Order, count: u32) -> bool
    ensures { result ≡ is_given count order.now }
{
    match *order {
        Order::Goto(k) => k <= count,
        Order::BackChange(word) => word <= LAST_WORD,
        Order::BackWrite(word) => word <= LAST_WORD,
        _ => true,
    }
}

// The rule that a wrong operand of this command breaks.
pub(crate) fn rule_of(command: Command) -> Rule
    ensures { result ≡ rule_of_command command }
{
    match command {
        Command::Back | Command::Step | Command::Goto => Rule::Number,
        _ => Rule::Address,
    }
}

// The number or the address that a command's operand spells.
pub(crate) fn operand_of(command: Command, word: &[u8]) -> Option<u32>
    ensures { result ≡ operand_in command word.now }
{
    match command {
        Command::Back | Command::Step | Command::Goto => number_of(word),
        _ => address_of(word),
    }
}

// The number of steps or of a state that a word spells.
fn number_of(word: &[u8]) -> Option<u32>
    ensures { result ≡ number_in MOST_STEPS word.now }
{
    match line_texts::number_of(word, u64::from(MOST_STEPS)) {
        Some(n) => Some(n as u32),
        None => None,
    }
}

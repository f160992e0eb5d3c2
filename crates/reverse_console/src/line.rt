// What a line of a script means.
ghost use Rattle.std.specs.Prelude.{◌≡◌, ◌<◌, ◌^◌, ◌+◌, length};
ghost use Rattle.line_texts.specs.Prelude.{words as words_of};
ghost use Rattle.reverse_console.specs.ScriptWords.{begins_comment as comment_begins};
ghost use Rattle.reverse_console.specs.ScriptParser.{line_of, not_command as not_a_command, given as given_with};

use crate::command::{Command, command_of, may_be_given, operand_of, order_with, rule_of};
use crate::fault::Rule;
use crate::order::Order;
use line_texts::{LineFault, Token, Words};

// The order of a line, if any, in a run of so many steps.
#[tactic(auto, unfolding(crate::specs::ScriptParser::line_of))]
pub(crate) fn line(bytes: &[u8], count: u32) -> Result<Option<Order>, LineFault<Rule>>
    requires { length bytes.now < 2 ^ 31 }
    ensures { result ≡ line_of count (length bytes.now + 1) (words_of 1 bytes.now) }
{
    let end = bytes.len() as u32 + 1;
    let mut words = Words::new(bytes, 1);
    let Some(first) = words.next() else {
        return Ok(None);
    };
    if begins_comment(first.text) {
        return Ok(None);
    }
    let Some(command) = command_of(first.text) else {
        return Err(not_command(first.column));
    };
    let Some(operand) = words.next() else {
        return Err(not_command(end));
    };
    let order = match given(command, operand, count) {
        Ok(order) => order,
        Err(fault) => return Err(fault),
    };
    match words.next() {
        Some(further) => Err(not_command(further.column)),
        None => Ok(Some(order)),
    }
}

// Whether a comment begins with the first word of a line.
fn begins_comment(word: &[u8]) -> bool
    ensures { result ≡ comment_begins word.now }
{
    match word {
        [first, ..] => *first == b'#',
        [] => false,
    }
}

// The fault of a word that doesn't fit or is missing, in this column.
fn not_command(column: u32) -> LineFault<Rule>
    ensures { result ≡ not_a_command column }
{
    LineFault {
        rule: Rule::NotCommand,
        column,
    }
}

// The order of a command with its operand.
#[tactic(auto, unfolding(crate::specs::ScriptParser::given))]
fn given(command: Command, operand: Token, count: u32) -> Result<Order, LineFault<Rule>>
    ensures { result ≡ given_with count command operand.entry.column operand.entry.text.now }
{
    let column = operand.column;
    let Some(n) = operand_of(command, operand.text) else {
        return Err(LineFault {
            rule: rule_of(command),
            column,
        });
    };
    let order = order_with(command, n);
    if may_be_given(&order, count) {
        Ok(order)
    } else {
        Err(LineFault {
            rule: Rule::Range,
            column,
        })
    }
}

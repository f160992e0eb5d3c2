// The fields of an action. Each is the next token of its line, before a mark, and returns a value.
#![tactic(auto, unfolding(crate::specs::Parser::number_next, crate::specs::Parser::truth_next))]

ghost use Rattle.std.specs.Prelude.{◌≡◌, ◌≤◌, ◌∷◌, [], Some, Ok, Err, MatchOption, MatchResult, IfOk, OnOk};
ghost use Rattle.plan_types.specs.declared.limits.TheConstants.{MOST_STEPS};
ghost use Rattle.action_text.specs.Parser.{text_at, column_at, number_of, truth_of, number_next, truth_next, number_rule, word_rule, mark_next, IsMark, ReadsBefore};

use crate::cursor::{Cursor, Word};
use crate::fault::{Parsed, Rule};
use crate::words::take_truth;
use line_texts::LineFault;

// Reads a number.
#[inline(always)]
pub(crate) fn next_number(cursor: &mut Cursor, mark: u8) -> Parsed<u32>
    requires { IsMark mark }
    ensures value { ReadsBefore mark result number_of number_next cursor.old cursor.new }
    ensures small { IfOk result (λ n. n ≤ MOST_STEPS) }
{
    let Some(x) = cursor.take_number() else {
        return Err(number_fault(&cursor.word()?));
    };
    cursor.mark(mark)?;
    Ok(x)
}

// Reads a truth value.
#[inline(always)]
pub(crate) fn next_truth(cursor: &mut Cursor, mark: u8) -> Parsed<bool>
    requires { IsMark mark }
    ensures { ReadsBefore mark result truth_of truth_next cursor.old cursor.new }
{
    before_mark(take_truth(cursor), cursor, mark, Rule::NotAction)
}

// What was read, if this mark comes next. A word that wasn't read breaks this rule.
#[inline(always)]
pub(crate) fn before_mark<T: Copy>(
    found: Option<T>,
    cursor: &mut Cursor,
    mark: u8,
    rule: Rule,
) -> Parsed<T>
    requires { IsMark mark }
    ensures value { MatchResult result
        (λ x. (found ≡ Some x) × (mark_next (mark ∷ []) cursor.old ≡ Ok (text_at cursor.old, cursor.new)))
        (λ e. MatchOption found
        (e ≡ record { rule = word_rule rule (text_at cursor.old); column = column_at cursor.old })
        (λ _. mark_next (mark ∷ []) cursor.old ≡ Err e)) }
    ensures later { OnOk result (cursor.new.later ≡ cursor.old.later) }
{
    let Some(x) = found else {
        let Word { column, .. } = cursor.word()?;
        return Err(LineFault { rule, column });
    };
    cursor.mark(mark)?;
    Ok(x)
}

// The fault where a number is expected.
fn number_fault(word: &Word) -> LineFault<Rule>
    ensures { result ≡ record { rule = number_rule word.now.text.now; column = word.now.column } }
{
    let is_digit = match word.text {
        [first, ..] => first.is_ascii_digit(),
        [] => false,
    };
    LineFault {
        rule: if is_digit {
            Rule::Number
        } else {
            Rule::NotAction
        },
        column: word.column,
    }
}

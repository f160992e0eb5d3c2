// A line of a schedule, with a function for each kind of action.
ghost use Rattle.std.specs.Prelude.{◌≡◌, ◌≤◌, [], OnOk};
ghost use Rattle.plan_types.specs.declared.limits.TheConstants.{MOST_STEPS};
ghost use Rattle.line_texts.specs.Prelude.{Gives};
ghost use Rattle.level_book.specs.Prelude.{names_of};
ghost use Rattle.action_text.specs.declared.words.Kind.TheVariants as kinds;
ghost use Rattle.action_text.specs.Parser.{arguments_of, image_of, brackets_of, forward_said, reverse_said, line_of};

use crate::cursor::Cursor;
use crate::fault::{Parsed, Rule};
use crate::fields::{before_mark, next_number, next_truth};
use crate::words::{Kind, Place, take_kind, take_level, take_place, take_target};
use level_book::Book;
use line_texts::LineFault;
use plan_types::{Action, Dest, Keep};

// The action that the line means, or None where it means nothing. `full`: no more actions are allowed.
pub(crate) fn line(cursor: &mut Cursor, book: &Book, full: bool) -> Parsed<Option<Action>>
    ensures value { Gives (λ found. found) result (line_of (names_of book.now) full cursor.old) }
    ensures later { OnOk result (cursor.new.later ≡ cursor.old.later) }
{
    if !full {
        if let Some(action) = cursor.take_canonical(book) {
            return Ok(Some(action));
        }
    }
    line_by_tokens(cursor, book, full)
}

// Reads a line by its tokens, in any spelling.
#[inline(never)]
#[tactic(auto, unfolding(crate::specs::Parser::line_of))]
fn line_by_tokens(cursor: &mut Cursor, book: &Book, full: bool) -> Parsed<Option<Action>>
    ensures value { Gives (λ found. found) result (line_of (names_of book.now) full cursor.old) }
    ensures later { OnOk result (cursor.new.later ≡ cursor.old.later) }
{
    if cursor.says_nothing() {
        return Ok(None);
    }
    let column = cursor.column();
    let Some(kind) = take_kind(cursor) else {
        return Err(LineFault {
            rule: Rule::NotAction,
            column,
        });
    };
    if full {
        return Err(LineFault {
            rule: Rule::TooMany,
            column,
        });
    }
    let Some(action) = arguments(kind, cursor, book)? else {
        return Err(LineFault {
            rule: Rule::Profile,
            column,
        });
    };
    Ok(Some(action))
}

// The action of this kind in the rest of the line, or None if its arguments don't fit together.
#[tactic(auto, unfolding(crate::specs::Parser::arguments_of, crate::specs::Parser::image_of, crate::specs::Parser::brackets_of))]
fn arguments(kind: Kind, cursor: &mut Cursor, book: &Book) -> Parsed<Option<Action>>
    ensures value { Gives (λ found. found) result (arguments_of (names_of book.now) kind cursor.old) }
    ensures later { OnOk result (cursor.new.later ≡ cursor.old.later) }
{
    match kind {
        Kind::Forward => forward(cursor, book),
        Kind::Reverse => reverse(cursor),
        Kind::Copy => image(false, cursor, book),
        Kind::Move => image(true, cursor, book),
        Kind::EndForward => brackets(Action::EndForward, cursor),
        Kind::EndReverse => brackets(Action::EndReverse, cursor),
    }
}

// The arguments of a Forward.
#[tactic(auto, unfolding(crate::specs::Parser::arguments_of, crate::specs::Parser::place_next))]
fn forward(cursor: &mut Cursor, book: &Book) -> Parsed<Option<Action>>
    ensures value { Gives (λ found. found) result (arguments_of (names_of book.now) kinds.Forward cursor.old) }
    ensures later { OnOk result (cursor.new.later ≡ cursor.old.later) }
{
    cursor.mark(b'(')?;
    let from = next_number(cursor, b',')?;
    let to = next_number(cursor, b',')?;
    let state = next_truth(cursor, b',')?;
    let tape = next_truth(cursor, b',')?;
    let place = before_mark(take_place(cursor, book), cursor, b')', Rule::Level)?;
    cursor.end()?;
    Ok(forward_said(from, to, state, tape, place))
}

// The Forward of these arguments.
fn forward_said(from: u32, to: u32, state: bool, tape: bool, place: Place) -> Option<Action>
    requires { from ≤ MOST_STEPS }
    ensures { result ≡ forward_said from to state tape place }
{
    let keep = match (state, tape, place) {
        (false, false, Place::Nowhere | Place::At(Dest::Work)) => Keep::Nothing,
        (true, false, Place::At(Dest::Level(k))) => Keep::Store(k),
        (false, true, Place::At(Dest::Work)) if to == from + 1 => Keep::Tape,
        _ => return None,
    };
    Some(Action::Forward { from, to, keep })
}

// The arguments of a Reverse.
#[tactic(auto, unfolding(crate::specs::Parser::arguments_of))]
fn reverse(cursor: &mut Cursor) -> Parsed<Option<Action>>
    ensures value { Gives (λ found. found) result (arguments_of [] kinds.Reverse cursor.old) }
    ensures later { OnOk result (cursor.new.later ≡ cursor.old.later) }
{
    cursor.mark(b'(')?;
    let from = next_number(cursor, b',')?;
    let to = next_number(cursor, b',')?;
    let is_true = next_truth(cursor, b')')?;
    cursor.end()?;
    Ok(reverse_said(from, to, is_true))
}

// The Reverse of these arguments.
fn reverse_said(from: u32, to: u32, is_true: bool) -> Option<Action>
    requires { to ≤ MOST_STEPS }
    ensures { result ≡ reverse_said from to is_true }
{
    if is_true && from == to + 1 {
        Some(Action::Reverse { from, to })
    } else {
        None
    }
}

// The arguments of a Copy or a Move.
#[tactic(auto, unfolding(crate::specs::Parser::image_of, crate::specs::Parser::level_next, crate::specs::Parser::target_next))]
fn image(moves: bool, cursor: &mut Cursor, book: &Book) -> Parsed<Option<Action>>
    ensures value { Gives (λ found. found) result (image_of (names_of book.now) moves cursor.old) }
    ensures later { OnOk result (cursor.new.later ≡ cursor.old.later) }
{
    cursor.mark(b'(')?;
    let n = next_number(cursor, b',')?;
    let from = before_mark(take_level(cursor, book), cursor, b',', Rule::Level)?;
    let dest = before_mark(take_target(cursor, book), cursor, b')', Rule::Level)?;
    cursor.end()?;
    Ok(Some(if moves {
        Action::Move { n, from, dest }
    } else {
        Action::Copy { n, from, dest }
    }))
}

// The brackets of an action without arguments.
#[tactic(auto, unfolding(crate::specs::Parser::brackets_of))]
fn brackets(action: Action, cursor: &mut Cursor) -> Parsed<Option<Action>>
    ensures value { Gives (λ found. found) result (brackets_of action cursor.old) }
    ensures later { OnOk result (cursor.new.later ≡ cursor.old.later) }
{
    cursor.mark(b'(')?;
    cursor.mark(b')')?;
    cursor.end()?;
    Ok(Some(action))
}

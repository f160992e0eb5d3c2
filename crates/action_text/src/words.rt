// The words of a line, and their meanings.
ghost use Rattle.level_book.specs.Prelude.{names_of};
ghost use Rattle.action_text.specs.Parser.{text_at, truth_of, level_of, target_of, place_of, kind_of, Takes};

use crate::cursor::Cursor;
use level_book::Book;
use plan_types::Dest;

// The kinds of action, by their names.
#[derive(Clone, Copy)]
pub(crate) enum Kind {
    Forward,
    Reverse,
    Copy,
    Move,
    EndForward,
    EndReverse,
}

// The last argument of a Forward: where it keeps, or nowhere.
#[derive(Clone, Copy)]
pub(crate) enum Place {
    At(Dest),
    Nowhere,
}

// Reads the next token, if it is the name of a kind of action.
#[tactic(auto, unfolding(crate::specs::Parser::kind_of))]
#[inline(always)]
pub(crate) fn take_kind(cursor: &mut Cursor) -> Option<Kind>
    ensures { Takes result (kind_of (text_at cursor.old)) cursor.old cursor.new }
{
    if cursor.take(b"Forward") {
        Some(Kind::Forward)
    } else if cursor.take(b"Reverse") {
        Some(Kind::Reverse)
    } else if cursor.take(b"Copy") {
        Some(Kind::Copy)
    } else if cursor.take(b"Move") {
        Some(Kind::Move)
    } else if cursor.take(b"EndForward") {
        Some(Kind::EndForward)
    } else if cursor.take(b"EndReverse") {
        Some(Kind::EndReverse)
    } else {
        None
    }
}

// Reads the next token, if it is a truth.
#[inline(always)]
pub(crate) fn take_truth(cursor: &mut Cursor) -> Option<bool>
    ensures { Takes result (truth_of (text_at cursor.old)) cursor.old cursor.new }
{
    if cursor.take(b"True") {
        Some(true)
    } else if cursor.take(b"False") {
        Some(false)
    } else {
        None
    }
}

// Reads the next token, if it is the name of a level. At most four names are compared with it.
#[inline(always)]
pub(crate) fn take_level(cursor: &mut Cursor, book: &Book) -> Option<u8>
    ensures { Takes result (level_of (names_of book.now) (text_at cursor.old)) cursor.old cursor.new }
{
    book.has_names();
    for k in 0..book.levels() {
        if cursor.take(book.level(k).name.bytes()) {
            return Some(k);
        }
    }
    None
}

// Reads the next token, if it is the name of a level or the work state.
#[tactic(auto, unfolding(crate::specs::Parser::target_of))]
#[inline(always)]
pub(crate) fn take_target(cursor: &mut Cursor, book: &Book) -> Option<Dest>
    ensures { Takes result (target_of (names_of book.now) (text_at cursor.old)) cursor.old cursor.new }
{
    match take_level(cursor, book) {
        Some(k) => Some(Dest::Level(k)),
        None => cursor.take(b"WORK").then_some(Dest::Work),
    }
}

// Reads the next token, if it is the name of a level, the work state or none.
#[tactic(auto, unfolding(crate::specs::Parser::place_of))]
#[inline(always)]
pub(crate) fn take_place(cursor: &mut Cursor, book: &Book) -> Option<Place>
    ensures { Takes result (place_of (names_of book.now) (text_at cursor.old)) cursor.old cursor.new }
{
    match take_target(cursor, book) {
        Some(dest) => Some(Place::At(dest)),
        None => cursor.take(b"NONE").then_some(Place::Nowhere),
    }
}

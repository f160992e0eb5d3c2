// Reads actions in their canonical spelling by bytes, several bytes at once. Where this finds none, the action may be
// spelled in another way. Then the tokens decide.
ghost use Rattle.std.specs.Prelude.{◌≡◌, ◌≤◌, List, ℕ, ◌++◌, codes, IfSome};
ghost use Rattle.plan_types.specs.declared.limits.TheConstants.{MOST_STEPS};
ghost use Rattle.level_book.specs.Prelude.{names_of};
ghost use Rattle.action_text.specs.CanonicalPrefix.{IsLevelAt, IsDestAt, IsKeepAt, IsImageAt, IsActionAt};

use crate::cursor::{behind_front, starts_run};
use crate::number::number_at;
use level_book::Book;
use plan_types::{Action, Dest, Keep};

// The image that a Copy or a Move takes, and where it goes.
struct Image {
    n: u32,
    from: u8,
    dest: Dest,
}

// The action at the front of the bytes, and the bytes after it. EndForward and EndReverse are never found here.
#[inline(always)]
pub(crate) fn action_at<'a>(bytes: &'a [u8], book: &Book) -> Option<(Action, &'a [u8])>
    ensures { IfSome result (λ x. IsActionAt (names_of book.now) bytes.now x.0 x.1.now) }
{
    if let Some(rest) = behind_eight(bytes, b"Forward(") {
        forward_at(rest, book)
    } else if let Some(rest) = behind_eight(bytes, b"Reverse(") {
        reverse_at(rest)
    } else if let Some(rest) = behind_four(bytes, b"Copy") {
        let (Image { n, from, dest }, rest) = image_at(rest, book)?;
        Some((Action::Copy { n, from, dest }, rest))
    } else if let Some(rest) = behind_four(bytes, b"Move") {
        let (Image { n, from, dest }, rest) = image_at(rest, book)?;
        Some((Action::Move { n, from, dest }, rest))
    } else {
        None
    }
}

// The Forward whose arguments are at the front.
#[inline(always)]
fn forward_at<'a>(bytes: &'a [u8], book: &Book) -> Option<(Action, &'a [u8])>
    ensures { IfSome result (λ x. IsActionAt (names_of book.now) (codes "Forward(" ++ bytes.now) x.0 x.1.now) }
{
    let (from, behind_from) = number_at(bytes)?;
    let second = behind_comma(behind_from)?;
    let (to, behind_to) = number_at(second)?;
    let (keep, rest) = keep_at(behind_to, from, to, book)?;
    Some((Action::Forward { from, to, keep }, rest))
}

// What a Forward with these numbers keeps, from its last three arguments.
#[inline(always)]
fn keep_at<'a>(bytes: &'a [u8], from: u32, to: u32, book: &Book) -> Option<(Keep, &'a [u8])>
    requires { from ≤ MOST_STEPS }
    ensures { IfSome result (λ x. IsKeepAt (names_of book.now) from to bytes.now x.0 x.1.now) }
{
    let Some(second) = behind_eight(bytes, b", False,") else {
        return store_at(bytes, book);
    };
    if let Some(third) = behind_eight(second, b" True, W") {
        let rest = behind_four(third, b"ORK)")?;
        if to != from + 1 {
            return None;
        }
        return Some((Keep::Tape, rest));
    }
    let third = behind_eight(second, b" False, ")?;
    let last = behind_four(third, b"NONE")?;
    let rest = behind_bracket(last)?;
    Some((Keep::Nothing, rest))
}

// A store, by the last three arguments of its Forward.
#[inline(always)]
fn store_at<'a>(bytes: &'a [u8], book: &Book) -> Option<(Keep, &'a [u8])>
    ensures { IfSome result (λ x. (from : ℕ) (to : ℕ) → IsKeepAt (names_of book.now) from to bytes.now x.0 x.1.now) }
{
    let second = behind_eight(bytes, b", True, ")?;
    let middle = behind_four(second, b"Fals")?;
    let comma = behind_front(middle, b"e")?;
    let place = behind_comma(comma)?;
    let (k, last) = level_at(place, book)?;
    let rest = behind_bracket(last)?;
    Some((Keep::Store(k), rest))
}

// The Reverse whose arguments are at the front.
#[inline(always)]
fn reverse_at(bytes: &[u8]) -> Option<(Action, &[u8])>
    ensures { IfSome result (λ x. (names : List (List ℕ)) → IsActionAt names (codes "Reverse(" ++ bytes.now) x.0 x.1.now) }
{
    let (from, behind_from) = number_at(bytes)?;
    let second = behind_comma(behind_from)?;
    let (to, behind_to) = number_at(second)?;
    let last = behind_four(behind_to, b", Tr")?;
    let rest = behind_front(last, b"ue)")?;
    if from != to + 1 {
        return None;
    }
    Some((Action::Reverse { from, to }, rest))
}

// The arguments of a Copy or a Move, between their brackets.
#[inline(always)]
fn image_at<'a>(bytes: &'a [u8], book: &Book) -> Option<(Image, &'a [u8])>
    ensures { IfSome result (λ x. IsImageAt (names_of book.now) bytes.now x.0.n x.0.from x.0.dest x.1.now) }
{
    let first = behind_front(bytes, b"(")?;
    let (n, behind_number) = number_at(first)?;
    let second = behind_comma(behind_number)?;
    let (from, behind_level) = level_at(second, book)?;
    let third = behind_comma(behind_level)?;
    let (dest, last) = dest_at(third, book)?;
    let rest = behind_bracket(last)?;
    Some((Image { n, from, dest }, rest))
}

// Where a Copy or a Move goes.
#[inline(always)]
fn dest_at<'a>(bytes: &'a [u8], book: &Book) -> Option<(Dest, &'a [u8])>
    ensures { IfSome result (λ x. IsDestAt (names_of book.now) bytes.now x.0 x.1.now) }
{
    if let Some(rest) = behind_four(bytes, b"WORK") {
        return Some((Dest::Work, rest));
    }
    let (k, rest) = level_at(bytes, book)?;
    Some((Dest::Level(k), rest))
}

// A level. At most four names are compared.
#[inline(always)]
fn level_at<'a>(bytes: &'a [u8], book: &Book) -> Option<(u8, &'a [u8])>
    ensures { IfSome result (λ x. IsLevelAt (names_of book.now) bytes.now x.0 x.1.now) }
{
    for k in 0..book.levels() {
        if let Some(rest) = behind_front(bytes, book.level(k).name.bytes()) {
            if !starts_run(rest) {
                return Some((k, rest));
            }
        }
    }
    None
}

// The bytes after a comma and a blank.
#[inline(always)]
fn behind_comma(bytes: &[u8]) -> Option<&[u8]>
    ensures { IfSome result (λ rest. bytes.now ≡ codes ", " ++ rest.now) }
{
    match bytes {
        [b',', b' ', rest @ ..] => Some(rest),
        _ => None,
    }
}

// The bytes after a closing bracket.
#[inline(always)]
fn behind_bracket(bytes: &[u8]) -> Option<&[u8]>
    ensures { IfSome result (λ rest. bytes.now ≡ codes ")" ++ rest.now) }
{
    match bytes {
        [b')', rest @ ..] => Some(rest),
        _ => None,
    }
}

// The bytes after these eight, which are compared at once.
#[inline(always)]
fn behind_eight<'a>(bytes: &'a [u8], word: &[u8; 8]) -> Option<&'a [u8]>
    ensures { IfSome result (λ rest. bytes.now ≡ word.now ++ rest.now) }
{
    let [a, b, c, d, e, f, g, h, rest @ ..] = bytes else {
        return None;
    };
    let front = [*a, *b, *c, *d, *e, *f, *g, *h];
    if u64::from_le_bytes(front) != u64::from_le_bytes(*word) {
        return None;
    }
    Some(rest)
}

// The bytes after these four, which are compared at once.
#[inline(always)]
fn behind_four<'a>(bytes: &'a [u8], word: &[u8; 4]) -> Option<&'a [u8]>
    ensures { IfSome result (λ rest. bytes.now ≡ word.now ++ rest.now) }
{
    let [a, b, c, d, rest @ ..] = bytes else {
        return None;
    };
    let front = [*a, *b, *c, *d];
    if u32::from_le_bytes(front) != u32::from_le_bytes(*word) {
        return None;
    }
    Some(rest)
}

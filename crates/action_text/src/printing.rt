// The canonical spelling of an action.
ghost use Rattle.std.specs.Prelude.{◌≡◌, ◌≤◌, ◌+◌, ◌++◌, length, codes, decimal};
ghost use Rattle.plan_types.specs.declared.limits.TheConstants.{MOST_STEPS};
ghost use Rattle.level_book.specs.Prelude.{names_of};
ghost use Rattle.action_text.specs.Canonical.{canonical, HasSpelling, IsLevelOf, IsKeepOf, IsDestOf, one_number, name_of, keep_text, copy_text, dest_text};

use level_book::Book;
use plan_types::{Action, Dest, Keep, Line};

/// Replaces a line by the spelling of an action, without a line end. It takes no memory.
pub fn print_action(action: &Action, book: &Book, line: &mut Line)
    requires { HasSpelling (names_of book.now) action.now }
    ensures text { line.new ≡ canonical (names_of book.now) action.now }
    ensures short { length line.new ≤ 80 }
{
    line.clear();
    match *action {
        Action::Forward { from, to, keep } => {
            push_numbers(line, b"Forward(", from, to);
            push_keep(line, keep, book);
        }
        Action::Reverse { from, to } => {
            push_numbers(line, b"Reverse(", from, to);
            line.push(b", True)");
        }
        Action::Copy { n, from, dest } => push_copy(line, b"Copy(", n, from, dest, book),
        Action::Move { n, from, dest } => push_copy(line, b"Move(", n, from, dest, book),
        Action::EndForward => line.push(b"EndForward()"),
        Action::EndReverse => line.push(b"EndReverse()"),
    }
}

// Adds a text and two numbers, with a comma between them.
fn push_numbers(line: &mut Line, before: &[u8], n: u32, m: u32)
    requires room { length line.old + length before.now ≤ 20 }
    requires numbers { (n ≤ MOST_STEPS) × (m ≤ MOST_STEPS) }
    ensures text { line.new ≡ line.old ++ before.now ++ decimal n ++ codes ", " ++ decimal m }
    ensures short { length line.new ≤ 36 }
{
    push_number(line, before, n);
    push_number(line, b", ", m);
}

// Adds a text and a number.
fn push_number(line: &mut Line, before: &[u8], n: u32)
    requires room { length line.old + length before.now ≤ 60 }
    requires number { n ≤ MOST_STEPS }
    ensures text { line.new ≡ line.old ++ before.now ++ decimal n }
    ensures short { length line.new ≤ length line.old + length before.now + 7 }
{
    line.push(before);
    line.push_decimal(u64::from(n));
}

// Adds the last arguments of a Forward.
fn push_keep(line: &mut Line, keep: Keep, book: &Book)
    requires room { length line.old ≤ 36 }
    requires level { IsKeepOf (names_of book.now) keep }
    ensures text { line.new ≡ line.old ++ keep_text (names_of book.now) keep }
    ensures short { length line.new ≤ 72 }
{
    match keep {
        Keep::Nothing => line.push(b", False, False, NONE)"),
        Keep::Store(k) => {
            push_name(line, b", True, False, ", k, book);
            line.push(b")");
        }
        Keep::Tape => line.push(b", False, True, WORK)"),
    }
}

// Adds a text and the name of a level.
fn push_name(line: &mut Line, before: &[u8], k: u8, book: &Book)
    requires room { length line.old + length before.now ≤ 60 }
    requires level { IsLevelOf (names_of book.now) k }
    ensures text { line.new ≡ line.old ++ before.now ++ name_of (names_of book.now) k }
    ensures short { length line.new ≤ length line.old + length before.now + 16 }
{
    line.push(before);
    line.push(book.level(k).name.bytes());
}

// Adds the spelling of a Copy or a Move, which begins with this text.
fn push_copy(line: &mut Line, before: &[u8], n: u32, from: u8, dest: Dest, book: &Book)
    requires room { length line.old + length before.now ≤ 5 }
    requires number { n ≤ MOST_STEPS }
    requires level { IsLevelOf (names_of book.now) from }
    requires dest { IsDestOf (names_of book.now) dest }
    ensures text { line.new ≡ line.old ++ (one_number before.now n (copy_text (names_of book.now) from dest)) }
    ensures short { length line.new ≤ 72 }
{
    push_number(line, before, n);
    push_name(line, b", ", from, book);
    push_dest(line, dest, book);
    line.push(b")");
}

// Adds where a Copy or a Move goes.
fn push_dest(line: &mut Line, dest: Dest, book: &Book)
    requires room { length line.old ≤ 40 }
    requires dest { IsDestOf (names_of book.now) dest }
    ensures text { line.new ≡ line.old ++ (codes ", " ++ dest_text (names_of book.now) dest) }
    ensures short { length line.new ≤ length line.old + 18 }
{
    match dest {
        Dest::Work => line.push(b", WORK"),
        Dest::Level(k) => push_name(line, b", ", k, book),
    }
}

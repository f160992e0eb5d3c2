// What the top call answers of its outcome: a status, and numbers for it.
ghost use Rattle.std.specs.Prelude.{◌≡◌};
ghost use Rattle.endings.specs.Endings.{ended_by, ended_at, broken_text, of_program, of_journal, of_book, of_reason};

use crate::outcome::Outcome;
use bound_cert::Reason;
use elf_load::ElfFault;
use input_journal::JournalFault;
use level_book::BookFault;
use line_texts::Fault;
use table_clauses::Entry;

/// How the top call ended. Numbers and digests that a status doesn't name are 0.
#[derive(Clone, Copy, PartialEq, Eq)]
pub struct Ended {
    /// 0 Done, 2 Words, 3 Input, 4 Program, 5 Journal, 6 Book, 7 Text, 8 Invalid, 9 Certificate. 10 Limit, 11 NoPlan,
    /// 12 Keeper, 13 Damaged, 14 Sink, 15 NotLeast. 16 NoKeeper, 17 Memory, 19 Source, 20 Script.
    pub status: u8,
    /// By status. 3: the input's number. 4 and 6: what the fault names. 5: the fault's place in bytes. 7, 9, 19 and 20:
    /// the line. 8: the action. 10: the number, or that of the input. 11: the steps. 12 to 14: the action or the order.
    /// 15, rule 4: the forward steps or the cost of the list. 16: the number of levels for rule 1, and the level for
    /// rule 2.
    pub place: u64,
    /// By status. 4, rule 7: the second segment. 7, 9, 19 and 20: the column. 8, rule 4: the level. 10: the bound that
    /// was passed. 11: the room of the book. 12 and 13: the level. 15, rule 4: the number that the list's differs from.
    /// 16: the number of keepers for rule 1, and of the keeper's slots for rule 2.
    pub more: u64,
    /// The number of the rule for 4 to 11, 15, 16, 19 and 20.
    pub rule: u16,
    /// The entry at which a certificate fails first, for rule 3 of status 15.
    pub entry: Entry,
    /// The digest of the image that was put, for 13.
    pub put: [u8; 32],
    /// The digest of the bytes that were got in its place, for 13.
    pub got: [u8; 32],
}

// The entry for statuses that don't name one.
const NO_ENTRY: Entry = Entry {
    table: 0,
    level: 0,
    free: 0,
    steps: 0,
    clause: 0,
};

// The digest for statuses that don't name one.
const NO_DIGEST: [u8; 32] = [0; 32];

// An ending by its status and its three numbers.
fn by(status: u8, place: u64, more: u64, rule: u16) -> Ended
    ensures { result ≡ ended_by status place more rule }
{
    Ended {
        status,
        place,
        more,
        rule,
        entry: NO_ENTRY,
        put: NO_DIGEST,
        got: NO_DIGEST,
    }
}

// An ending that has a status and a place alone.
fn at(status: u8, place: u64) -> Ended
    ensures { result ≡ ended_at status place }
{
    by(status, place, 0, 0)
}

impl From<Outcome> for Ended {
    ghost use Rattle.endings.specs.Endings.{ended_of};

    ghost from_gives = { λ outcome e. e ≡ ended_of outcome };

    fn from(outcome: Outcome) -> Ended {
        match outcome {
            Outcome::Done => at(0, 0),
            Outcome::Words => at(2, 0),
            Outcome::Input { place } => at(3, place),
            Outcome::Program(fault) => of_program(fault),
            Outcome::Journal(fault) => of_journal(fault),
            Outcome::Book(fault) => of_book(fault),
            Outcome::Text(fault) => broken_text(7, fault),
            Outcome::Invalid { place, level, rule } => by(8, place, level as u64, rule as u16),
            Outcome::Certificate(fault) => broken_text(9, fault),
            Outcome::Limit {
                number,
                bound,
                rule,
            } => by(10, number, bound, rule),
            Outcome::NoPlan { steps, room, rule } => by(11, steps as u64, room as u64, rule as u16),
            Outcome::Keeper { place, level } => by(12, place, level as u64, 0),
            Outcome::Damaged {
                place,
                level,
                put,
                got,
            } => Ended {
                put,
                got,
                ..by(13, place, level as u64, 0)
            },
            Outcome::Sink { place } => at(14, place),
            Outcome::NotLeast(reason) => of_reason(reason),
            Outcome::FewKeepers { levels, keepers } => by(16, levels as u64, keepers, 1),
            Outcome::SmallKeeper { level, slots } => by(16, level as u64, slots as u64, 2),
            Outcome::Memory => at(17, 0),
            Outcome::Source(fault) => broken_text(19, fault),
            Outcome::Script(fault) => broken_text(20, fault),
        }
    }
}

// The ending for a fault of a program.
fn of_program(fault: ElfFault) -> Ended
    ensures { result ≡ of_program fault }
{
    match fault {
        ElfFault::NotElf => by(4, 0, 0, 1),
        ElfFault::Class => by(4, 0, 0, 2),
        ElfFault::Kind => by(4, 0, 0, 3),
        ElfFault::Machine => by(4, 0, 0, 4),
        ElfFault::Headers => by(4, 0, 0, 5),
        ElfFault::Segment(i) => by(4, i as u64, 0, 6),
        ElfFault::Overlap(i, j) => by(4, i as u64, j as u64, 7),
        ElfFault::TooLarge(pages) => by(4, pages, 0, 8),
        ElfFault::Entry(at) => by(4, at as u64, 0, 9),
        ElfFault::Memory => at(17, 0),
        ElfFault::RawLength(length) => by(4, length, 0, 11),
    }
}

// The ending for a fault of a journal.
fn of_journal(fault: JournalFault) -> Ended
    ensures { result ≡ of_journal fault }
{
    match fault {
        JournalFault::Magic => by(5, 0, 0, 1),
        JournalFault::Version => by(5, 4, 0, 2),
        JournalFault::Truncated(at) => by(5, at, 0, 3),
        JournalFault::TooLong(at) => by(5, at, 0, 4),
        JournalFault::Trailing(at) => by(5, at, 0, 5),
        JournalFault::Memory => at(17, 0),
    }
}

// The ending for a fault of a book.
fn of_book(fault: BookFault) -> Ended
    ensures { result ≡ of_book fault }
{
    match fault {
        BookFault::NotJson => by(6, 0, 0, 1),
        BookFault::Shape(field) => by(6, field as u64, 0, 2),
        BookFault::Levels(count) => by(6, count as u64, 0, 3),
        BookFault::Name(level) => by(6, level as u64, 0, 4),
        BookFault::CostRange(level) => by(6, level as u64, 0, 5),
        BookFault::SlotRange(level) => by(6, level as u64, 0, 6),
        BookFault::CostOrder(level) => by(6, level as u64, 0, 7),
        BookFault::Memory => at(17, 0),
    }
}

// The ending by this status for a text that breaks a rule.
fn broken_text(status: u8, fault: Fault) -> Ended
    ensures { result ≡ broken_text status fault }
{
    match fault {
        Fault::At { rule, line, column } => by(status, line as u64, column as u64, rule as u16),
        Fault::Memory => at(17, 0),
    }
}

// The ending for a valid list that isn't shown to be the least.
fn of_reason(reason: Reason) -> Ended
    ensures { result ≡ of_reason reason }
{
    match reason {
        Reason::Invalid => by(15, 0, 0, 1),
        Reason::OutsideClass => by(15, 0, 0, 2),
        Reason::Inequality(entry) => Ended {
            entry,
            ..by(15, 0, 0, 3)
        },
        Reason::ValueDiffers { cost, value } => by(15, cost, value, 4),
        Reason::WrongShape => by(15, 0, 0, 5),
    }
}

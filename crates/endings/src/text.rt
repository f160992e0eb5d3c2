// The text of an ending.
ghost use Rattle.std.specs.Prelude.{◌≡◌, ◌+◌, ◌≤◌, ◌++◌, length, codes, decimal};
ghost use Rattle.endings.specs.Texts.{text_of_ended, entry_text, digests_text, status_name, table_name};

use crate::ended::Ended;
use plan_types::Line;
use state_image::push_digest;

/// Replaces a line by the text of an ending. For status 0 it is empty. Otherwise it is `reversal: `, the status with
/// its name, the place, the further number and the rule. The entry follows for rule 3 of status 15, and the two digests
/// for status 13. It takes no memory.
pub fn ended_text(ended: &Ended, line: &mut Line)
    ensures { line.new ≡ text_of_ended ended.now }
{
    line.clear();
    if ended.status == 0 {
        return;
    }
    line.push(b"reversal:");
    push_number(line, ended.status as u64);
    line.push(b" ");
    line.push(name_of(ended.status));
    push_number(line, ended.place);
    push_number(line, ended.more);
    push_number(line, ended.rule as u64);
    push_entry(line, ended);
    push_digests(line, ended);
}

// Adds a space and a number.
fn push_number(line: &mut Line, n: u64)
    requires { length line.old ≤ 400 }
    ensures text { line.new ≡ line.old ++ codes " " ++ decimal n }
    ensures room { length line.new ≤ length line.old + 21 }
{
    line.push(b" ");
    line.push_decimal(n);
}

// Adds the entry of rule 3 of status 15.
fn push_entry(line: &mut Line, ended: &Ended)
    requires { length line.old ≤ 120 }
    ensures text { line.new ≡ line.old ++ entry_text ended.now }
    ensures room { length line.new ≤ length line.old + 120 }
{
    if ended.status == 15 && ended.rule == 3 {
        line.push(b" entry ");
        line.push(table_name(ended.entry.table));
        push_number(line, ended.entry.level as u64);
        push_number(line, ended.entry.free as u64);
        push_number(line, ended.entry.steps as u64);
        push_number(line, ended.entry.clause as u64);
    }
}

// The name of a table of a certificate.
fn table_name(table: u8) -> &'static [u8]
    ensures name { result.now ≡ table_name table }
    ensures short { length result.now ≤ 6 }
{
    match table {
        0 => b"F",
        1 => b"H",
        2 => b"Fd",
        3 => b"Hd",
        _ => b"places",
    }
}

// Adds the digests of status 13.
fn push_digests(line: &mut Line, ended: &Ended)
    requires { length line.old ≤ 300 }
    ensures { line.new ≡ line.old ++ digests_text ended.now }
{
    if ended.status == 13 {
        line.push(b" put");
        push_digest(line, &ended.put);
        line.push(b" got");
        push_digest(line, &ended.got);
    }
}

fn name_of(status: u8) -> &'static [u8]
    ensures name { result.now ≡ status_name status }
    ensures short { length result.now ≤ 11 }
{
    match status {
        2 => b"Words",
        3 => b"Input",
        4 => b"Program",
        5 => b"Journal",
        6 => b"Book",
        7 => b"Text",
        8 => b"Invalid",
        9 => b"Certificate",
        10 => b"Limit",
        11 => b"NoPlan",
        12 => b"Keeper",
        13 => b"Damaged",
        14 => b"Sink",
        15 => b"NotLeast",
        16 => b"NoKeeper",
        17 => b"Memory",
        19 => b"Source",
        20 => b"Script",
        _ => b"Done",
    }
}

// Texts that are read as lists of actions.
ghost use Rattle.std.specs.Prelude.{◌≡◌, ◌≢◌, ◌⊎◌, ◌<◌, ◌^◌, List, length, MatchResult, IfOk, IfErr};
ghost use Rattle.plan_types.specs.declared.action.Action.{Action};
ghost use Rattle.line_texts.specs.declared.fault.Fault.{Fault};
ghost use Rattle.line_texts.specs.Prelude.{GivesUnlessMemory};
ghost use Rattle.level_book.specs.Prelude.{names_of};
ghost use Rattle.action_text.specs.ScheduleText.{IsSchedule};
ghost use Rattle.action_text.specs.Faults.{HasFirstFault};
ghost use Rattle.action_text.specs.Parser.{reading};

use crate::cursor::Cursor;
use crate::line::line;
use level_book::Book;
use line_texts::{Fault, push_found};
use plan_types::{Action, MOST_ACTIONS};
use std::alloc::Global;

// The estimated bytes of a line, for reserving room. It may be too little.
const LINE_LENGTH: usize = 24;

/// Reads the actions that a text means, in one pass. It takes memory for the list. The rules of a fault are 1 NotAction,
/// 2 Number, 3 Level, 4 Profile and 5 TooMany.
pub fn read_actions(alloc: Global, bytes: &[u8], book: &Book) -> Result<Vec<Action>, Fault>
    requires { length bytes.now < 2 ^ 31 }
    // The text means the list that is read. A text that means a list is read, unless memory runs out.
    ensures found { IfOk result (λ list. IsSchedule (names_of book.now) bytes.now list.items) }
    ensures only { (list : List Action) → IsSchedule (names_of book.now) bytes.now list →
        MatchResult result (λ v. v.items ≡ list) (λ e. e ≡ Fault.Memory) }

    // A refusal has the first fault. Bytes with a fault are refused for it, unless memory runs out.
    ensures refused { IfErr result (λ e. e ≢ Fault.Memory → HasFirstFault (names_of book.now) bytes.now e) }
    ensures first { (e : Fault) → HasFirstFault (names_of book.now) bytes.now e →
        MatchResult result (λ _. ⊥) (λ answer. (answer ≡ e) ⊎ (answer ≡ Fault.Memory)) }
{
    book.has_names();
    read_lines(alloc, bytes, book)
}

#[tactic(auto, unfolding(crate::specs::Parser::reading))]
fn read_lines(alloc: Global, bytes: &[u8], book: &Book) -> Result<Vec<Action>, Fault>
    requires { length bytes.now < 2 ^ 31 }
    ensures { GivesUnlessMemory (λ list. list.items) result (reading (names_of book.now) bytes.now) }
{
    let room = (bytes.len() / LINE_LENGTH).min(MOST_ACTIONS);
    let mut list = Vec::with_capacity(alloc, room)?;
    let mut cursor = Cursor::new(bytes);
    let mut number = 1;
    'lines: loop {
        let full = list.len() == MOST_ACTIONS;
        let found = match line(&mut cursor, book, full) {
            Ok(found) => found,
            Err(fault) => return Err(fault.at(number)),
        };
        push_found(&mut list, found)?;
        if !cursor.next_line() {
            return Ok(list);
        }
        number += 1;
    }
}

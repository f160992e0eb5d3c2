// The list of H-Revolve for a book, read from its tables.
ghost use Rattle.std.specs.Prelude.{◌≡◌, ◌≢◌, ◌↔◌, ◌<◌, true, length, IfOk, IfErr, OnOk};
ghost use Rattle.level_book.specs.Prelude.{slots_of, cost, Nested, number, never, top_entry};
ghost use Rattle.cost_tables.specs.Prelude.{AreGreatestFor, tables_in};
ghost use Rattle.hrevolve_gen.specs.HRevolveList.{IsWritten};
ghost use Rattle.hrevolve_gen.specs.Plans.{HasNestedPlan, IsFault};
ghost use Rattle.hrevolve_gen.specs.ReadableTables.{CanRead};

use crate::stretch::Stretch;
use crate::writing::write_fresh;
use cost_tables::laws::greatest_is_exact;
use cost_tables::{Cost, Tables};
use level_book::Book;
use plan_types::Action;
use revolve_gen::{GenFault, Planned};
use std::alloc::{AllocError, Global};

/// The list read from the tables that were built for so many steps and a book.
pub fn hrevolve_list(
    alloc: Global,
    tables: &Tables,
    steps: u32,
    book: &Book,
) -> Planned<Vec<Action>>
    requires { AreGreatestFor steps book.now tables.now }
    ensures list { IfOk result (λ list. IsWritten steps book.now (tables_in tables.now) list.items) }
    ensures nested { IfOk result (λ list. Nested steps (slots_of book.now) list.items) }
    ensures cost { IfOk result (λ list. top_entry steps book.now (tables_in tables.now) ≡ number (cost list.items book.now)) }
    ensures plan { OnOk result (HasNestedPlan steps book.now) }
    ensures refused { IfErr result (IsFault steps book.now) }
{
    greatest_is_exact();
    book.is_within_limits();
    if !has_list(tables, book) {
        return Err(GenFault::NoPlan(1));
    }
    Ok(whole_list(alloc, tables, book)?)
}

// Whether the top entry is a number.
fn has_list(tables: &Tables, book: &Book) -> bool
    requires { CanRead book.now tables.now }
    ensures answer { result ≡ true ↔ top_entry tables.now.steps book.now (tables_in tables.now) ≢ never }
    ensures levels { 0 < length book.now.levels }
{
    let steps = tables.steps();
    let last = book.levels() - 1;
    steps == 0 || tables.fresh(last, steps, tables.room(last)) != Cost::Never
}

// The whole list, where the top entry is a number.
fn whole_list(alloc: Global, tables: &Tables, book: &Book) -> Result<Vec<Action>, AllocError>
    requires ready { CanRead book.now tables.now }
    requires number { top_entry tables.now.steps book.now (tables_in tables.now) ≢ never }
    ensures { IfOk result (λ list. IsWritten tables.now.steps book.now (tables_in tables.now) list.items) }
{
    let last = book.levels() - 1;
    let steps = tables.steps();
    let mut list = Vec::new(alloc);
    if steps == 0 {
        list.extend_from_slice(&[Action::EndForward, Action::EndReverse])?;
        return Ok(list);
    }
    let all = Stretch {
        level: last,
        first: 0,
        steps,
        free: tables.room(last),
    };
    write_fresh(&mut list, tables, book, all)?;
    list.push(Action::EndReverse)?;
    Ok(list)
}

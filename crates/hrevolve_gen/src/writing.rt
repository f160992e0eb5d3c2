// The actions of a stretch, as they are read from the tables.
ghost use Rattle.std.specs.Prelude.{◌≡◌, ◌≢◌, ◌+◌, ◌<◌, ◌≤◌, true, false, ◌++◌, length, IfOk, slice_index};
ghost use Rattle.level_book.specs.Prelude.{never};
ghost use Rattle.cost_tables.specs.Prelude.{tables_in};
ghost use Rattle.hrevolve_gen.specs.HRevolveList.{actions, one};
ghost use Rattle.hrevolve_gen.specs.ReadableTables.{IsReadable, IsMore};

use crate::entries::{is_faster_fresh, is_faster_held, split};
use crate::stretch::Stretch;
use cost_tables::Tables;
use level_book::Book;
use plan_types::{Action, Dest, Keep};
use std::alloc::AllocError;

// One step with its first state in work. The last step of all is the first that is taped.
fn write_one(list: &mut Vec<Action>, steps: u32, b: u32) -> Result<(), AllocError>
    requires { b < steps }
    ensures { IfOk result (λ _. list.new.items ≡ list.old.items ++ actions steps false 0 b one) }
{
    let tape = Action::Forward {
        from: b,
        to: b + 1,
        keep: Keep::Tape,
    };
    let reverse = Action::Reverse { from: b + 1, to: b };
    if b + 1 == steps {
        list.extend_from_slice(&[tape, Action::EndForward, reverse])
    } else {
        list.extend_from_slice(&[tape, reverse])
    }
}

/// Writes the actions of a stretch, read from tables of the book's first levels. Its first state is in work. Only a lack
/// of memory refuses it.
#[cycle(writing)]
pub fn write_fresh(
    list: &mut Vec<Action>,
    tables: &Tables,
    book: &Book,
    stretch: Stretch,
) -> Result<(), AllocError>
    requires ready { IsReadable book.now tables.now }
    requires level { stretch.level < length tables.now.rooms }
    requires steps { 1 ≤ stretch.steps }
    requires end { stretch.first + stretch.steps ≤ tables.now.steps }
    requires free { stretch.free ≤ slice_index tables.now.rooms stretch.level }
    requires number { (tables_in tables.now).fresh stretch.level stretch.steps stretch.free ≢ never }
    ensures { IfOk result (λ _.
        IsMore book.now tables.now false stretch.level stretch.first stretch.steps stretch.free list.old.items list.new.items) }
{
    if stretch.steps == 1 {
        return write_one(list, tables.steps(), stretch.first);
    }
    let own = tables.fresh(stretch.level, stretch.steps, stretch.free);
    if is_faster_fresh(tables, own, stretch.level, stretch.steps) {
        let faster = Stretch {
            level: stretch.level - 1,
            free: tables.room(stretch.level - 1),
            ..stretch
        };
        return write_fresh(list, tables, book, faster);
    }
    let some_free = 1 <= stretch.free;
    prove!(some_free);
    let write = book.level(stretch.level).write as u64;
    let free = stretch.free - 1;
    let j = split(
        tables,
        own,
        write,
        book.forward() as u64,
        stretch.level,
        stretch.steps,
        free,
    );
    list.push(Action::Forward {
        from: stretch.first,
        to: stretch.first + j,
        keep: Keep::Store(stretch.level),
    })?;
    let later = Stretch {
        first: stretch.first + j,
        steps: stretch.steps - j,
        free,
        ..stretch
    };
    write_fresh(list, tables, book, later)?;
    let earlier = Stretch {
        steps: j,
        free,
        ..stretch
    };
    write_held(list, tables, book, earlier)
}

// Writes the actions of a stretch whose first state is held on its level, beside the free slots.
#[cycle(writing)]
fn write_held(
    list: &mut Vec<Action>,
    tables: &Tables,
    book: &Book,
    stretch: Stretch,
) -> Result<(), AllocError>
    requires ready { IsReadable book.now tables.now }
    requires level { stretch.level < length tables.now.rooms }
    requires steps { 1 ≤ stretch.steps }
    requires end { stretch.first + stretch.steps ≤ tables.now.steps }
    requires free { stretch.free < slice_index tables.now.rooms stretch.level }
    ensures { IfOk result (λ _.
        IsMore book.now tables.now true stretch.level stretch.first stretch.steps stretch.free list.old.items list.new.items) }
{
    if stretch.steps == 1 {
        return list.extend_from_slice(&[
            Action::Move {
                n: stretch.first,
                from: stretch.level,
                dest: Dest::Work,
            },
            Action::Forward {
                from: stretch.first,
                to: stretch.first + 1,
                keep: Keep::Tape,
            },
            Action::Reverse {
                from: stretch.first + 1,
                to: stretch.first,
            },
        ]);
    }
    let own = tables.held(stretch.level, stretch.steps, stretch.free);
    let read = book.level(stretch.level).read as u64;
    if is_faster_held(tables, own, read, stretch.level, stretch.steps) {
        list.push(Action::Move {
            n: stretch.first,
            from: stretch.level,
            dest: Dest::Work,
        })?;
        let faster = Stretch {
            level: stretch.level - 1,
            free: tables.room(stretch.level - 1),
            ..stretch
        };
        return write_fresh(list, tables, book, faster);
    }
    let j = split(
        tables,
        own,
        read,
        book.forward() as u64,
        stretch.level,
        stretch.steps,
        stretch.free,
    );
    list.extend_from_slice(&[
        Action::Copy {
            n: stretch.first,
            from: stretch.level,
            dest: Dest::Work,
        },
        Action::Forward {
            from: stretch.first,
            to: stretch.first + j,
            keep: Keep::Nothing,
        },
    ])?;
    let later = Stretch {
        first: stretch.first + j,
        steps: stretch.steps - j,
        ..stretch
    };
    write_fresh(list, tables, book, later)?;
    let earlier = Stretch {
        steps: j,
        ..stretch
    };
    write_held(list, tables, book, earlier)
}

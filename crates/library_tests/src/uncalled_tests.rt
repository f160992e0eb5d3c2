// Public functions of the crates below that allocate and that no command calls, with ample memory.
use crate::sessions::{three, three_on};
use class_rules::in_multistage;
use cost_tables::Cost;
use disk_gen::{DiskTables, periodic_list};
use level_book::{Book, read_book};
use plan_types::Action;
use revolve_gen::revolve_list;
use std::alloc::Global;
use std::test::Fail;

#[test]
fn two_slots_keep_each_of_three_steps(rt: HostRuntime) -> Result<(), Fail> {
    let list = revolve_list(rt.alloc(), 3, &Book::plain(2))?;
    assert!(rt; list.as_slice() == three().as_slice());
    Ok(())
}

#[test]
fn tables_for_a_disk_begin_with_no_cost(rt: HostRuntime) -> Result<(), Fail> {
    let book = Book::plain(2);
    assert!(rt; DiskTables::fits(3, &book));
    let tables = DiskTables::never(rt.alloc(), 3, &book)?;
    assert!(rt; tables.steps() == 3);
    assert!(rt; tables.disk_fresh(3) == Cost::Never);
    assert!(rt; tables.disk_held(3) == Cost::Never);
    Ok(())
}

// Two levels of one slot each. The second has costs.
fn two_levels(alloc: Global) -> Result<Book, Fail> {
    let text =
        br#"{"forward":1,"reverse":1,"levels":[{"name":"RAM","slots":1,"write":0,"read":0},{"name":"DISK","slots":1,"write":2,"read":1}]}"#;
    Ok(read_book(alloc, text)?)
}

#[test]
fn lists_of_the_multistage_class_are_told_from_others(rt: HostRuntime) -> Result<(), Fail> {
    let book = two_levels(rt.alloc())?;
    assert!(rt; in_multistage(rt.alloc(), &three_on(0, 1, 1), 3, &book)?);
    assert!(rt; in_multistage(rt.alloc(), &three_on(1, 0, 0), 3, &book)?);
    assert!(rt; !in_multistage(rt.alloc(), &three_on(0, 1, 0), 3, &book)?);
    assert!(rt; !in_multistage(rt.alloc(), &three_on(0, 0, 0), 3, &book)?);
    Ok(())
}

#[test]
fn a_period_of_two_leaves_one_step_of_three_behind(rt: HostRuntime) -> Result<(), Fail> {
    let by_hand = [
        Action::store(0, 2, 1),
        Action::tape(2, 3),
        Action::EndForward,
        Action::reverse(3, 2),
        Action::take(0, 1),
        Action::store(0, 1, 0),
        Action::tape(1, 2),
        Action::reverse(2, 1),
        Action::take(0, 0),
        Action::tape(0, 1),
        Action::reverse(1, 0),
        Action::EndReverse,
    ];
    let list = periodic_list(rt.alloc(), 3, 2, &two_levels(rt.alloc())?)?;
    assert!(rt; list.as_slice() == by_hand.as_slice());
    Ok(())
}

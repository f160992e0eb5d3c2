// Whether tables show that a list costs the least of its class.
ghost use Rattle.std.specs.Prelude.{◌≡◌, IfOk};
ghost use Rattle.level_book.specs.Prelude.{top_entry, disk_top_entry};
ghost use Rattle.cost_tables.specs.Prelude.{AreFor, tables_in, value_of};
ghost use Rattle.disk_gen.specs.Prelude.{disk_tables_in};
ghost use Rattle.cert_text.specs.declared.certificate.Certificate.{Certificate};
ghost use Rattle.bound_cert.specs.ValidLists.{IsValid};
ghost use Rattle.bound_cert.specs.Verdicts.{IsVerdict, IsTopVerdict};

use crate::listed::Listed;
use crate::verdict::{CertVerdict, Class, Reason};
use class_rules::{in_disk, in_nested};
use cost_tables::{Cost, Tables};
use disk_gen::DiskTables;
use level_book::Book;
use std::alloc::{AllocError, Global};
use table_clauses::{first_broken, first_broken_disk};

// The verdict on a valid list and tables for the nested class.
pub(crate) fn weigh_nested(
    alloc: Global,
    listed: &Listed,
    tables: &Tables,
) -> Result<CertVerdict, AllocError>
    requires { IsValid listed.now }
    ensures { IfOk result (IsVerdict listed.now.list.now listed.now.steps listed.now.book.now (Certificate.Nested tables.now)) }
{
    let steps = listed.steps;
    let book = listed.book;
    if !Tables::fits(steps, book) || !tables.sized(steps, book) {
        return Ok(CertVerdict::Not(Reason::WrongShape));
    }
    if !in_nested(alloc, listed.list, steps, book)? {
        return Ok(CertVerdict::Not(Reason::OutsideClass));
    }
    if let Some(entry) = first_broken(alloc, tables, book)? {
        return Ok(CertVerdict::Not(Reason::Inequality(entry)));
    }
    let top = top_of(tables, steps, book);
    Ok(compare_top(Class::Nested, listed.cost(), top))
}

// The verdict on a valid list and tables for the disk class.
pub(crate) fn weigh_disk(
    alloc: Global,
    listed: &Listed,
    tables: &DiskTables,
) -> Result<CertVerdict, AllocError>
    requires { IsValid listed.now }
    ensures { IfOk result (IsVerdict listed.now.list.now listed.now.steps listed.now.book.now (Certificate.Disk tables.now)) }
{
    let steps = listed.steps;
    let book = listed.book;
    if !DiskTables::fits(steps, book) || !tables.sized(steps, book) {
        return Ok(CertVerdict::Not(Reason::WrongShape));
    }
    if !in_disk(alloc, listed.list, steps, book)? {
        return Ok(CertVerdict::Not(Reason::OutsideClass));
    }
    if let Some(entry) = first_broken_disk(alloc, tables, book)? {
        return Ok(CertVerdict::Not(Reason::Inequality(entry)));
    }
    let top = disk_top_of(tables, steps);
    Ok(compare_top(Class::Disk, listed.cost(), top))
}

// The top entry of tables for so many steps and a book.
fn top_of(tables: &Tables, steps: u32, book: &Book) -> Cost
    requires { AreFor steps book.now tables.now }
    ensures { value_of result ≡ top_entry steps book.now (tables_in tables.now) }
{
    if steps == 0 {
        return Cost::Number(0);
    }
    let slowest = book.levels() - 1;
    tables.fresh(slowest, steps, book.room(slowest, steps))
}

// The top entry of disk tables.
fn disk_top_of(tables: &DiskTables, steps: u32) -> Cost
    requires { tables.now.fast.steps ≡ steps }
    ensures { value_of result ≡ disk_top_entry steps (disk_tables_in tables.now) }
{
    if steps == 0 {
        return Cost::Number(0);
    }
    tables.disk_fresh(steps)
}

// The verdict on a list of this class that costs so much, by the top entry of its tables.
fn compare_top(class: Class, cost: u64, top: Cost) -> CertVerdict
    ensures { IsTopVerdict class cost (value_of top) result }
{
    let value = match top {
        Cost::Number(value) => value,
        Cost::Never => return CertVerdict::Not(Reason::ValueDiffers {
            cost,
            value: u64::MAX,
        }),
    };
    if value == cost {
        CertVerdict::Least(class)
    } else {
        CertVerdict::Not(Reason::ValueDiffers { cost, value })
    }
}

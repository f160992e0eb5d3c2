// The report of counts.
ghost use Rattle.std.specs.Prelude.{◌≡◌, ◌++◌, length, OnOk, OnErr};
ghost use Rattle.keepers.specs.Prelude.{Rose, raised, Tells, AddsPrefix, seen, AddsLines, StopsIn};
ghost use Rattle.cost_report.specs.Report.{step_lines, level_lines, report_lines, report_text};

use crate::lines::{write_count, write_level};
use cost_fold::{Counts, total};
use keepers::{Sink, SinkFault};
use level_book::Book;

/// Writes the report of counts by a book, each line in one write. It takes no memory.
pub fn report<O: Sink>(counts: &Counts, book: &Book, out: &mut O) -> Result<(), SinkFault>
    ensures ok { OnOk result (Tells (O.told out.old) (O.told out.new) (λ old new. new ≡ old ++ report_text book.now counts.now)) }
    ensures refused { OnErr result (Tells (O.told out.old) (O.told out.new) (AddsPrefix (report_text book.now counts.now))) }
    ensures calls { OnOk result (O.call_count out.new ≡ raised (O.call_count out.old) (length (report_lines book.now counts.now))) }

    // If a write fails, the lines before it were added.
    ensures stopped { OnErr result (StopsIn (report_lines book.now counts.now) (seen O.Sink out.old) (seen O.Sink out.new)) }

    // A fault is returned only if the output counts one.
    ensures quiet { OnOk result (O.fault_count out.new ≡ O.fault_count out.old) }
    ensures cause { OnErr result (Rose (O.fault_count out.old) (O.fault_count out.new)) }
{
    write_steps(counts, out)?;
    write_levels(counts, book, out)?;
    write_count(b"total ", total(counts, book), out)
}

// Writes the lines of the steps.
fn write_steps<O: Sink>(counts: &Counts, out: &mut O) -> Result<(), SinkFault>
    ensures ok { OnOk result (AddsLines (step_lines counts.now) (seen O.Sink out.old) (seen O.Sink out.new)) }
    ensures stopped { OnErr result (StopsIn (step_lines counts.now) (seen O.Sink out.old) (seen O.Sink out.new)) }
{
    write_count(b"forward ", counts.forward, out)?;
    write_count(b"taped ", counts.taped, out)?;
    write_count(b"reversed ", counts.reversed, out)
}

// Writes the lines of the levels.
fn write_levels<O: Sink>(counts: &Counts, book: &Book, out: &mut O) -> Result<(), SinkFault>
    ensures ok { OnOk result (AddsLines (level_lines book.now counts.now) (seen O.Sink out.old) (seen O.Sink out.new)) }
    ensures stopped { OnErr result (StopsIn (level_lines book.now counts.now) (seen O.Sink out.old) (seen O.Sink out.new)) }
{
    for k in 0..book.levels() {
        write_level(k, book.level(k), counts, out)?;
    }
    Ok(())
}

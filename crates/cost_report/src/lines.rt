// The lines of a report, each in one write.
ghost use Rattle.std.specs.Prelude.{◌≡◌, ◌+◌, ◌<◌, ◌≤◌, [], ◌∷◌, ◌++◌, length, decimal, OnOk, OnErr};
ghost use Rattle.keepers.specs.Prelude.{seen, AddsLines, StopsIn};
ghost use Rattle.cost_report.specs.Report.{count_line, level_line};

use cost_fold::Counts;
use keepers::{Sink, SinkFault};
use level_book::Level;
use plan_types::Line;

// Writes a line that has a word and a count.
pub(crate) fn write_count<O: Sink>(word: &[u8], n: u64, out: &mut O) -> Result<(), SinkFault>
    requires { length word.now ≤ 60 }
    ensures ok { OnOk result (AddsLines (count_line word.now n ∷ []) (seen O.Sink out.old) (seen O.Sink out.new)) }
    ensures stopped { OnErr result (StopsIn (count_line word.now n ∷ []) (seen O.Sink out.old) (seen O.Sink out.new)) }
{
    let mut line = Line::new();
    push_count(&mut line, word, n);
    end_line(line, out)
}

// Writes the line of a level.
pub(crate) fn write_level<O: Sink>(
    k: u8,
    level: &Level,
    counts: &Counts,
    out: &mut O,
) -> Result<(), SinkFault>
    requires { k < 4 }
    ensures ok { OnOk result (AddsLines (level_line counts.now (k, level.now) ∷ []) (seen O.Sink out.old) (seen O.Sink out.new)) }
    ensures stopped { OnErr result (StopsIn (level_line counts.now (k, level.now) ∷ []) (seen O.Sink out.old) (seen O.Sink out.new)) }
{
    let mut line = Line::new();
    line.push(level.name.bytes());
    push_count(&mut line, b" writes ", counts.writes[k as usize]);
    push_count(&mut line, b" reads ", counts.reads[k as usize]);
    end_line(line, out)
}

/// Adds a word and a count to a line.
pub fn push_count(line: &mut Line, word: &[u8], n: u64)
    requires { length line.old + length word.now ≤ 400 }
    ensures text { line.new ≡ line.old ++ word.now ++ decimal n }
    ensures short { length line.new ≤ length line.old + length word.now + 20 }
{
    line.push(word);
    line.push_decimal(n);
}

// Writes a line and its end, in one write.
fn end_line<O: Sink>(mut line: Line, out: &mut O) -> Result<(), SinkFault>
    requires { length line ≤ 80 }
    ensures ok { OnOk result (AddsLines ((line ++ 10 ∷ []) ∷ []) (seen O.Sink out.old) (seen O.Sink out.new)) }
    ensures stopped { OnErr result (StopsIn ((line ++ 10 ∷ []) ∷ []) (seen O.Sink out.old) (seen O.Sink out.new)) }
{
    line.push(b"\n");
    out.write(line.bytes())
}

// The canonical text of disk tables.
ghost use Rattle.std.specs.Prelude.{◌∷◌, [], OnOk, OnErr};
ghost use Rattle.keepers.specs.Prelude.{seen, AddsLines, StopsIn};
ghost use Rattle.cert_text.specs.declared.certificate.Certificate.TheVariants as certificate;
ghost use Rattle.cert_text.specs.WordLines.{row_line};
ghost use Rattle.cert_text.specs.Canonical.{pieces};
ghost use Rattle.cert_text.specs.LineWrites.{writes};
ghost use Rattle.cert_text.specs.Stretches.{column_of, disk_entries_of};

use crate::piece::Piece;
use crate::printing_rows::{print_levels, print_word, put_cost};
use crate::stretches::Stretches;
use disk_gen::DiskTables;
use keepers::{Sink, SinkFault};

// Writes disk tables.
pub(crate) fn print_disk<O: Sink>(tables: &DiskTables, out: &mut O) -> Result<(), SinkFault>
    ensures ok { OnOk result (AddsLines (pieces (certificate.Disk tables.now)) (seen O.Sink out.old)
        (seen O.Sink out.new)) }
    ensures stopped { OnErr result (StopsIn (pieces (certificate.Disk tables.now)) (seen O.Sink out.old)
        (seen O.Sink out.new)) }
{
    print_word(b"disk", out)?;
    print_levels(tables.fast(), out)?;
    print_column(Stretches::Fresh, tables, out)?;
    print_column(Stretches::Held, tables, out)?;
    print_word(b"end", out)
}

// The line of the entries over both levels for such stretches.
fn print_column<O: Sink>(
    stretches: Stretches,
    tables: &DiskTables,
    out: &mut O,
) -> Result<(), SinkFault>
    ensures ok { OnOk result (AddsLines
        (writes (row_line (column_of stretches ∷ []) tables.now.fast.steps (disk_entries_of stretches tables.now) ∷ []))
        (seen O.Sink out.old) (seen O.Sink out.new)) }
    ensures stopped { OnErr result (StopsIn
        (writes (row_line (column_of stretches ∷ []) tables.now.fast.steps (disk_entries_of stretches tables.now) ∷ []))
        (seen O.Sink out.old) (seen O.Sink out.new)) }
{
    let mut piece = Piece::new();
    piece.word(stretches.letters(), out)?;
    for l in 0..tables.steps() {
        put_cost(stretches.disk_entry(tables, l + 1), &mut piece, out)?;
    }
    piece.end(out)
}

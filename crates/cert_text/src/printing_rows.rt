// The canonical text of tables.
ghost use Rattle.std.specs.Prelude.{◌<◌, ◌≤◌, ◌∷◌, [], decimal, length, OnOk, OnErr};
ghost use Rattle.std.specs.List.{range_with_len, flat_map};
ghost use Rattle.keepers.specs.Prelude.{seen, AddsLines, StopsIn};
ghost use Rattle.cert_text.specs.declared.certificate.Certificate.TheVariants as certificate;
ghost use Rattle.cert_text.specs.WordLines.{row_line, row_lines, level_lines};
ghost use Rattle.cert_text.specs.Canonical.{pieces};
ghost use Rattle.cert_text.specs.LineWrites.{Puts, StopsAt, writes};
ghost use Rattle.cert_text.specs.Rows.{cost_word};
ghost use Rattle.cert_text.specs.Stretches.{letter_of, rows_of, entries_of};

use crate::piece::Piece;
use crate::stretches::Stretches;
use cost_tables::{Cost, Tables};
use keepers::{Sink, SinkFault};

// Writes tables over the levels of a book.
pub(crate) fn print_nested<O: Sink>(tables: &Tables, out: &mut O) -> Result<(), SinkFault>
    ensures ok { OnOk result (AddsLines (pieces (certificate.Nested tables.now)) (seen O.Sink out.old)
        (seen O.Sink out.new)) }
    ensures stopped { OnErr result (StopsIn (pieces (certificate.Nested tables.now)) (seen O.Sink out.old)
        (seen O.Sink out.new)) }
{
    print_word(b"nested", out)?;
    print_levels(tables, out)?;
    print_word(b"end", out)
}

// The lines of all levels.
pub(crate) fn print_levels<O: Sink>(tables: &Tables, out: &mut O) -> Result<(), SinkFault>
    ensures ok { OnOk result (AddsLines (writes (flat_map (level_lines tables.now) (range_with_len 0 (length tables.now.rooms))))
        (seen O.Sink out.old) (seen O.Sink out.new)) }
    ensures stopped { OnErr result (StopsIn (writes (flat_map (level_lines tables.now) (range_with_len 0 (length tables.now.rooms))))
        (seen O.Sink out.old) (seen O.Sink out.new)) }
{
    for k in 0..tables.levels() {
        print_level(k, tables, out)?;
    }
    Ok(())
}

// The lines of level k.
fn print_level<O: Sink>(k: u8, tables: &Tables, out: &mut O) -> Result<(), SinkFault>
    requires { k < length tables.now.rooms }
    ensures ok { OnOk result (AddsLines (writes (level_lines tables.now k)) (seen O.Sink out.old)
        (seen O.Sink out.new)) }
    ensures stopped { OnErr result (StopsIn (writes (level_lines tables.now k)) (seen O.Sink out.old)
        (seen O.Sink out.new)) }
{
    print_rows(Stretches::Fresh, k, tables, out)?;
    print_rows(Stretches::Held, k, tables, out)
}

// A line of one word.
pub(crate) fn print_word<O: Sink>(word: &[u8], out: &mut O) -> Result<(), SinkFault>
    requires { length word.now ≤ 20 }
    ensures ok { OnOk result (AddsLines (writes ((word.now ∷ []) ∷ [])) (seen O.Sink out.old)
        (seen O.Sink out.new)) }
    ensures stopped { OnErr result (StopsIn (writes ((word.now ∷ []) ∷ [])) (seen O.Sink out.old)
        (seen O.Sink out.new)) }
{
    let mut piece = Piece::new();
    piece.word(word, out)?;
    piece.end(out)
}

// The lines of level k for such stretches. Of those whose first state is in work, there is one more than free slots.
fn print_rows<O: Sink>(
    stretches: Stretches,
    k: u8,
    tables: &Tables,
    out: &mut O,
) -> Result<(), SinkFault>
    requires { k < length tables.now.rooms }
    ensures ok { OnOk result (AddsLines
        (writes (row_lines (letter_of stretches) k tables.now.steps (rows_of stretches tables.now k) (entries_of stretches tables.now k)))
        (seen O.Sink out.old) (seen O.Sink out.new)) }
    ensures stopped { OnErr result (StopsIn
        (writes (row_lines (letter_of stretches) k tables.now.steps (rows_of stretches tables.now k) (entries_of stretches tables.now k)))
        (seen O.Sink out.old) (seen O.Sink out.new)) }
{
    let room = tables.room(k);
    for m in 0..room {
        print_row(stretches, k, m, tables, out)?;
    }
    match stretches {
        Stretches::Fresh => print_row(stretches, k, room, tables, out),
        Stretches::Held => Ok(()),
    }
}

// The line of level k and m free slots.
fn print_row<O: Sink>(
    stretches: Stretches,
    k: u8,
    m: u32,
    tables: &Tables,
    out: &mut O,
) -> Result<(), SinkFault>
    requires k { k < length tables.now.rooms }
    requires m { m < rows_of stretches tables.now k }
    ensures ok { OnOk result (AddsLines
        (writes (row_line (letter_of stretches ∷ decimal k ∷ decimal m ∷ []) tables.now.steps (entries_of stretches tables.now k m) ∷ []))
        (seen O.Sink out.old) (seen O.Sink out.new)) }
    ensures stopped { OnErr result (StopsIn
        (writes (row_line (letter_of stretches ∷ decimal k ∷ decimal m ∷ []) tables.now.steps (entries_of stretches tables.now k m) ∷ []))
        (seen O.Sink out.old) (seen O.Sink out.new)) }
{
    let mut piece = Piece::new();
    put_head(stretches.letter(), k, m, &mut piece, out)?;
    for l in 0..tables.steps() {
        put_cost(stretches.entry(tables, k, l + 1, m), &mut piece, out)?;
    }
    piece.end(out)
}

// The words before the entries of a line.
fn put_head<O: Sink>(
    letter: &[u8],
    k: u8,
    m: u32,
    piece: &mut Piece,
    out: &mut O,
) -> Result<(), SinkFault>
    requires { length letter.now ≤ 20 }
    ensures ok { OnOk result (Puts (letter.now ∷ decimal k ∷ decimal m ∷ []) piece.old.room piece.old.text piece.new.room piece.new.text
        (seen O.Sink out.old) (seen O.Sink out.new)) }
    ensures stopped { OnErr result (StopsAt (letter.now ∷ decimal k ∷ decimal m ∷ []) piece.old.room piece.old.text
        (seen O.Sink out.old) (seen O.Sink out.new)) }
{
    piece.word(letter, out)?;
    piece.number(k as u64, out)?;
    piece.number(m as u64, out)
}

// The word of an entry.
pub(crate) fn put_cost<O: Sink>(cost: Cost, piece: &mut Piece, out: &mut O) -> Result<(), SinkFault>
    ensures ok { OnOk result (Puts (cost_word cost ∷ []) piece.old.room piece.old.text piece.new.room piece.new.text
        (seen O.Sink out.old) (seen O.Sink out.new)) }
    ensures stopped { OnErr result (StopsAt (cost_word cost ∷ []) piece.old.room piece.old.text (seen O.Sink out.old)
        (seen O.Sink out.new)) }
{
    match cost {
        Cost::Number(n) => piece.number(n, out),
        Cost::Never => piece.word(b"-", out),
    }
}

// Texts of tables over the levels of a book.
ghost use Rattle.std.specs.Prelude.{◌≡◌, ◌<◌, ◌≤◌, ◌+◌, ℕ, [], ◌∷◌, ◌++◌, length, map, codes, slice_index_or, MatchResult, IfOk};
ghost use Rattle.std.specs.List.{range_with_len, flat_map};
ghost use Rattle.cost_tables.specs.Prelude.{TablesFit};
ghost use Rattle.cert_text.specs.declared.kind.Kind.TheVariants as kind;
ghost use Rattle.cert_text.specs.Words.{texts_of};
ghost use Rattle.cert_text.specs.WordLines.{row_lines, level_lines};
ghost use Rattle.cert_text.specs.Meaning.{HasWord, HaveWords, HaveText};
ghost use Rattle.cert_text.specs.Grammar.{this_word, rows_wants};
ghost use Rattle.cert_text.specs.Faults.{IsWordFault, IsLineFault};
ghost use Rattle.cert_text.specs.ReaderState.{IsAt, IsLaterFault, IsAmong, number_of_rule, texts};
ghost use Rattle.cert_text.specs.Rows.{Reads, Keeps, wants_for};
ghost use Rattle.cert_text.specs.Stretches.{letter_of, rows_of, entries_of};

use crate::fault::Rule;
use crate::reader::Reader;
use crate::rows::{put_row, read_row};
use crate::setting::Setting;
use crate::stretches::Stretches;
use crate::words::Words;
use cost_tables::{Cost, Tables};
use line_texts::{Fault, LineFault};
use std::alloc::{AllocError, Global};

// Reads the lines of tables after the line that names them.
pub(crate) fn read_nested(reader: &mut Reader<'_>, setting: &Setting<'_>) -> Result<Tables, Fault>
    requires { TablesFit setting.now.steps setting.now.book.now }
    ensures { MatchResult result
        (λ t. HaveText setting.now.steps setting.now.book.now t
        × (map texts_of reader.old.lines ≡ flat_map (level_lines t) (range_with_len 0 (length t.rooms)) ++ (codes "end" ∷ []) ∷ []))
        (IsLaterFault kind.Nested setting.now.steps setting.now.book.now reader.old) }
{
    let Setting { alloc, steps, book } = *setting;
    let mut tables = Tables::never(alloc, steps, book)?;
    let mut row = empty_row(alloc, steps)?;
    read_levels(reader, &mut row, &mut tables)?;
    read_end(reader)?;
    tables.is_shaped();
    Ok(tables)
}

// Room for a line's entries.
pub(crate) fn empty_row(alloc: Global, steps: u32) -> Result<Vec<Cost>, AllocError>
    ensures { IfOk result (λ row. length row.items ≡ steps) }
{
    let mut row = Vec::with_capacity(alloc, steps as usize)?;
    for _ in 0..steps {
        row.push(Cost::Never)?;
    }
    Ok(row)
}

// The line that ends tables, and no line after it.
pub(crate) fn read_end(reader: &mut Reader<'_>) -> Result<(), Fault>
    ensures { MatchResult result
        (λ _. map texts_of reader.old.lines ≡ (codes "end" ∷ []) ∷ [])
        (λ fault. IsAt (IsLineFault ((this_word (codes "end") ∷ []) ∷ []) reader.old.lines reader.old.count) fault) }
{
    let line = reader.line()?;
    let mut words = Words::new(line.text, 3);
    match end_word(&mut words) {
        Ok(()) => reader.finish(),
        Err(fault) => Err(fault.at(line.number)),
    }
}

// The word of that line.
fn end_word(words: &mut Words<'_>) -> Result<(), LineFault<Rule>>
    ensures { MatchResult result
        (λ _. texts words.old.words ≡ codes "end" ∷ [])
        (λ fault. IsWordFault (this_word (codes "end") ∷ []) words.old.words words.old.end (number_of_rule fault.rule) fault.column) }
{
    words.this_word(b"end")?;
    words.finish()
}

// Reads the lines of all levels.
pub(crate) fn read_levels(
    reader: &mut Reader<'_>,
    row: &mut [Cost],
    tables: &mut Tables,
) -> Result<(), Fault>
    requires row { length row.old ≡ tables.old.steps }
    requires narrow { (k : ℕ) → k < length tables.old.rooms → slice_index_or tables.old.rooms k 0 ≤ 64 }
    ensures { MatchResult result
        (λ _. Reads (flat_map (wants_for tables.old) (range_with_len 0 (length tables.old.rooms)))
        (flat_map (level_lines tables.new) (range_with_len 0 (length tables.old.rooms))) reader.old reader.new
        × ((k : ℕ) → k < length tables.old.rooms → HaveWords tables.new k) × (tables.new.steps ≡ tables.old.steps) × (tables.new.rooms ≡ tables.old.rooms))
        (λ fault. IsAmong (flat_map (wants_for tables.old) (range_with_len 0 (length tables.old.rooms))) reader.old fault) }
{
    let levels = tables.levels();
    for k in 0..levels {
        read_rows(Stretches::Fresh, k, reader, row, tables)?;
        read_rows(Stretches::Held, k, reader, row, tables)?;
    }
    Ok(())
}

// Reads the lines of level k for such stretches.
fn read_rows(
    stretches: Stretches,
    k: u8,
    reader: &mut Reader<'_>,
    row: &mut [Cost],
    tables: &mut Tables,
) -> Result<(), Fault>
    requires k { k < length tables.old.rooms }
    requires row { length row.old ≡ tables.old.steps }
    requires narrow { slice_index_or tables.old.rooms k 0 ≤ 64 }
    ensures { MatchResult result
        (λ _. Reads (rows_wants (letter_of stretches) k tables.old.steps (rows_of stretches tables.old k))
        (row_lines (letter_of stretches) k tables.old.steps (rows_of stretches tables.old k) (entries_of stretches tables.new k)) reader.old reader.new
        × ((m l : ℕ) → m < rows_of stretches tables.old k → 1 ≤ l → l ≤ tables.old.steps → HasWord (entries_of stretches tables.new k m l))
        × Keeps stretches (λ i j n. i ≡ k) tables.old tables.new)
        (λ fault. IsAmong (rows_wants (letter_of stretches) k tables.old.steps (rows_of stretches tables.old k)) reader.old fault) }
{
    let count = stretches.rows(tables, k);
    for m in 0..count {
        read_row(stretches.letter(), k, m, reader, row)?;
        put_row(stretches, k, m, row, tables);
    }
    Ok(())
}

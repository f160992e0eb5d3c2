// Lines of entries of tables.
ghost use Rattle.std.specs.Prelude.{◌≡◌, ◌<◌, ◌+◌, ℕ, [], ◌∷◌, ◌++◌, length, map, replicate, decimal, slice_index_or, MatchResult};
ghost use Rattle.cost_tables.specs.declared.cost.Cost.{Cost};
ghost use Rattle.cost_tables.specs.Prelude.{value_of};
ghost use Rattle.cert_text.specs.Meaning.{HasWord};
ghost use Rattle.cert_text.specs.Grammar.{an_entry, row_wants};
ghost use Rattle.cert_text.specs.Faults.{FitAll, IsWordFault};
ghost use Rattle.cert_text.specs.ReaderState.{IsAmong, number_of_rule, texts};
ghost use Rattle.cert_text.specs.Rows.{Reads, Keeps, cost_word};
ghost use Rattle.cert_text.specs.Stretches.{rows_of, entries_of};

use crate::fault::Rule;
use crate::reader::Reader;
use crate::stretches::Stretches;
use crate::words::Words;
use cost_tables::{Cost, Tables};
use line_texts::{Fault, LineFault};

// Reads a line of level k and m free slots into a row.
pub(crate) fn read_row(
    letter: &[u8],
    k: u8,
    m: u32,
    reader: &mut Reader<'_>,
    row: &mut [Cost],
) -> Result<(), Fault>
    ensures { MatchResult result
        (λ _. Reads (row_wants (letter.now ∷ decimal k ∷ decimal m ∷ []) (length row.old) ∷ []) (((letter.now ∷ decimal k ∷ decimal m ∷ [])
        ++ map cost_word row.new) ∷ []) reader.old reader.new
        × ((i : ℕ) → i < length row.old → HasWord (value_of (slice_index_or row.new i Cost.Never))))
        (λ fault. IsAmong (row_wants (letter.now ∷ decimal k ∷ decimal m ∷ []) (length row.old) ∷ []) reader.old fault) }
{
    let line = reader.line()?;
    let mut words = Words::new(line.text, 3);
    match row_words(letter, k, m, &mut words, row) {
        Ok(()) => Ok(()),
        Err(fault) => Err(fault.at(line.number)),
    }
}

// The words of such a line.
fn row_words(
    letter: &[u8],
    k: u8,
    m: u32,
    words: &mut Words<'_>,
    row: &mut [Cost],
) -> Result<(), LineFault<Rule>>
    ensures { MatchResult result
        (λ _. (texts words.old.words ≡ (letter.now ∷ decimal k ∷ decimal m ∷ []) ++ map cost_word row.new)
        × FitAll (row_wants (letter.now ∷ decimal k ∷ decimal m ∷ []) (length row.old)) words.old.words × ((i : ℕ) → i < length row.old →
        HasWord (value_of (slice_index_or row.new i Cost.Never))))
        (λ fault. IsWordFault (row_wants (letter.now ∷ decimal k ∷ decimal m ∷ []) (length row.old)) words.old.words words.old.end
        (number_of_rule fault.rule) fault.column) }
{
    words.this_word(letter)?;
    words.this_number(k as u64)?;
    words.this_number(m as u64)?;
    entries(words, row)
}

// As many entries as a row has, and no word after them.
fn entries(words: &mut Words<'_>, row: &mut [Cost]) -> Result<(), LineFault<Rule>>
    ensures { MatchResult result
        (λ _. (texts words.old.words ≡ map cost_word row.new) × FitAll (replicate (length row.old) an_entry) words.old.words × ((i : ℕ) →
        i < length row.old → HasWord (value_of (slice_index_or row.new i Cost.Never))))
        (λ fault. IsWordFault (replicate (length row.old) an_entry) words.old.words words.old.end (number_of_rule fault.rule) fault.column) }
{
    for i in 0..row.len() {
        row[i] = words.entry()?;
    }
    words.finish()
}

// Reads a line of entries over both levels into a row.
pub(crate) fn read_column(
    letters: &[u8],
    reader: &mut Reader<'_>,
    row: &mut [Cost],
) -> Result<(), Fault>
    ensures { MatchResult result
        (λ _. Reads (row_wants (letters.now ∷ []) (length row.old) ∷ []) (((letters.now ∷ []) ++ map cost_word row.new) ∷ []) reader.old reader.new
        × ((i : ℕ) → i < length row.old → HasWord (value_of (slice_index_or row.new i Cost.Never))))
        (λ fault. IsAmong (row_wants (letters.now ∷ []) (length row.old) ∷ []) reader.old fault) }
{
    let line = reader.line()?;
    let mut words = Words::new(line.text, 3);
    match column_words(letters, &mut words, row) {
        Ok(()) => Ok(()),
        Err(fault) => Err(fault.at(line.number)),
    }
}

// The words of such a line.
fn column_words(
    letters: &[u8],
    words: &mut Words<'_>,
    row: &mut [Cost],
) -> Result<(), LineFault<Rule>>
    ensures { MatchResult result
        (λ _. (texts words.old.words ≡ (letters.now ∷ []) ++ map cost_word row.new)
        × FitAll (row_wants (letters.now ∷ []) (length row.old)) words.old.words × ((i : ℕ) → i < length row.old →
        HasWord (value_of (slice_index_or row.new i Cost.Never))))
        (λ fault. IsWordFault (row_wants (letters.now ∷ []) (length row.old)) words.old.words words.old.end (number_of_rule fault.rule) fault.column) }
{
    words.this_word(letters)?;
    entries(words, row)
}

// Puts a row of level k and m free slots into the tables, for such stretches.
pub(crate) fn put_row(stretches: Stretches, k: u8, m: u32, row: &[Cost], tables: &mut Tables)
    requires k { k < length tables.old.rooms }
    requires m { m < rows_of stretches tables.old k }
    requires row { length row.now ≡ tables.old.steps }
    ensures keeps { Keeps stretches (λ i j n. (i ≡ k) × (n ≡ m)) tables.old tables.new }
    ensures entries { (i : ℕ) → i < length row.now → entries_of stretches tables.new k m (i + 1) ≡ value_of (slice_index_or row.now i Cost.Never) }
{
    let steps = tables.steps();
    for i in 0..steps {
        stretches.set(tables, k, i + 1, m, row[i as usize]);
    }
}

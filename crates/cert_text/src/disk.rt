// Texts of disk tables.
ghost use Rattle.std.specs.Prelude.{◌≡◌, ◌<◌, ◌≤◌, ℕ, ◌++◌, length, map, slice_index_or, MatchResult};
ghost use Rattle.std.specs.List.{range_with_len, flat_map};
ghost use Rattle.cost_tables.specs.Prelude.{FastestTablesFit};
ghost use Rattle.cert_text.specs.declared.kind.Kind.TheVariants as kind;
ghost use Rattle.cert_text.specs.Words.{texts_of};
ghost use Rattle.cert_text.specs.WordLines.{level_lines, column_lines};
ghost use Rattle.cert_text.specs.Meaning.{HaveDiskText};
ghost use Rattle.cert_text.specs.Faults.{IsLineFault};
ghost use Rattle.cert_text.specs.ReaderState.{IsAt, IsLaterFault};
ghost use Rattle.cert_text.specs.Rows.{disk_wants, ReadsDisk};

use crate::nested::{empty_row, read_end, read_levels};
use crate::reader::Reader;
use crate::rows::read_column;
use crate::setting::Setting;
use cost_tables::{Cost, Tables};
use disk_gen::DiskTables;
use line_texts::Fault;

// Reads the lines of disk tables after the line that names them.
pub(crate) fn read_disk(reader: &mut Reader<'_>, setting: &Setting<'_>) -> Result<DiskTables, Fault>
    requires { FastestTablesFit setting.now.steps setting.now.book.now }
    ensures { MatchResult result
        (λ t. HaveDiskText setting.now.steps setting.now.book.now t
        × (map texts_of reader.old.lines ≡ flat_map (level_lines t.fast) (range_with_len 0 (length t.fast.rooms)) ++ column_lines t))
        (IsLaterFault kind.Disk setting.now.steps setting.now.book.now reader.old) }
{
    let Setting { alloc, steps, book } = *setting;
    let mut fast = Tables::never_fastest(alloc, steps, book)?;
    let mut fresh = empty_row(alloc, steps)?;
    let mut held = empty_row(alloc, steps)?;
    read_lines(reader, &mut fast, &mut fresh, &mut held)?;
    fast.is_shaped();
    Ok(DiskTables::from_parts(fast, fresh, held))
}

// Reads the lines into the tables of the fastest level and the rows of entries over both levels.
fn read_lines(
    reader: &mut Reader<'_>,
    fast: &mut Tables,
    fresh: &mut [Cost],
    held: &mut [Cost],
) -> Result<(), Fault>
    requires fresh { length fresh.old ≡ fast.old.steps }
    requires held { length held.old ≡ fast.old.steps }
    requires narrow { (k : ℕ) → k < length fast.old.rooms → slice_index_or fast.old.rooms k 0 ≤ 64 }
    ensures { MatchResult result
        (λ _. ReadsDisk reader.old fast.old fast.new fresh.new held.new)
        (λ fault. IsAt (IsLineFault (disk_wants fast.old) reader.old.lines reader.old.count) fault) }
{
    read_levels(reader, fresh, fast)?;
    read_column(b"Fd", reader, fresh)?;
    read_column(b"Hd", reader, held)?;
    read_end(reader)
}

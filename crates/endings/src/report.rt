// The report of an ending.
ghost use Rattle.std.specs.Prelude.{OnOk};
ghost use Rattle.std.specs.Io.KnownBytes.{Appends};
ghost use Rattle.endings.specs.Texts.{report_of};

use crate::ended::Ended;
use crate::text::ended_text;
use plan_types::Line;
use std::io::{self, Write};

/// Writes how a call ended to standard error: nothing for status 0, and otherwise its text and a line end.
pub fn write_report<W: Write>(err: &mut W, ended: &Ended) -> io::Result<()>
    ensures { OnOk result (Appends (W.contents err.old) (W.contents err.new) (report_of ended.now)) }
{
    if ended.status == 0 {
        return Ok(());
    }
    let mut line = Line::new();
    ended_text(ended, &mut line);
    err.write_all(line.bytes())?;
    err.write_all(b"\n")
}

// The bytes of a journal.
ghost use Rattle.std.specs.Prelude.{◌≡◌, ◌++◌, IfOk, OnOk};
ghost use Rattle.input_journal.specs.Form.{number, IsJournal};

use crate::journal::Journal;
use byteorder::{ByteOrder, LittleEndian};
use std::alloc::{AllocError, Global};

/// The canonical bytes of a journal.
pub fn write_journal(alloc: Global, journal: &Journal) -> Result<Vec<u8>, AllocError>
    ensures { IfOk result (λ bytes. IsJournal bytes.items journal.now) }
{
    let mut bytes = Vec::new(alloc);
    bytes.extend_from_slice(b"RVJL")?;
    push_number(&mut bytes, 1)?;
    push_number(&mut bytes, journal.count())?;
    for index in 0..journal.count() {
        let item = journal.item(index);
        push_number(&mut bytes, item.len() as u32)?;
        bytes.extend_from_slice(item)?;
    }
    Ok(bytes)
}

// Adds a number of four bytes.
fn push_number(bytes: &mut Vec<u8>, n: u32) -> Result<(), AllocError>
    ensures { OnOk result (bytes.new.items ≡ bytes.old.items ++ number n) }
{
    let mut field = [0; 4];
    LittleEndian::write_u32(&mut field, n);
    bytes.extend_from_slice(&field)
}

// Numbers of an ELF file.
ghost use Rattle.std.specs.Prelude.{◌≡◌, ◌+◌, ◌≤◌, length};
ghost use Rattle.elf_load.specs.Elf.{half as half_at, word as word_at};

use byteorder::{ByteOrder, LittleEndian};

/// The number of two bytes at a place.
pub(crate) fn half(file: &[u8], at: usize) -> u16
    requires { at + 2 ≤ length file.now }
    ensures { result ≡ half_at file.now at }
{
    LittleEndian::read_u16(&file[at..])
}

/// The number of four bytes at a place.
pub(crate) fn word(file: &[u8], at: usize) -> u32
    requires { at + 4 ≤ length file.now }
    ensures { result ≡ word_at file.now at }
{
    LittleEndian::read_u32(&file[at..])
}

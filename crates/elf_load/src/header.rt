// The header of an ELF file.
ghost use Rattle.std.specs.Prelude.{ℕ, ◌↔◌, ◌≤◌, length, IfOk, IfErr, IsTrue};
ghost use Rattle.elf_load.specs.Elf.{HasMagic, HasClass, HasHeaders};
ghost use Rattle.elf_load.specs.Faults.{FirstFault};
ghost use Rattle.elf_load.specs.HeaderFields.{IsHeaderOf};

use crate::fault::ElfFault;
use crate::file::{half, word};

// How many bytes a file's header has, and how many a program header.
const HEADER: usize = 52;

const PROGRAM_HEADER: u16 = 32;

// An executable file, and the machine RISC-V.
const ET_EXEC: u16 = 2;

const EM_RISCV: u16 = 243;

/// The fields of a file's header that are needed later.
#[derive(Clone, Copy)]
pub(crate) struct Header {
    /// The address of the first instruction.
    pub entry: u32,
    /// Where the program headers are in the file.
    pub offset: u32,
    /// How many program headers there are.
    pub count: u16,
}

/// Reads a file's header, if the file is ELF for the machine and has all its program headers.
pub(crate) fn read_header(file: &[u8]) -> Result<Header, ElfFault>
    ensures found { IfOk result (IsHeaderOf file.now) }
    ensures refused { IfErr result (λ fault. (stack : ℕ) → FirstFault file.now stack fault) }
{
    if !has_magic(file) {
        return Err(ElfFault::NotElf);
    }
    if !has_class(file) {
        return Err(ElfFault::Class);
    }
    if half(file, 16) != ET_EXEC {
        return Err(ElfFault::Kind);
    }
    if half(file, 18) != EM_RISCV {
        return Err(ElfFault::Machine);
    }
    if !has_headers(file) {
        return Err(ElfFault::Headers);
    }
    Ok(Header {
        entry: word(file, 24),
        offset: word(file, 28),
        count: half(file, 44),
    })
}

// Whether the file is long enough and begins with the letters of ELF.
fn has_magic(file: &[u8]) -> bool
    ensures { IsTrue result ↔ HasMagic file.now }
{
    file.len() >= HEADER && file.starts_with(b"\x7fELF")
}

// Whether the file is of 32 bits, little-endian and of version 1.
fn has_class(file: &[u8]) -> bool
    requires { 52 ≤ length file.now }
    ensures { IsTrue result ↔ HasClass file.now }
{
    file[4] == 1 && file[5] == 1 && file[6] == 1
}

// Whether there are program headers, and all of them are in the file.
fn has_headers(file: &[u8]) -> bool
    requires { 52 ≤ length file.now }
    ensures { IsTrue result ↔ HasHeaders file.now }
{
    let count = half(file, 44);
    let end = word(file, 28) as usize + PROGRAM_HEADER as usize * count as usize;
    count != 0 && half(file, 42) == PROGRAM_HEADER && end <= file.len()
}

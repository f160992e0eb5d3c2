// Why bytes are no program.

use thiserror::Error;

/// The first line of the table of faults that bytes don't meet, with numbers that say where.
#[derive(Clone, Copy, Debug, PartialEq, Eq, Error)]
pub enum ElfFault {
    /// They don't begin like an ELF file, or are fewer than 52.
    #[error("the bytes don't begin as an ELF file")]
    NotElf,
    /// The file isn't of 32 bits, little-endian and of version 1.
    #[error("the file isn't of 32 bits, little-endian and of version 1")]
    Class,
    /// It isn't an executable file.
    #[error("the file isn't executable")]
    Kind,
    /// It is for another machine than RISC-V.
    #[error("the file is for another machine")]
    Machine,
    /// There are no program headers, they aren't of 32 bytes, or they aren't all there.
    #[error("the program headers aren't there")]
    Headers,
    /// The load segment of this header has too many bytes, isn't all in the file, or reaches the stack. Too many means
    /// more than in memory.
    #[error("the segment {0} doesn't fit")]
    Segment(u32),
    /// The load segments of the headers with these indices share an address.
    #[error("the segments {0} and {1} overlap")]
    Overlap(u32, u32),
    /// So many pages would be mapped, more than 4,096.
    #[error("{0} pages are too many")]
    TooLarge(u64),
    /// This entry isn't the address of a word in a mapped page.
    #[error("the entry {0:#x} isn't a word's address in a mapped page")]
    Entry(u32),
    /// There was no memory.
    #[error("out of memory")]
    Memory,
    /// Raw words of so many bytes: there are none, or the last word isn't whole.
    #[error("{0} bytes are no whole words")]
    RawLength(u64),
}

impl ElfFault {
    ghost use Rattle.std.specs.Prelude.{◌≡◌};
    ghost use Rattle.elf_load.specs.Faults.{number_of};

    /// The number of the line of the table, 1 to 11.
    pub fn number(&self) -> u8
        ensures { result ≡ number_of self.now }
    {
        match self {
            ElfFault::NotElf => 1,
            ElfFault::Class => 2,
            ElfFault::Kind => 3,
            ElfFault::Machine => 4,
            ElfFault::Headers => 5,
            ElfFault::Segment(_) => 6,
            ElfFault::Overlap(_, _) => 7,
            ElfFault::TooLarge(_) => 8,
            ElfFault::Entry(_) => 9,
            ElfFault::Memory => 10,
            ElfFault::RawLength(_) => 11,
        }
    }
}

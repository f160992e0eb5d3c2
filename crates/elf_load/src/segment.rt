// The load segments of an ELF file.
ghost use Rattle.std.specs.Prelude.{◌≡◌, ◌↔◌, ◌⊎◌, ◌+◌, ◌≤◌, length, if◌then◌else◌, Some, None, IfOk, IfErr, OnOk, IsTrue};
ghost use Rattle.elf_load.specs.Program.{stack_start};
ghost use Rattle.elf_load.specs.Elf.{header_from, is_load, loads, AllFit};
ghost use Rattle.elf_load.specs.Faults.{FirstFault};
ghost use Rattle.elf_load.specs.HeaderFields.{IsHeaderOf, segment_of, segments_of};

use crate::fault::ElfFault;
use crate::file::word;
use crate::header::Header;
use std::alloc::Global;

// The kind of a program header that is a load segment's, and how many bytes it has.
const PT_LOAD: u32 = 1;

const SIZE: usize = 32;

/// A load segment: the index of its header, and where its bytes are in the file and in memory.
#[derive(Clone, Copy)]
pub(crate) struct Segment {
    pub index: u32,
    pub offset: u32,
    pub address: u32,
    pub file_size: u32,
    pub memory_size: u32,
}

impl Segment {
    /// The address after its last byte.
    pub(crate) fn end(&self) -> u64
        ensures { result ≡ self.now.address + self.now.memory_size }
    {
        self.address as u64 + self.memory_size as u64
    }

    // Whether it is right by itself, in a file of so many bytes and below the stack.
    fn is_sound(&self, length: usize, stack_start: u32) -> bool
        ensures { IsTrue result ↔ (self.now.file_size ≤ self.now.memory_size) × (self.now.offset + self.now.file_size ≤ length)
            × (self.now.address + self.now.memory_size ≤ stack_start) }
    {
        self.file_size <= self.memory_size
            && self.offset as u64 + self.file_size as u64 <= length as u64
            && self.end() <= stack_start as u64
    }
}

/// Reads the load segments, in the order of their headers, if all of them are right by themselves.
pub(crate) fn read_segments(
    alloc: Global,
    file: &[u8],
    header: &Header,
    stack: u32,
) -> Result<Vec<Segment>, ElfFault>
    requires header { IsHeaderOf file.now header.now }
    requires stack { stack ≤ 1024 }
    ensures segments { IfOk result (λ v. v.items ≡ segments_of file.now (loads file.now)) }
    ensures fit { OnOk result (AllFit file.now stack) }
    ensures refused { IfErr result (λ fault. (fault ≡ ElfFault.Memory) ⊎ FirstFault file.now stack fault) }
{
    let stack_start = 0xC000_0000 - 4096 * stack;
    let mut segments = Vec::new(alloc);
    for index in 0..header.count as u32 {
        let at = header.offset as usize + SIZE * index as usize;
        if let Some(segment) = segment_at(file, at, index) {
            if !segment.is_sound(file.len(), stack_start) {
                return Err(ElfFault::Segment(index));
            }
            if segments.push(segment).is_err() {
                return Err(ElfFault::Memory);
            }
        }
    }
    Ok(segments)
}

// The load segment of the program header at a place, if it is one.
fn segment_at(file: &[u8], at: usize, index: u32) -> Option<Segment>
    requires { at + 32 ≤ length file.now }
    ensures { result ≡ (if is_load (header_from file.now at) then Some (segment_of index (header_from file.now at)) else None) }
{
    let memory_size = word(file, at + 20);
    if word(file, at) != PT_LOAD || memory_size == 0 {
        return None;
    }
    Some(Segment {
        index,
        offset: word(file, at + 4),
        address: word(file, at + 8),
        file_size: word(file, at + 16),
        memory_size,
    })
}

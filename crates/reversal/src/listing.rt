// The lines of the words of a raw program.
ghost use Rattle.std.specs.Prelude.{◌≡◌, ℕ, ◌+◌, ◌≤◌, ◌%◌, ◌++◌, List, length, map, take, drop, IfOk};
ghost use Rattle.std.specs.List.{AllByRecursion};
ghost use Rattle.std.specs.Vec.{vec_len, vec_capacity};
ghost use Rattle.reversal.specs.Prelude.{write, Moment, beside, bytes_of, word_bytes, DecidesDisasm, EndsShowing, course_of, ended_line, word_pieces, IsWord, IsDecided};

use crate::job::Job;
use elf_load::ElfFault;
use endings::Outcome;
use keepers::Sink;
use plan_types::Line;
use rv_asm::disassemble;
use std::alloc::{AllocError, Global};

// How many lines are written at once, and how many bytes they have at most.
const LINES: usize = 64;

const PIECE: usize = 5_184;

/// Words, and room for the lines that are written next.
#[derive(Drop)]
pub struct Listing {
    pub words: Vec<u32>,
    pub piece: Vec<u8>,
}

impl Listing {
    /// Writes the line of each word, in pieces of sixty-four lines. It takes no memory.
    pub fn write<O: Sink>(self, out: &mut O) -> Outcome
        requires { 5184 ≤ vec_capacity self.piece }
        ensures { (other : Moment) (steps : ℕ) → EndsShowing (course_of (write (word_pieces self.words.items))) result
            (beside O.Sink other out.old steps)
            (beside O.Sink other out.new steps) }
    {
        let Listing { words, mut piece } = self;
        let mut rest = words.as_slice();
        while !rest.is_empty() {
            rest = next_piece(rest, &mut piece);
            match out.write(&piece) {
                Ok(()) => {}
                Err(_) => return Outcome::Sink { place: 0 },
            }
        }
        Outcome::Done
    }
}

// Replaces the piece by the lines of the first words, and returns the words after them.
fn next_piece<'a>(words: &'a [u32], piece: &mut Vec<u8>) -> &'a [u32]
    requires { 5184 ≤ vec_capacity piece.old }
    ensures piece { piece.new.items ≡ bytes_of (take 64 (map ended_line words.now)) }
    ensures left { result.now ≡ drop 64 words.now }
    ensures capacity { 5184 ≤ vec_capacity piece.new }
{
    piece.clear();
    let mut line = Line::new();
    let (first, rest) = words.split_at(words.len().min(LINES));
    for word in first {
        push_line(*word, &mut line, piece);
    }
    rest
}

// Adds the line of a word to the piece. It makes the line in `line`.
fn push_line(word: u32, line: &mut Line, piece: &mut Vec<u8>)
    requires { vec_len piece.old + 81 ≤ vec_capacity piece.old }
    ensures text { piece.new.items ≡ piece.old.items ++ ended_line word }
    ensures short { vec_len piece.new ≤ vec_len piece.old + 81 }
    ensures capacity { vec_capacity piece.old ≤ vec_capacity piece.new }
{
    disassemble(word, line);
    line.push(b"\n");
    piece.extend_from_slice(line.bytes()).unwrap();
}

/// The decision on a request to disassemble a raw program.
pub fn decide_disasm(alloc: Global, program: &[u8]) -> Result<Job, Outcome>
    ensures { (counts : List ℕ) → IsDecided (DecidesDisasm program.now) counts result }
{
    if program.is_empty() || program.len() % 4 != 0 {
        return Err(Outcome::from(ElfFault::RawLength(program.len() as u64)));
    }
    let words = words_in(alloc, program)?;
    let piece = Vec::with_capacity(alloc, PIECE)?;
    Ok(Job::List(Listing { words, piece }))
}

// The words of bytes. Each has its low byte first.
fn words_in(alloc: Global, program: &[u8]) -> Result<Vec<u32>, AllocError>
    requires { length program.now % 4 ≡ 0 }
    ensures bytes { IfOk result (λ words. program.now ≡ word_bytes words.items) }
    ensures small { IfOk result (λ words. AllByRecursion IsWord words.items) }
{
    let mut words = Vec::with_capacity(alloc, program.len() / 4)?;
    let mut rest = program;
    while let [a, b, c, d, later @ ..] = rest {
        words.push(u32::from_le_bytes([*a, *b, *c, *d]))?;
        rest = later;
    }
    Ok(words)
}

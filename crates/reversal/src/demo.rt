// A demonstration: a run backward of a program made from a number.
ghost use Rattle.std.specs.Prelude.{◌≡◌, ◌⊎◌, ℕ, ◌+◌, ◌*◌, ◌%◌, ◌≤◌, ◌++◌, List, [], length, Option, decimal, MatchOption, IfOk, IfErr, OnOk};
ghost use Rattle.std.specs.Int.{w32, to_le_bytes};
ghost use Rattle.plan_types.specs.declared.limits.TheConstants.{MOST_SLOTS, MOST_STEPS};
ghost use Rattle.level_book.specs.Prelude.{slots_of, total_room, plain, forward};
ghost use Rattle.revolve_gen.specs.Prelude.{HasPlan};
ghost use Rattle.rv_decode.specs.Prelude.{HasRanges, word_of};
ghost use Rattle.rv_machine.specs.Prelude.{state_number};
ghost use Rattle.elf_load.specs.Prelude.{IsRawProgram};
ghost use Rattle.reverse_runner.specs.Prelude.{begun};
ghost use Rattle.endings.specs.Prelude.{no_memory};
ghost use Rattle.sha2.specs.Sha256.{sha256};
ghost use Rattle.reversal.specs.Prelude.{IsAtStart, IsOneKeeper, BreaksWithin, demonstrate, Moment, beside, DecidesDemo, drawn, instruction_of, program, demo_list, summary_text, lines_down, IsShowable, Works, IsDecided};

use crate::job::Job;
use crate::line_hasher::LineHasher;
use cost_report::push_count;
use elf_load::load_raw;
use endings::Outcome;
use input_journal::Journal;
use keepers::{MemoryKeeper, Sink};
use level_book::Book;
use pebble_bound::least_forward;
use plan_types::Line;
use requests::Demo;
use reverse_runner::Session;
use revolve_gen::{GenFault, Revolve};
use rv_decode::{Inst, encode};
use rv_machine::{State, Steps};
use state_image::push_digest;
use std::alloc::{AllocError, Global};
use std::sync::ledger::Ledger;

// The length of the program, in bytes, and the pages of its stack.
const PROGRAM: usize = 8_192;

const STACK: u32 = 16;

// How many of the program's instructions are random.
const DRAWS: u32 = 62;

/// The decision on a request for a demonstration.
pub fn decide_demo(alloc: Global, demo: &Demo) -> Result<Job, Outcome>
    requires number { demo.now.number ≤ 4294967295 }
    requires steps { demo.now.steps ≤ MOST_STEPS }
    requires slots { demo.now.slots ≤ MOST_SLOTS }
    ensures { (counts : List ℕ) → IsDecided (DecidesDemo demo.now.number demo.now.steps demo.now.slots) counts result }
{
    let number = demo.number as u32;
    let steps = demo.steps as u32;
    let slots = demo.slots as u32;
    let room = Book::plain(slots).total_room(steps);
    if steps >= 2 && room == 0 {
        return Err(Outcome::NoPlan {
            steps,
            room,
            rule: 1,
        });
    }
    let start = start_of(alloc, number)?;
    Ok(Job::Demonstrate(Demonstration {
        number,
        start,
        steps,
        slots,
    }))
}

// The first state of the program made from a number. Its bytes are few and whole words, so only memory can run out.
fn start_of(alloc: Global, number: u32) -> Result<State, Outcome>
    ensures found { IfOk result (IsRawProgram (program number) 16) }
    ensures refused { IfErr result (λ e. e ≡ no_memory) }
{
    let bytes = program(alloc, number)?;
    match load_raw(alloc, &bytes, STACK) {
        Ok(start) => Ok(start),
        Err(_) => Err(Outcome::Memory),
    }
}

// The program made from a number.
fn program(alloc: Global, number: u32) -> Result<Vec<u8>, AllocError>
    ensures { IfOk result (λ bytes. bytes.items ≡ program number) }
{
    let mut bytes = Vec::with_capacity(alloc, PROGRAM)?;
    push_instruction(
        &mut bytes,
        &Inst::Lui {
            rd: 5,
            imm: 0x11000,
        },
    )?;
    let mut v = number;
    for _ in 0..DRAWS {
        v = drawn(v);
        push_instruction(&mut bytes, &instruction(v))?;
    }
    push_instruction(
        &mut bytes,
        &Inst::Jal {
            rd: 0,
            imm: 0xffff_ff08,
        },
    )?;
    bytes.resize(PROGRAM, 0)?;
    Ok(bytes)
}

// The random number after another one.
fn drawn(v: u32) -> u32
    ensures { result ≡ drawn v }
{
    v.wrapping_mul(1_664_525).wrapping_add(1_013_904_223)
}

// The instruction of a random number.
fn instruction(v: u32) -> Inst
    ensures instruction { result ≡ instruction_of v }
    ensures ranges { HasRanges result }
{
    let c = (8 + (v >> 14) % 8) as u8;
    let a = (8 + (v >> 8) % 8) as u8;
    let b = (8 + (v >> 11) % 8) as u8;
    let m = (v >> 17) % 2048;
    match (v >> 28) % 4 {
        0 => Inst::Addi {
            rd: c,
            rs1: a,
            imm: m,
        },
        1 => Inst::Xor {
            rd: c,
            rs1: a,
            rs2: b,
        },
        2 => Inst::Sw {
            rs1: 5,
            rs2: b,
            imm: 4 * (m % 512),
        },
        _ => Inst::Add {
            rd: c,
            rs1: a,
            rs2: b,
        },
    }
}

// Adds the word of an instruction, the lowest byte first.
fn push_instruction(bytes: &mut Vec<u8>, inst: &Inst) -> Result<(), AllocError>
    requires { HasRanges inst.now }
    ensures { OnOk result (bytes.new.items ≡ bytes.old.items ++ to_le_bytes w32 (word_of inst.now)) }
{
    bytes.extend_from_slice(&encode(inst).to_le_bytes())
}

/// A program made from a number, at its first state, and how to run it.
#[derive(Drop)]
pub struct Demonstration {
    pub number: u32,
    pub start: State,
    pub steps: u32,
    pub slots: u32,
}

impl Demonstration {
    /// Runs the program backward by Revolve's list, with images in memory, and writes a summary. If memory runs out
    /// before the first action, nothing was done.
    pub fn show<O: Sink, L: Ledger>(
        self,
        alloc: Global,
        out: &mut O,
        counter: &mut Steps<L>,
    ) -> Outcome
        requires { IsShowable self }
        ensures { (other : Moment) → ((result ≡ no_memory) × (out.new ≡ out.old) × (counter.new ≡ counter.old))
            ⊎ Works (demonstrate self.number self.start self.steps self.slots) result
            (beside O.Sink other out.old counter.old)
            (beside O.Sink other out.new counter.new) }
    {
        let Demonstration {
            number,
            start,
            steps,
            slots,
        } = self;
        let Ok(mut run) = Demonstrated::begin(alloc, start, steps, slots) else {
            return Outcome::Memory;
        };
        let Some(digest) = run.digest(counter) else {
            return Outcome::Memory;
        };
        match out.write(summary(number, steps, slots, &digest).bytes()) {
            Ok(()) => Outcome::Done,
            Err(_) => Outcome::Sink { place: 0 },
        }
    }
}

/// A demonstrated run: its session, Revolve's list, and one keeper in memory.
#[derive(Drop)]
pub struct Demonstrated {
    pub session: Session,
    pub actions: Revolve,
    pub keepers: Vec<MemoryKeeper>,
}

impl Demonstrated {
    // A run from a state at its start.
    fn begin(
        alloc: Global,
        start: State,
        steps: u32,
        slots: u32,
    ) -> Result<Demonstrated, AllocError>
        requires steps { steps ≤ MOST_STEPS }
        requires slots { slots ≤ MOST_SLOTS }
        requires plan { HasPlan steps (total_room (plain slots) steps) }
        ensures start { IfOk result IsAtStart }
        ensures session { IfOk result (λ d. d.session ≡ begun start [] 1 steps (slots_of (plain slots))) }
        ensures list { IfOk result (λ d. d.actions ≡ demo_list steps slots) }
    {
        let actions = list_of(alloc, steps, slots)?;
        let keepers = keeper_of(alloc, slots)?;
        start.is_machine_state();
        let book = Book::plain(slots);
        let session = Session::begin(alloc, start, Journal::none(alloc), steps, 1, book)?;
        Ok(Demonstrated {
            session,
            actions,
            keepers,
        })
    }

    // Performs the list, and returns the SHA-256 of the states' lines, from the last to the first. No call of the
    // keeper fails, so only memory can run out.
    fn digest<L: Ledger>(&mut self, counter: &mut Steps<L>) -> Option<[u8; 32]>
        requires { IsAtStart self.old }
        ensures { MatchOption result (BreaksWithin self.old.actions counter.old counter.new)
            (λ digest. (digest ≡ sha256 (lines_down (state_number self.old.session.work self.old.session.journal) self.old.session.situation.steps))
            × (counter.new ≡ counter.old + forward self.old.actions)) }
    {
        let mut hasher = LineHasher::new();
        while let Some(action) = self.actions.next() {
            self.session
                .perform(&action, &mut self.keepers, &mut hasher, counter)
                .ok()?;
        }
        Some(hasher.finalize())
    }
}

// Revolve's list of a demonstration.
fn list_of(alloc: Global, steps: u32, slots: u32) -> Result<Revolve, AllocError>
    requires steps { steps ≤ MOST_STEPS }
    requires slots { slots ≤ MOST_SLOTS }
    requires plan { HasPlan steps (total_room (plain slots) steps) }
    ensures { IfOk result (λ actions. actions ≡ demo_list steps slots) }
{
    match Revolve::new(alloc, steps, &Book::plain(slots)) {
        Ok(actions) => Ok(actions),
        Err(GenFault::Memory) => Err(AllocError),
        Err(GenFault::NoPlan(_)) => unreachable!(),
    }
}

// One keeper in memory, with so many slots.
fn keeper_of(alloc: Global, slots: u32) -> Result<Vec<MemoryKeeper>, AllocError>
    ensures { IfOk result (λ keepers. IsOneKeeper slots keepers.items) }
{
    let mut keepers = Vec::with_capacity(alloc, 1)?;
    keepers.push(MemoryKeeper::new(alloc, slots))?;
    Ok(keepers)
}

// The text about a run.
fn summary(number: u32, steps: u32, slots: u32, digest: &[u8; 32]) -> Line
    requires steps { steps ≤ MOST_STEPS }
    requires slots { slots ≤ MOST_SLOTS }
    requires plan { HasPlan steps (total_room (plain slots) steps) }
    ensures { result ≡ summary_text number steps slots (forward (demo_list steps slots)) digest.now }
{
    let mut line = Line::new();
    push_count(&mut line, b"demo ", number as u64);
    push_count(&mut line, b" ", steps as u64);
    push_count(&mut line, b" ", slots as u64);
    push_count(&mut line, b"\nforward ", forward_steps(steps, slots));
    push_count(&mut line, b"\nlines ", steps as u64 + 1);
    line.push(b"\nsha256");
    push_digest(&mut line, digest);
    line.push(b"\n");
    line
}

// The forward steps of the list.
fn forward_steps(steps: u32, slots: u32) -> u64
    requires steps { steps ≤ MOST_STEPS }
    requires slots { slots ≤ MOST_SLOTS }
    requires plan { HasPlan steps (total_room (plain slots) steps) }
    ensures { result ≡ forward (demo_list steps slots) }
{
    let room = Book::plain(slots).total_room(steps);
    least_forward(steps, room).unwrap()
}

// Repeats the call of a case by the program over disks in memory. Each level has its images in the files of a folder.
ghost use Rattle.std.specs.Prelude.{◌≡◌, ◌<◌, ℕ, List, [], Some, IfOk, Vec, None};
ghost use Rattle.std.specs.declared.alloc.Global.{Global as AGlobal};
ghost use Rattle.std.specs.FinMap as finmap;
ghost use Rattle.rv_machine.specs.Prelude.{IsBlankOf};
ghost use Rattle.keepers.specs.Prelude.{AnyKeeper as AnAnyKeeper, told_of, asked_of, input_faults_of, fresh};
ghost use Rattle.memory_disk.specs.declared.MemoryDisk.{MemoryDisk as AMemoryDisk};
ghost use Rattle.reverse_runner.specs.Prelude.{by_number};
ghost use Rattle.requests.specs.Prelude.{Asks, Request, words_of};
ghost use Rattle.reversal_program.specs.Prelude.{IsRun};

use crate::bytes::bytes_of;
use crate::case::{failing_call, push, words_of};
use crate::case_keeper::{CaseKeeper, seen_case_keeper};
use crate::seen::{Seen, SeenKeeper};
use case_files::CaseFault;
use keepers::{AnyKeeper, Disk, EitherKeeper, Keeper, Op};
use memory_disk::{DiskOp, MemoryDisk};
use reversal::Words;
use reversal_program::laws::levels_without_files_begin_empty;
use reversal_program::{Disks, Ran, program};
use rv_machine::Steps;
use serde_json::Value;
use std::alloc::{AllocError, Global};
use std::io::Write;
use std::sync::ledger::{Blank, Ledger};
use std::thread::Threads;

/// Calls of a disk that fail.
type Failing = Vec<(DiskOp, u64)>;

/// What the program gets: the words, a disk with the inputs, and the failing calls of each level's disk.
#[derive(Drop)]
pub struct FilesCase {
    pub alloc: Global,
    pub words: Words,
    pub inputs: MemoryDisk,
    pub failing: (Failing, Failing, Failing, Failing),
}

/// The words that name a folder for each level.
const FOLDERS: [&[u8]; 4] = [
    b"--files=0:images",
    b"--files=1:images",
    b"--files=2:more/images",
    b"--files=3:images",
];

/// The length of the prefix that names an option's level.
const FRONT: usize = 10;

/// How many slots of a level are compared.
const SLOTS: u32 = 64;

/// The case over files. None if a case flips a bit, lets a write fail, or bounds slots, rooms or the sink.
pub fn files_case_of(alloc: Global, value: &Value) -> Result<Option<FilesCase>, CaseFault> {
    let no_fails = Value::Null;
    let fails = value.get("fails").unwrap_or(&no_fails);
    let is_bounded = ["slots", "keeper_room", "room"]
        .iter()
        .any(|member| value.get(*member).is_some());
    if is_bounded || fails.get("flip").is_some() || fails.get("write").is_some() {
        return Ok(None);
    }
    Ok(Some(FilesCase {
        alloc,
        words: with_folders(alloc, words_of(alloc, value)?)?,
        inputs: inputs_of(alloc, value, fails)?,
        failing: (
            failing_of(alloc, 0, fails)?,
            failing_of(alloc, 1, fails)?,
            failing_of(alloc, 2, fails)?,
            failing_of(alloc, 3, fails)?,
        ),
    }))
}

// The words, with a folder for each level that has none.
fn with_folders(alloc: Global, words: Words) -> Result<Words, CaseFault> {
    let mut list = Vec::new(alloc);
    for folder in FOLDERS {
        let front = folder.get(..FRONT).unwrap_or(folder);
        if !words.list.iter().any(|word| word.starts_with(front)) {
            push(&mut list, Vec::from_slice(alloc, folder)?)?;
        }
    }
    for word in words.list {
        push(&mut list, word)?;
    }
    Ok(Words { list })
}

// A disk with the inputs by their names. The read with the number `input` of `fails` fails.
fn inputs_of(alloc: Global, value: &Value, fails: &Value) -> Result<MemoryDisk, CaseFault> {
    let Some(members) = value.get("inputs").and_then(Value::as_object) else {
        return Err(CaseFault::Form);
    };
    let mut disk = MemoryDisk::new(alloc);
    for (name, member) in members {
        let bytes = bytes_of(alloc, member)?;
        if disk.replace(name.as_str(), &bytes).is_err() {
            return Err(CaseFault::Memory);
        }
    }
    let mut failing = Vec::new(alloc);
    if let Some(call) = fails.get("input").and_then(Value::as_u64) {
        push(&mut failing, (DiskOp::ReadWhole, call))?;
    }
    Ok(disk.failing(failing))
}

// The call of a level's disk that fails: what the failing call of the level's keeper asks of its disk first.
fn failing_of(alloc: Global, level: u64, fails: &Value) -> Result<Failing, CaseFault> {
    let mut failing = Vec::new(alloc);
    if let Some((op, call)) = failing_call(level, fails)? {
        let asked = match op {
            Op::Put => DiskOp::Replace,
            Op::Get => DiskOp::Look,
            Op::Free => DiskOp::Remove,
        };
        push(&mut failing, (asked, call))?;
    }
    Ok(failing)
}

/// The one call of the program. Each level begins empty and claims so, as the theorem over files requires.
pub fn run_over_files<T: Threads + Sync, L: Ledger>(
    threads: &T,
    case: FilesCase,
    blank: Blank,
) -> Result<Ran<MemoryDisk, Vec<u8>>, AllocError>
    requires { IsBlankOf blank.name blank.parts L.name L.parts }
    ensures { (r : Request) → Asks (words_of case.words) r → IfOk result (λ ran. (before : List (AnAnyKeeper AMemoryDisk)) × (out : Vec ℕ AGlobal)
        × (steps : ℕ) × (steps' : ℕ) × (out.items ≡ [])
        × ((k : ℕ) → k < 4 → by_number None (told_of ⟦<MemoryDisk as Disk>⟧.told) before k ≡ Some finmap.empty)
        × IsRun ⟦<MemoryDisk as Disk>⟧.told ⟦<Vec<u8> as Write>⟧.contents (words_of case.words) (⟦<MemoryDisk as Disk>⟧.told case.inputs) []
        (asked_of ran.inputs) 0 (input_faults_of ran.inputs) before ran.keepers.items (fresh out) ran.out steps steps' ran.ended) }
{
    levels_without_files_begin_empty::<MemoryDisk>();
    let FilesCase {
        alloc,
        words,
        inputs,
        failing,
    } = case;
    let (of_zero, of_one, of_two, of_three) = failing;
    let zero = MemoryDisk::new(alloc).failing(of_zero);
    let one = MemoryDisk::new(alloc).failing(of_one);
    let two = MemoryDisk::new(alloc).failing(of_two);
    let three = MemoryDisk::new(alloc).failing(of_three);
    let disks = Disks {
        inputs,
        levels: (zero, one, two, three),
    };
    let mut steps = Steps::<L>::new(blank);
    let out = Vec::new(alloc);
    program(threads, alloc, &words, disks, out, &mut steps)
}

/// What a case sees of the program. The requested names aren't noted.
pub fn seen_of_ran(alloc: Global, ran: &Ran<MemoryDisk, Vec<u8>>) -> Result<Seen<'_>, AllocError> {
    let keepers = seen_keepers(alloc, &ran.keepers)?;
    Ok(Seen {
        ended: &ran.ended,
        written: ran.out.writer().as_slice(),
        asked: None,
        input_faults: ran.inputs.faults(),
        sink_faults: ran.out.faults(),
        keepers,
    })
}

fn seen_keepers(
    alloc: Global,
    keepers: &[AnyKeeper<MemoryDisk>],
) -> Result<Vec<SeenKeeper>, AllocError> {
    let mut list = Vec::new(alloc);
    for keeper in keepers {
        list.push(seen_keeper(keeper))?;
    }
    Ok(list)
}

fn seen_keeper(keeper: &AnyKeeper<MemoryDisk>) -> SeenKeeper {
    match keeper {
        EitherKeeper::First(keeper) => SeenKeeper::in_memory(keeper),
        EitherKeeper::Second(keeper) => SeenKeeper {
            counts: keeper.counts(),
            held: u32::try_from(keeper.disk().count()).ok(),
        },
    }
}

/// Whether the keepers of the program and of the case hold equal images in each slot.
pub fn hold_the_same(
    alloc: Global,
    in_memory: &mut [CaseKeeper],
    in_files: &mut [AnyKeeper<MemoryDisk>],
) -> bool {
    for (one, other) in in_memory.iter_mut().zip(in_files.iter_mut()) {
        if seen_case_keeper(one).held != Some(0) && !have_same_images(alloc, one, other) {
            return false;
        }
    }
    true
}

fn have_same_images<A: Keeper, B: Keeper>(alloc: Global, one: &mut A, other: &mut B) -> bool {
    let mut image = Vec::new(alloc);
    let mut found = Vec::new(alloc);
    for slot in 0..SLOTS {
        if !image_at(one, slot, u32::MAX, &mut image) {
            return false;
        }
        let most = u32::try_from(image.len())
            .unwrap_or(u32::MAX)
            .saturating_add(1);
        if !image_at(other, slot, most, &mut found) || found != image {
            return false;
        }
    }
    true
}

// Gets the image of a slot, up to so many bytes, and returns whether it did. One listed failure may still be to come,
// so it tries twice.
fn image_at<K: Keeper>(keeper: &mut K, slot: u32, most: u32, into: &mut Vec<u8>) -> bool {
    if slot >= keeper.slots() {
        return false;
    }
    keeper.get(slot, most, into).is_ok() || keeper.get(slot, most, into).is_ok()
}

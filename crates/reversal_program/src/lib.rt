//! The program over any disk and any writer. It uses `reversal`, `keepers` and crates that `reversal` uses.
//! `reversal_cli` and `reversal_calls` use it. It makes keepers, inputs and a sink from its words, and calls `reversal`
//! once. `main` calls it with the system's disk and standard output.
#![tactic(auto)]

ghost use Rattle.std.specs.Prelude.{◌≡◌, List, [], ◌∷◌, map, drop, string_bytes, IfOk, OnErr};
ghost use Rattle.keepers.specs.Prelude.{AnyKeeper as AnAnyKeeper, asked_of, input_faults_of, fresh};
ghost use Rattle.requests.specs.Prelude.{Request, words_of, Asks, levels, folder_said, folder_at};
ghost use Rattle.reversal_program.specs.LevelStart.{KeeperBegins, AllBegin};
ghost use Rattle.reversal_program.specs.Run.{IsRun};

pub mod laws;

use keepers::{AnyKeeper, Disk, FileInputs, FileKeeper, MemoryKeeper, Output, StdoutSink};
use plan_types::MOST_SLOTS;
use reversal::{Ended, KeepAt, Words, keeper_places, reversal};
use rv_machine::Steps;
use std::alloc::{AllocError, Global};
use std::sync::ledger::Ledger;
use std::thread::Threads;

/// The disks of a call: one for its inputs, and one for each level. Only that level's files are put on it.
#[derive(Drop)]
pub struct Disks<D> {
    pub inputs: D,
    pub levels: (D, D, D, D),
}

/// How a call ended, and what it left.
#[derive(Drop)]
pub struct Ran<D, W> {
    pub ended: Ended,
    pub inputs: FileInputs<D>,
    pub keepers: Vec<AnyKeeper<D>>,
    pub out: StdoutSink<W>,
}

/// Does what the words ask for, over these disks and this writer.
pub fn program<T: Threads + Sync, D: Disk + Drop, W: Output + Drop, L: Ledger>(
    threads: &T,
    alloc: Global,
    words: &Words,
    disks: Disks<D>,
    out: W,
    steps: &mut Steps<L>,
) -> Result<Ran<D, W>, AllocError>
    // Each level begins with its content: nothing in memory, or the files of its folder. The contract of the top call
    // says what is done.
    ensures done { IfOk result (λ ran. (before : List (AnAnyKeeper D))
        × ((r : Request) → Asks (words_of words.now) r → AllBegin D.told 0 (map (λ level. folder_said level r.options) levels)
        (disks.levels.0 ∷ disks.levels.1 ∷ disks.levels.2 ∷ disks.levels.3 ∷ []) before)
        × IsRun D.told W.contents (words_of words.now) (D.told disks.inputs) [] (asked_of ran.inputs) 0 (input_faults_of ran.inputs)
        before ran.keepers.items (fresh out) ran.out steps.old steps.new ran.ended) }
    // If there is no memory for the keepers, nothing was done.
    ensures idle { OnErr result (steps.new ≡ steps.old) }
{
    let mut keepers = keepers(alloc, words, disks.levels)?;
    let mut inputs = FileInputs::new(disks.inputs, alloc);
    let mut out = StdoutSink::new(out);
    let ended = reversal(
        threads,
        alloc,
        words,
        &mut inputs,
        &mut keepers,
        &mut out,
        steps,
    );
    Ok(Ran {
        ended,
        inputs,
        keepers,
        out,
    })
}

/// The words of a command line: the arguments without the first one, which names the program.
pub fn words_of_arguments(alloc: Global, arguments: &[String]) -> Result<Words, AllocError>
    ensures { IfOk result (λ words. words_of words ≡ map (λ argument. string_bytes argument) (drop 1 arguments.now)) }
{
    let behind_name = match arguments.split_first() {
        Some((_name, rest)) => rest,
        None => arguments,
    };
    Ok(Words {
        list: bytes_of(alloc, behind_name)?,
    })
}

// The bytes of each argument.
fn bytes_of(alloc: Global, texts: &[String]) -> Result<Vec<Vec<u8>>, AllocError>
    ensures { IfOk result (λ list. map (λ word. word.items) list.items ≡ map (λ text. string_bytes text) texts.now) }
{
    let mut list = Vec::with_capacity(alloc, texts.len())?;
    for text in texts {
        list.push(Vec::from_slice(alloc, text.as_bytes())?)?;
    }
    Ok(list)
}

// A keeper for each level, at the place that the words name.
fn keepers<D: Disk + Drop>(
    alloc: Global,
    words: &Words,
    disks: (D, D, D, D),
) -> Result<Vec<AnyKeeper<D>>, AllocError>
    ensures { (r : Request) → Asks (words_of words.now) r →
        IfOk result (λ list. AllBegin D.told 0 (map (λ level. folder_said level r.options) levels) (disks.0 ∷ disks.1 ∷ disks.2 ∷ disks.3 ∷ []) list.items) }
{
    let places = keeper_places(words);
    let (zero, one, two, three) = disks;
    let mut keepers = Vec::with_capacity(alloc, 4)?;
    keepers.push(keeper_for(alloc, words, 0, places[0], zero)?)?;
    keepers.push(keeper_for(alloc, words, 1, places[1], one)?)?;
    keepers.push(keeper_for(alloc, words, 2, places[2], two)?)?;
    keepers.push(keeper_for(alloc, words, 3, places[3], three)?)?;
    Ok(keepers)
}

// The keeper of a level with images at this place, with as many slots as any level has.
fn keeper_for<D: Disk + Drop>(
    alloc: Global,
    words: &Words,
    level: u8,
    place: KeepAt,
    disk: D,
) -> Result<AnyKeeper<D>, AllocError>
    ensures { IfOk result (KeeperBegins D.told level (folder_at (words_of words.now) place) disk) }
{
    let Some(folder) = place.folder(words) else {
        return Ok(AnyKeeper::First(MemoryKeeper::new(alloc, MOST_SLOTS)));
    };
    let folder = Vec::from_slice(alloc, folder)?;
    Ok(AnyKeeper::Second(FileKeeper::new(disk, alloc, folder, level, MOST_SLOTS)))
}

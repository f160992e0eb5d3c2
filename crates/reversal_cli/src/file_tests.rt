// Runs of the program over files of the system, and where the words place them. The cases of `reversal_calls` cover
// objects in memory.
ghost use Rattle.std.specs.Prelude.{◌≡◌, ◌<◌};
ghost use Rattle.rv_machine.specs.Prelude.{IsBlankOf};

use crate::disks;
use keepers::SystemDisk;
use plan_types::Line;
use reversal::{KeepAt, Words, ended_text, keeper_places};
use reversal_program::{Ran, program};
use rv_machine::Steps;
use std::alloc::{AllocError, Global};
use std::fs;
use std::marker::Brand;
use std::sync::ledger::{Blank, Ledger};
use std::test::Fail;
use std::thread::Threads;

// ADDI x10, x0, 7 · ADDI x5, x0, 1 · ADDI x6, x5, 2 · ADDI x17, x0, 93
const PROGRAM: &[u8] = b"\x13\x05\x70\x00\x93\x02\x10\x00\x13\x83\x22\x00\x93\x08\xd0\x05";

const BOOK: &[u8] =
    b"{\"forward\":1,\"reverse\":1,\"levels\":[{\"name\":\"RAM\",\"slots\":2,\"write\":0,\"read\":0},{\"name\":\"DISK\",\"slots\":1,\"write\":1,\"read\":1}]}";

// A schedule for one step that leaves the image of state 0 on the second level.
const LEAVING: &[u8] = b"Forward(0, 1, True, False, DISK)
EndForward()
Copy(0, DISK, WORK)
Forward(0, 1, False, True, WORK)
Reverse(1, 0, True)
EndReverse()
";

// The numbers and pcs of the program's states, from the last to the first.
const LINES: [&[u8]; 5] = [
    b"4 00010010 ",
    b"3 0001000c ",
    b"2 00010008 ",
    b"1 00010004 ",
    b"0 00010000 ",
];

/// The program over files of the system, with a writer in memory.
pub(crate) type RanOverFiles = Ran<SystemDisk<HostRuntime>, Vec<u8>>;

// The words of a line, with a space between them.
fn words_of(alloc: Global, line: &str) -> Result<Words, AllocError> {
    let mut list = Vec::new(alloc);
    for word in line.split(' ') {
        list.push(Vec::from_slice(alloc, word.as_bytes())?)?;
    }
    Ok(Words { list })
}

// The outcome of the words over files of the system.
fn run_words<T: Threads + Sync, L: Ledger>(
    threads: &T,
    rt: &HostRuntime,
    words: &Words,
    blank: Blank,
) -> Result<RanOverFiles, Fail>
    requires { IsBlankOf blank.name blank.parts L.name L.parts }
{
    let disks = disks(rt)?;
    let mut steps = Steps::<L>::new(blank);
    let out = Vec::new(rt.alloc());
    Ok(program(threads, rt.alloc(), words, disks, out, &mut steps)?)
}

/// Runs the program by the words of a line, without the count of its steps. The files of these names, with these bytes,
/// are there only meanwhile.
pub(crate) fn ran<T: Threads + Sync>(
    threads: &T,
    rt: &HostRuntime,
    files: &[(&str, &[u8])],
    line: &str,
) -> Result<RanOverFiles, Fail> {
    for &(name, bytes) in files {
        fs::write(rt, name, bytes)?;
    }
    let words = words_of(rt.alloc(), line)?;
    let ran = run_words::<T, Brand>(threads, rt, &words, Blank::new(1))?;
    for &(name, _) in files {
        fs::remove_file(rt, name)?;
    }
    Ok(ran)
}

#[test]
fn a_run_over_files_writes_its_lines_and_leaves_no_file(rt: HostRuntime) -> Result<(), Fail> {
    fs::create_dir(&rt, "images")?;
    let files = [("images.bin", PROGRAM), ("images.json", BOOK)];
    let line = "--raw --files=0:images --files=1:images run images.bin - images.json @revolve 4";
    let ran = ran(&rt, &rt, &files, line)?;
    assert_eq!(rt; ran.ended.status, 0);
    let lines = ran.out.writer().split(|byte| *byte == b'\n');
    for (line, begins) in lines.zip(LINES) {
        assert!(rt; line.starts_with(begins));
    }
    // Only an empty folder can be removed so.
    fs::remove_dir(&rt, "images")?;
    Ok(())
}

#[test]
fn a_run_leaves_the_image_of_its_schedule_in_the_folder(rt: HostRuntime) -> Result<(), Fail> {
    fs::create_dir(&rt, "kept")?;
    let files = [
        ("kept.bin", PROGRAM),
        ("kept.json", BOOK),
        ("kept.txt", LEAVING),
    ];
    let line = "--raw --files=1:kept run kept.bin - kept.json kept.txt 1";
    let ran = ran(&rt, &rt, &files, line)?;
    assert_eq!(rt; ran.ended.status, 0);
    let image = fs::read(&rt, "kept/level1-slot0.img")?;
    assert!(rt; !image.is_empty());
    fs::remove_file(&rt, "kept/level1-slot0.img")?;
    fs::remove_dir(&rt, "kept")?;
    Ok(())
}

#[test]
fn a_folder_that_is_not_there_fails_at_the_first_store(rt: HostRuntime) -> Result<(), Fail> {
    let files = [("nowhere.bin", PROGRAM), ("nowhere.json", BOOK)];
    let line = "--raw --files=0:nowhere run nowhere.bin - nowhere.json @revolve 4";
    let ran = ran(&rt, &rt, &files, line)?;
    let mut line = Line::new();
    ended_text(&ran.ended, &mut line);
    assert_eq!(rt; line.bytes(), b"reversal: 12 Keeper 1 0 0".as_slice());
    assert!(rt; ran.out.writer().is_empty());
    Ok(())
}

const M: KeepAt = KeepAt::Memory;

// The place of a folder that this word names.
fn folder(word: u32) -> KeepAt {
    KeepAt::Folder { word, start: 10 }
}

#[test]
fn places_are_those_of_the_folders_names(rt: HostRuntime) -> Result<(), Fail> {
    let table: [(&str, [KeepAt; 4]); 5] = [
        ("--raw --stack=2 check b s 1", [M, M, M, M]),
        (
            "--files=3:d --raw --files=1:b --stack=2 --files=0:a --files=2:c check b s 1",
            [folder(5), folder(3), folder(6), folder(1)],
        ),
        ("--files=0:a --files=0:b check b s 1", [M, M, M, M]),
        ("--files=0:a --files=4:b check b s 1", [M, M, M, M]),
        ("--files=0:a check b s 1000001", [M, M, M, M]),
    ];
    for (line, places) in table {
        let words = words_of(rt.alloc(), line)?;
        assert_eq!(rt; keeper_places(&words), places, "{line}");
    }
    Ok(())
}

// What keepers and inputs do to files of the system, which no contract covers. Tested are sizes at the pieces of a
// read, names without a file, and non-files as slots.
ghost use Rattle.std.specs.Prelude.{◌≡◌, ◌<◌};

use keepers::{
    FileInputs, FileKeeper, InputFault, Inputs, KeepFault, Keeper, Output, Sink, SinkFault,
    StdoutSink, SystemDisk, Whole,
};
use std::alloc::{AllocError, Global};
use std::io::{ErrorKind, Write};
use std::os::unix::fs::symlink;
use std::test::Fail;
use std::{fs, io};

// Calls of a keeper. Each returns whether it did as it should.
fn puts<K: Keeper>(keeper: &mut K, slot: u32, image: &[u8]) -> bool
    requires { slot < K.slot_count keeper.old }
    ensures { K.slot_count keeper.new ≡ K.slot_count keeper.old }
{
    keeper.put(slot, image).is_ok()
}

fn gives<K: Keeper>(keeper: &mut K, slot: u32, len: u32, image: &[u8], into: &mut Vec<u8>) -> bool
    requires { slot < K.slot_count keeper.old }
    ensures { K.slot_count keeper.new ≡ K.slot_count keeper.old }
{
    keeper.get(slot, len, into).is_ok() && into.as_slice() == image
}

fn frees<K: Keeper>(keeper: &mut K, slot: u32) -> bool
    requires { slot < K.slot_count keeper.old }
    ensures { K.slot_count keeper.new ≡ K.slot_count keeper.old }
{
    keeper.free(slot).is_ok()
}

fn fails<K: Keeper>(keeper: &mut K, slot: u32, into: &mut Vec<u8>) -> bool
    requires { slot < K.slot_count keeper.old }
    ensures { K.slot_count keeper.new ≡ K.slot_count keeper.old }
{
    keeper.put(slot, b"new") == Err(KeepFault::Failed)
        && keeper.get(slot, 9, into) == Err(KeepFault::Failed)
        && keeper.free(slot) == Err(KeepFault::Failed)
}

// So many bytes in which no two pieces are equal.
fn bytes(alloc: Global, count: u32) -> Result<Vec<u8>, AllocError> {
    (0..count).map(|i| (i % 251) as u8).collect(alloc)
}

// The size of a file, a limit, and whether the whole file is read.
const SIZES: &[(u32, u32, Whole)] = &[
    (0, 0, Whole::All),
    (0, 8, Whole::All),
    (1, 0, Whole::Longer),
    (8, 8, Whole::All),
    (9, 8, Whole::Longer),
    (65_536, 65_536, Whole::All),
    (65_537, 65_536, Whole::Longer),
    (65_537, 65_537, Whole::All),
    (200_000, 200_000, Whole::All),
    (200_000, u32::MAX, Whole::All),
    (200_001, 200_000, Whole::Longer),
];

#[test]
fn reads_files_of_no_piece_and_of_several_up_to_their_limits(rt: HostRuntime) -> Result<(), Fail> {
    let mut into = Vec::from_slice(rt.alloc(), b"what was there before")?;
    let mut inputs = FileInputs::new(SystemDisk::new(rt.clone()?), rt.alloc());
    for (size, limit, want) in SIZES {
        let file = bytes(rt.alloc(), *size)?;
        fs::write(&rt, "pieces.bin", &file)?;
        let outcome = inputs.read(b"pieces.bin", *limit, &mut into);
        assert_eq!(rt; outcome, Ok(*want), "{size} bytes, at most {limit}");
        if *want == Whole::All {
            assert!(rt; into.as_slice() == file.as_slice(), "{size} bytes");
        }
    }
    assert_eq!(rt; inputs.faults(), 0);
    fs::remove_file(&rt, "pieces.bin")?;
    Ok(())
}

#[test]
fn names_that_are_no_file_are_faults(rt: HostRuntime) -> Result<(), Fail> {
    let mut into = Vec::new(rt.alloc());
    let mut inputs = FileInputs::new(SystemDisk::new(rt.clone()?), rt.alloc());
    let names = [
        b"\xff\xfe is no text, \xc3 neither".as_slice(),
        b"name.txt\xc3".as_slice(),
        b"no/such/folder/word.txt".as_slice(),
        b".".as_slice(),
        b"".as_slice(),
    ];
    for (i, name) in names.iter().enumerate() {
        assert_eq!(rt;
            inputs.read(name, 8, &mut into),
            Err(InputFault::Failed),
            "name {i}"
        );
        assert_eq!(rt; inputs.faults(), i as u64 + 1);
    }
    Ok(())
}

#[test]
fn each_slot_is_a_file_of_the_folder(rt: HostRuntime) -> Result<(), Fail> {
    fs::create_dir(&rt, "slots")?;
    let mut into = Vec::from_slice(rt.alloc(), b"slots")?;
    let mut keeper = FileKeeper::new(
        SystemDisk::new(rt.clone()?),
        rt.alloc(),
        into.clone()?,
        1,
        12,
    );
    assert!(rt; puts(&mut keeper, 11, b"first and long"));
    assert!(rt; puts(&mut keeper, 11, b"second"));
    let file = fs::read(&rt, "slots/level1-slot11.img")?;
    assert_eq!(rt; file.as_slice(), b"second".as_slice());
    assert!(rt; gives(&mut keeper, 11, 3, b"sec", &mut into));
    assert!(rt; gives(&mut keeper, 11, 9, b"second", &mut into));
    assert!(rt; frees(&mut keeper, 11));
    assert!(rt; gives(&mut keeper, 11, 9, b"", &mut into));
    assert!(rt; frees(&mut keeper, 11), "an empty slot");
    assert_eq!(rt; keeper.counts().faults, 0);
    fs::remove_dir(&rt, "slots")?;
    Ok(())
}

#[test]
fn what_is_no_file_is_left_as_it_is(rt: HostRuntime) -> Result<(), Fail> {
    fs::create_dir(&rt, "links")?;
    fs::create_dir(&rt, "links/level2-slot0.img")?;
    fs::write(&rt, "elsewhere.txt", "elsewhere")?;
    symlink(&rt, "../elsewhere.txt", "links/level2-slot1.img")?;
    let mut into = Vec::from_slice(rt.alloc(), b"links")?;
    let mut keeper = FileKeeper::new(
        SystemDisk::new(rt.clone()?),
        rt.alloc(),
        into.clone()?,
        2,
        2,
    );
    assert!(rt; fails(&mut keeper, 0, &mut into), "a folder");
    assert!(rt; fails(&mut keeper, 1, &mut into), "a link");
    assert_eq!(rt; keeper.counts().faults, 6);
    let elsewhere = fs::read(&rt, "elsewhere.txt")?;
    assert_eq!(rt; elsewhere.as_slice(), b"elsewhere".as_slice());
    fs::remove_file(&rt, "elsewhere.txt")?;
    fs::remove_dir_all(&rt, "links")?;
    Ok(())
}

// Errors of the system other than a missing file: a file instead of the folder, a link to itself, a long name.
#[test]
fn a_folder_that_cannot_be_looked_into_is_a_fault(rt: HostRuntime) -> Result<(), Fail> {
    fs::write(&rt, "no-folder.txt", "a file")?;
    symlink(&rt, "itself", "itself")?;
    let long = [b'x'; 300];
    let mut into = Vec::new(rt.alloc());
    for folder in [b"no-folder.txt".as_slice(), b"itself", &long] {
        let folder = Vec::from_slice(rt.alloc(), folder)?;
        let disk = SystemDisk::new(rt.clone()?);
        let mut keeper = FileKeeper::new(disk, rt.alloc(), folder, 0, 1);
        assert!(rt; fails(&mut keeper, 0, &mut into));
        assert_eq!(rt; keeper.counts().faults, 3);
    }
    fs::remove_file(&rt, "no-folder.txt")?;
    fs::remove_file(&rt, "itself")?;
    Ok(())
}

// Takes bytes, but fails to flush them.
#[derive(Drop)]
struct Unflushed;

impl Write for Unflushed {
    fn write(&mut self, buf: &[u8]) -> io::Result<usize> {
        Ok(buf.len())
    }

    fn flush(&mut self) -> io::Result<()> {
        Err(io::Error::from(ErrorKind::StorageFull))
    }
}

impl Output for Unflushed {
    ghost use Rattle.std.specs.Prelude.{false, refl};

    ghost tells = { false };

    ghost steady = { λ _. refl };
}

#[test]
fn a_piece_that_is_not_flushed_is_a_fault_of_the_sink(rt: HostRuntime) -> Result<(), Fail> {
    let mut sink = StdoutSink::new(Unflushed);
    assert_eq!(rt; sink.write(b"piece"), Err(SinkFault::Failed));
    assert_eq!(rt; sink.faults(), 1);
    Ok(())
}

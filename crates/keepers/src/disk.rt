// The files of a system, by their paths.
ghost use Rattle.std.specs.Prelude.{◌≡◌, ◌⊎◌, ℕ, ◌<◌, ◌≤◌, List, length, take, Option, Some, Ok, is_some, IfOk, IsSomeAnd, OnOk, OnErr};
ghost use Rattle.std.specs.Vec.{vec_len, vec_capacity};
ghost use Rattle.std.specs.FinMap as finmap;
ghost use Rattle.keepers.specs.DiskFaults.{FailsOnlyWhere, IsAbsent};
ghost use Rattle.keepers.specs.Claims.{Files, Tells, WhereTold, SameButNamed, Begins, bytes_in};

use crate::inputs::Whole;
use crate::transfer::{read_first, read_whole, write_whole};
use std::fs::File;
use std::io::ErrorKind;
use std::rt::Files;
use std::{fs, io};

/// The files of a system by their paths, which are UTF-8, for keepers and inputs.
pub trait Disk {
    /// The files, for a disk that claims to know them.
    ghost told: { Self → Option Files };
    /// Whether a call on the file at a path may fail, other than for lack of memory.
    ghost may_fail: { Self → List ℕ → Type 0 };

    /// Whether there is a file at a path. Anything else there, such as a folder or a symbolic link, is an error.
    fn is_there(&self, path: &str) -> io::Result<bool>
        ensures there { IfOk result (λ there. WhereTold (told self.now) (λ files. there ≡ is_some (finmap.get files path.now))) }
        ensures cause { FailsOnlyWhere result (may_fail self.now path.now) };

    /// Reads a file until the room is full or the file ends, and returns how many bytes it read.
    fn read_first(&self, path: &str, room: &mut [u8]) -> io::Result<usize>
        ensures fits { IfOk result (λ count. count ≤ length room.old) }
        ensures bytes { IfOk result (λ count. WhereTold (told self.now) (λ files. take count room.new ≡ take (length room.old) (bytes_in files path.now))) }
        ensures cause { FailsOnlyWhere result (may_fail self.now path.now ⊎ IsAbsent (told self.now) path.now) };

    /// Reads a file into `into`, replacing what was there, a piece at a time. It stops soon after `limit` bytes.
    fn read_whole(&self, path: &str, limit: u32, into: &mut Vec<u8>) -> io::Result<Whole>
        ensures all { result ≡ Ok Whole.All → WhereTold (told self.now) (λ files. finmap.get files path.now ≡ Some into.new.items) }
        ensures longer { result ≡ Ok Whole.Longer → WhereTold (told self.now) (λ files. IsSomeAnd (finmap.get files path.now) (λ bytes. limit < length bytes)) }
        ensures begun { WhereTold (told self.now) (λ files. Begins into.new.items (bytes_in files path.now)) }
        ensures within { vec_len into.new ≤ limit }
        ensures reserved { vec_capacity into.old ≤ vec_capacity into.new }
        ensures cause { FailsOnlyWhere result (may_fail self.now path.now ⊎ IsAbsent (told self.now) path.now) };

    /// Makes a file anew, replacing an old one. After a refusal it may have any bytes, or not exist.
    fn replace(&mut self, path: &str, bytes: &[u8]) -> io::Result<()>
        ensures ok { OnOk result (Tells (told self.old) (told self.new) (λ old new. new ≡ finmap.insert old path.now bytes.now)) }
        ensures refused { OnErr result (Tells (told self.old) (told self.new) (SameButNamed path.now)) }
        ensures cause { FailsOnlyWhere result (may_fail self.old path.now) };

    /// Removes a file, if there is one. After a refusal it may be there or not.
    fn remove(&mut self, path: &str) -> io::Result<()>
        ensures ok { OnOk result (Tells (told self.old) (told self.new) (λ old new. new ≡ finmap.remove old path.now)) }
        ensures refused { OnErr result (Tells (told self.old) (told self.new) (λ old new. (new ≡ old) ⊎ (new ≡ finmap.remove old path.now))) }
        ensures cause { FailsOnlyWhere result (may_fail self.old path.now) };
}

/// The files of the system that a handle gives. Its contracts claim nothing of their content. What `Disk` says of each
/// call is trusted here. A call opens, makes or removes the file at its path, and passes its room or bytes on.
#[derive(Drop)]
pub struct SystemDisk<R> {
    rt: R,
}

impl<R: Files> SystemDisk<R> {
    /// Touches no file.
    pub fn new(rt: R) -> Self {
        Self { rt }
    }
}

impl<R: Files> Disk for SystemDisk<R> {
    ghost use Rattle.std.specs.Prelude.{None};

    ghost told = { λ _. None };

    ghost may_fail = { λ _ _. Unit {0} };

    fn is_there(&self, path: &str) -> io::Result<bool> {
        match fs::symlink_metadata(&self.rt, path) {
            Ok(found) if found.is_file() => Ok(true),
            Ok(_) => Err(io::Error::from(ErrorKind::InvalidInput)),
            Err(error) if error.kind() == ErrorKind::NotFound => Ok(false),
            Err(error) => Err(error),
        }
    }

    fn read_first(&self, path: &str, room: &mut [u8]) -> io::Result<usize> {
        read_first(&mut fs::open(&self.rt, path)?, room)
    }

    fn read_whole(&self, path: &str, limit: u32, into: &mut Vec<u8>) -> io::Result<Whole> {
        into.clear();
        read_whole(&mut fs::open(&self.rt, path)?, limit, into)
    }

    // The file is always new, so no link is written through.
    fn replace(&mut self, path: &str, bytes: &[u8]) -> io::Result<()> {
        self.remove(path)?;
        write_whole(&mut File::create_new(&self.rt, path)?, bytes)
    }

    fn remove(&mut self, path: &str) -> io::Result<()> {
        if self.is_there(path)? {
            fs::remove_file(&self.rt, path)?;
        }
        Ok(())
    }
}

//! A disk in memory, for tests. It uses `keepers`. `reversal_calls` uses it. It claims its files, so the contract of a
//! run over it covers their bytes.
#![tactic(auto)]

ghost use Rattle.std.specs.Prelude.{◌≡◌, ◌≢◌, ℕ, List, [], None, Some, MatchOption, OnOk, OnErr};
ghost use Rattle.std.specs.FinMap as finmap;
ghost use Rattle.keepers.specs.Prelude.{FailsOnlyWhere};
ghost use Rattle.memory_disk.specs.Changes.{after_change, files_after};

use keepers::{Disk, Whole};
use std::alloc::Global;
use std::cell::Cell;
use std::io;
use std::io::ErrorKind;

/// A file that was made or removed.
#[derive(Drop)]
pub struct Change {
    pub name: Vec<u8>,
    pub bytes: Option<Vec<u8>>,
}

/// A kind of call that may be made to fail.
#[derive(Clone, Copy, PartialEq, Eq)]
pub enum DiskOp {
    /// To read a whole file.
    ReadWhole,
    /// To ask whether a file is there.
    Look,
    /// To make a file anew.
    Replace,
    /// To remove a file.
    Remove,
}

/// Files in memory, as the changes that made them, the newest first.
#[derive(Drop)]
pub struct MemoryDisk {
    alloc: Global,
    changes: Vec<Change>,
    failing: Vec<(DiskOp, u64)>,
    reads: Cell<u64>,
    looks: Cell<u64>,
    replaces: Cell<u64>,
    removes: Cell<u64>,
}

impl MemoryDisk {
    /// Has no file, and takes no memory.
    pub fn new(alloc: Global) -> Self
        ensures told { ⟦<MemoryDisk as Disk>⟧.told result ≡ Some finmap.empty }
        ensures quiet { (path : List ℕ) → ⟦<MemoryDisk as Disk>⟧.may_fail result path → ⊥ }
    {
        Self {
            alloc,
            changes: Vec::new(alloc),
            failing: Vec::new(alloc),
            reads: Cell::new(0),
            looks: Cell::new(0),
            replaces: Cell::new(0),
            removes: Cell::new(0),
        }
    }

    /// Lets the listed calls fail, and then change nothing. The calls of each kind are counted from 1.
    pub fn failing(self, list: Vec<(DiskOp, u64)>) -> Self
        ensures told { ⟦<MemoryDisk as Disk>⟧.told result ≡ ⟦<MemoryDisk as Disk>⟧.told self }
        ensures quiet { (path : List ℕ) → list.items ≡ [] → ⟦<MemoryDisk as Disk>⟧.may_fail result path → ⊥ }
    {
        Self {
            failing: list,
            ..self
        }
    }

    /// How many files it has.
    pub fn count(&self) -> usize {
        let mut count = 0;
        for (place, change) in self.changes.iter().enumerate() {
            let newer = &self.changes[..place];
            if change.bytes.is_some() && !newer.iter().any(|other| other.name == change.name) {
                count += 1;
            }
        }
        count
    }

    // Counts a call, which fails where it is listed.
    fn call(&self, op: DiskOp) -> io::Result<()>
        ensures { FailsOnlyWhere result (self.now.failing.items ≢ []) }
    {
        let counter = match op {
            DiskOp::ReadWhole => &self.reads,
            DiskOp::Look => &self.looks,
            DiskOp::Replace => &self.replaces,
            DiskOp::Remove => &self.removes,
        };
        counter.set(counter.get().saturating_add(1));
        if self.failing.contains(&(op, counter.get())) {
            return Err(io::Error::from(ErrorKind::Other));
        }
        Ok(())
    }

    fn find(&self, name: &[u8]) -> Option<&[u8]>
        ensures { MatchOption result (finmap.get (files_after self.now.changes.items) name.now ≡ None)
            (λ bytes. finmap.get (files_after self.now.changes.items) name.now ≡ Some bytes.now) }
    {
        for change in &self.changes {
            if change.name.as_slice() == name {
                return match &change.bytes {
                    Some(bytes) => Some(bytes.as_slice()),
                    None => None,
                };
            }
        }
        None
    }

    fn add(&mut self, name: &[u8], bytes: Option<Vec<u8>>) -> io::Result<()>
        ensures ok { OnOk result (files_after self.new.changes.items ≡ after_change name.now bytes (files_after self.old.changes.items)) }
        ensures err { OnErr result (files_after self.new.changes.items ≡ files_after self.old.changes.items) }
        ensures memory { FailsOnlyWhere result ⊥ }
    {
        let name = Vec::from_slice(self.alloc, name)?;
        if self.changes.insert(0, Change { name, bytes }).is_err() {
            return Err(io::Error::from(ErrorKind::OutOfMemory));
        }
        Ok(())
    }
}

impl Disk for MemoryDisk {
    ghost use Rattle.std.specs.Prelude.{◌≢◌, [], Some};
    ghost use Rattle.memory_disk.specs.Changes.{files_after};

    ghost told = { λ d. Some (files_after d.changes.items) };

    ghost may_fail = { λ d _. d.failing.items ≢ [] };

    fn is_there(&self, path: &str) -> io::Result<bool> {
        self.call(DiskOp::Look)?;
        Ok(self.find(path.as_bytes()).is_some())
    }

    fn read_first(&self, path: &str, room: &mut [u8]) -> io::Result<usize> {
        let Some(bytes) = self.find(path.as_bytes()) else {
            return Err(io::Error::from(ErrorKind::NotFound));
        };
        let count = bytes.len().min(room.len());
        room[..count].copy_from_slice(&bytes[..count]);
        Ok(count)
    }

    fn read_whole(&self, path: &str, limit: u32, into: &mut Vec<u8>) -> io::Result<Whole> {
        into.clear();
        self.call(DiskOp::ReadWhole)?;
        let Some(bytes) = self.find(path.as_bytes()) else {
            return Err(io::Error::from(ErrorKind::NotFound));
        };
        if bytes.len() > limit as usize {
            return Ok(Whole::Longer);
        }
        into.extend_from_slice(bytes)?;
        Ok(Whole::All)
    }

    fn replace(&mut self, path: &str, bytes: &[u8]) -> io::Result<()> {
        self.call(DiskOp::Replace)?;
        let bytes = Vec::from_slice(self.alloc, bytes)?;
        self.add(path.as_bytes(), Some(bytes))
    }

    fn remove(&mut self, path: &str) -> io::Result<()> {
        self.call(DiskOp::Remove)?;
        self.add(path.as_bytes(), None)
    }
}

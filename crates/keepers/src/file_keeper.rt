// A keeper whose images are files.
ghost use Rattle.std.specs.Prelude.{◌≡◌, ◌⊎◌, ◌<◌, ◌≤◌, take, IfOk, OnOk, OnErr, string_bytes};
ghost use Rattle.std.specs.Vec.{vec_len, vec_capacity};
ghost use Rattle.std.specs.Option.{option_map};
ghost use Rattle.std.specs.FinMap as finmap;
ghost use Rattle.keepers.specs.Calls.{counts_of};
ghost use Rattle.keepers.specs.DiskFaults.{FailsOnlyWhere, NamesNoFolder};
ghost use Rattle.keepers.specs.SlotFiles.{folder_of, level_of, disk_of, path_of, level_images, images_told, MayFail, IsFilePut, IsFileGet, IsFileFree};
ghost use Rattle.keepers.specs.Claims.{Tells, WhereTold, SameButAt, SameButNamed, image_in, bytes_in};

use crate::disk::Disk;
use crate::faults::keep_fault;
use crate::keeper::{KeepFault, Keeper};
use crate::storage::{CallCounts, Storage};
use std::alloc::Global;
use std::io;
use std::io::ErrorKind;

/// Keeps the images of a level in a folder, which must exist. Each slot has a file, named `level` level `-slot` slot
/// `.img`.
///
/// If a folder, a symbolic link or anything else is there, the call fails and leaves it. A put always makes a new file,
/// so it never writes through a link. A folder whose name is empty or isn't UTF-8 makes each call fail.
#[derive(Drop)]
pub struct FileKeeper<D> {
    disk: D,
    alloc: Global,
    folder: Vec<u8>,
    level: u8,
    slots: u32,
    counts: CallCounts,
}

impl<D: Disk> FileKeeper<D> {
    /// Keeps them in files of this disk. It touches no file, and takes no memory.
    pub fn new(disk: D, alloc: Global, folder: Vec<u8>, level: u8, slots: u32) -> Self
        ensures disk { disk_of result ≡ disk }
        ensures folder { folder_of result ≡ folder.items }
        ensures level { level_of result ≡ level }
        ensures told { ⟦<FileKeeper<D> as Storage>⟧.told result ≡ option_map (level_images folder.items level slots) (D.told disk) }
        ensures slots { ⟦<FileKeeper<D> as Storage>⟧.slot_count result ≡ slots }
        ensures puts { ⟦<FileKeeper<D> as Storage>⟧.put_count result ≡ 0 }
        ensures gets { ⟦<FileKeeper<D> as Storage>⟧.get_count result ≡ 0 }
        ensures frees { ⟦<FileKeeper<D> as Storage>⟧.free_count result ≡ 0 }
        ensures faults { ⟦<FileKeeper<D> as Storage>⟧.fault_count result ≡ 0 }
    {
        Self {
            disk,
            alloc,
            folder,
            level,
            slots,
            counts: CallCounts::NONE,
        }
    }

    /// The disk that has its files.
    pub fn disk(&self) -> &D
        ensures { result.now ≡ disk_of self.now }
    {
        &self.disk
    }

    /// How often it was called, and how often a call failed.
    pub fn counts(&self) -> CallCounts
        ensures { result ≡ counts_of ⟦<FileKeeper<D> as Storage>⟧ self.now }
    {
        self.counts
    }

    // The path of a slot's file.
    fn path(&self, slot: u32) -> io::Result<String>
        ensures path { IfOk result (λ path. string_bytes path ≡ path_of self.now slot) }
        ensures cause { FailsOnlyWhere result (NamesNoFolder (folder_of self.now)) }
    {
        let Ok(folder) = str::from_utf8(self.folder.as_slice()) else {
            return Err(io::Error::from(ErrorKind::InvalidInput));
        };
        if folder.is_empty() {
            return Err(io::Error::from(ErrorKind::InvalidInput));
        }
        let level = self.level;
        let path = format!(in self.alloc; "{folder}/level{level}-slot{slot}.img")?;
        Ok(path)
    }

    // Writes an image into the file of a slot, replacing what was there.
    fn put_file(&mut self, slot: u32, image: &[u8]) -> io::Result<()>
        ensures written { OnOk result (Tells (D.told self.old.disk) (D.told self.new.disk)
            (λ old new. new ≡ finmap.insert old (path_of self.old slot) image.now)) }
        ensures others { OnErr result (Tells (D.told self.old.disk) (D.told self.new.disk) (SameButNamed (path_of self.old slot))) }
        ensures rest { self.new ≡ record self.old { disk = self.new.disk } }
        ensures cause { FailsOnlyWhere result (MayFail D.may_fail self.old slot) }
    {
        let path = self.path(slot)?;
        self.disk.replace(path.as_str(), image)
    }

    // Reads the first bytes of the file of a slot, replacing what was in `into`.
    fn get_file(&self, slot: u32, len: u32, into: &mut Vec<u8>) -> io::Result<()>
        ensures bytes { OnOk result (WhereTold (D.told self.now.disk) (λ files. into.new.items ≡ take len (bytes_in files (path_of self.now slot)))) }
        ensures short { OnOk result (vec_len into.new ≤ len) }
        ensures reserved { vec_capacity into.old ≤ vec_capacity into.new }
        ensures cause { FailsOnlyWhere result (MayFail D.may_fail self.now slot) }
    {
        into.clear();
        let path = self.path(slot)?;
        if !self.disk.is_there(path.as_str())? {
            return Ok(());
        }
        into.resize(len as usize, 0)?;
        let count = self.disk.read_first(path.as_str(), into.as_mut_slice())?;
        into.truncate(count);
        Ok(())
    }

    // Removes the file of a slot, if there is one.
    fn free_file(&mut self, slot: u32) -> io::Result<()>
        ensures removed { OnOk result (Tells (D.told self.old.disk) (D.told self.new.disk) (λ old new. new ≡ finmap.remove old (path_of self.old slot))) }
        ensures left { OnErr result (Tells (D.told self.old.disk) (D.told self.new.disk) (λ old new. (new ≡ old)
            ⊎ (new ≡ finmap.remove old (path_of self.old slot)))) }
        ensures rest { self.new ≡ record self.old { disk = self.new.disk } }
        ensures cause { FailsOnlyWhere result (MayFail D.may_fail self.old slot) }
    {
        let path = self.path(slot)?;
        self.disk.remove(path.as_str())
    }
}

// It claims the images in the files of its slots, if the disk claims its files.
impl<D: Disk> Storage for FileKeeper<D> {
    ghost use Rattle.std.specs.Prelude.{None, Some};
    ghost use Rattle.keepers.specs.SlotFiles.{folder_of, level_of, images_told};

    ghost told = { images_told D.told };

    ghost slot_count = { λ k. k.slots };

    ghost put_count = { λ k. k.counts.puts };

    ghost get_count = { λ k. k.counts.gets };

    ghost free_count = { λ k. k.counts.frees };

    ghost fault_count = { λ k. k.counts.faults };

    ghost room_bytes = { λ _. None };

    ghost place = { λ k. Some (folder_of k, level_of k) };
}

// Further clauses say what a call does to its files.
impl<D: Disk> Keeper for FileKeeper<D> {
    ghost use Rattle.keepers.specs.SlotFiles.{IsFilePut, IsFileGet, IsFileFree};

    ghost put_does = { λ old slot image answer new. IsFilePut D.told D.may_fail slot image answer old new };

    ghost get_does = { λ old slot len bytes answer new. IsFileGet D.told D.may_fail slot len bytes answer old new };

    ghost free_does = { λ old slot answer new. IsFileFree D.told D.may_fail slot answer old new };

    fn slots(&self) -> u32 {
        self.slots
    }

    fn put(&mut self, slot: u32, image: &[u8]) -> Result<(), KeepFault>
        requires { slot < self.old.slots }
        ensures ok { OnOk result (Tells (images_told D.told self.old) (images_told D.told self.new) (λ old new. new ≡ finmap.insert old slot image.now)) }
        ensures refused { OnErr result (Tells (images_told D.told self.old) (images_told D.told self.new) (SameButAt slot)) }
        ensures later { self.old.counts.faults ≤ self.new.counts.faults }
        ensures does { IsFilePut D.told D.may_fail slot image.now result self.old self.new }
    {
        let slots = self.slots;
        prove!(slot < slots);
        self.counts.puts = self.counts.puts.saturating_add(1);
        match self.put_file(slot, image) {
            Ok(()) => Ok(()),
            Err(error) => Err(keep_fault(&error, &mut self.counts.faults)),
        }
    }

    fn get(&mut self, slot: u32, len: u32, into: &mut Vec<u8>) -> Result<(), KeepFault>
        requires { slot < self.old.slots }
        ensures ok { OnOk result (WhereTold (images_told D.told self.old) (λ old. into.new.items ≡ take len (image_in old slot))) }
        ensures short { OnOk result (vec_len into.new ≤ len) }
        ensures reserved { vec_capacity into.old ≤ vec_capacity into.new }
        ensures later { self.old.counts.faults ≤ self.new.counts.faults }
        ensures does { IsFileGet D.told D.may_fail slot len into.new.items result self.old self.new }
    {
        let slots = self.slots;
        prove!(slot < slots);
        self.counts.gets = self.counts.gets.saturating_add(1);
        match self.get_file(slot, len, into) {
            Ok(()) => Ok(()),
            Err(error) => Err(keep_fault(&error, &mut self.counts.faults)),
        }
    }

    fn free(&mut self, slot: u32) -> Result<(), KeepFault>
        requires { slot < self.old.slots }
        ensures ok { OnOk result (Tells (images_told D.told self.old) (images_told D.told self.new) (λ old new. new ≡ finmap.remove old slot)) }
        ensures refused { OnErr result (Tells (images_told D.told self.old) (images_told D.told self.new) (λ old new. (new ≡ old) ⊎ (new ≡ finmap.remove old slot))) }
        ensures later { self.old.counts.faults ≤ self.new.counts.faults }
        ensures does { IsFileFree D.told D.may_fail slot result self.old self.new }
    {
        let slots = self.slots;
        prove!(slot < slots);
        self.counts.frees = self.counts.frees.saturating_add(1);
        match self.free_file(slot) {
            Ok(()) => Ok(()),
            Err(error) => Err(keep_fault(&error, &mut self.counts.faults)),
        }
    }
}

// Inputs that are files.
ghost use Rattle.std.specs.Prelude.{◌≡◌, ◌≢◌, ◌⊎◌, ◌<◌, ◌≤◌, [], ◌∷◌, ◌++◌, length, Ok, Some, Err, IsSomeAnd, OnOk};
ghost use Rattle.std.specs.Vec.{vec_len, vec_capacity};
ghost use Rattle.std.specs.FinMap as finmap;
ghost use Rattle.keepers.specs.Counts.{raised};
ghost use Rattle.keepers.specs.DiskFaults.{FailsOnlyWhere};
ghost use Rattle.keepers.specs.ExternalState.{MayFailAt};
ghost use Rattle.keepers.specs.Claims.{WhereTold, Begins, bytes_in};

use crate::disk::Disk;
use crate::faults::is_fault;
use crate::inputs::{InputFault, Inputs, Whole};
use crate::names::Names;
use std::alloc::{AllocError, Global};
use std::io;
use std::io::ErrorKind;

/// Reads the files of a disk, by their paths, which are UTF-8.
#[derive(Drop)]
pub struct FileInputs<D> {
    disk: D,
    asked: Names,
    faults: u64,
}

impl<D: Disk> FileInputs<D> {
    /// Reads the files of this disk. Nothing was requested yet. It takes no memory.
    pub fn new(disk: D, alloc: Global) -> Self
        ensures told { ⟦<FileInputs<D> as Inputs>⟧.told result ≡ D.told disk }
        ensures asked { ⟦<FileInputs<D> as Inputs>⟧.asked result ≡ [] }
        ensures faults { ⟦<FileInputs<D> as Inputs>⟧.fault_count result ≡ 0 }
    {
        Self {
            disk,
            asked: Names::new(alloc),
            faults: 0,
        }
    }

    /// How often `read` failed, up to `u64::MAX`.
    pub fn faults(&self) -> u64
        ensures { result ≡ ⟦<FileInputs<D> as Inputs>⟧.fault_count self.now }
    {
        self.faults
    }

    fn read_path(&self, name: &[u8], limit: u32, into: &mut Vec<u8>) -> io::Result<Whole>
        ensures all { result ≡ Ok Whole.All → WhereTold (D.told self.now.disk) (λ files. finmap.get files name.now ≡ Some into.new.items) }
        ensures longer { result ≡ Ok Whole.Longer →
            WhereTold (D.told self.now.disk) (λ files. IsSomeAnd (finmap.get files name.now) (λ bytes. limit < length bytes)) }
        ensures begun { WhereTold (D.told self.now.disk) (λ files. Begins into.new.items (bytes_in files name.now)) }
        ensures within { vec_len into.new ≤ limit }
        ensures reserved { vec_capacity into.old ≤ vec_capacity into.new }
        ensures cause { FailsOnlyWhere result (MayFailAt D.told D.may_fail self.now name.now) }
    {
        into.clear();
        let Ok(path) = str::from_utf8(name) else {
            return Err(io::Error::from(ErrorKind::InvalidInput));
        };
        self.disk.read_whole(path, limit, into)
    }
}

impl<D: Disk> Inputs for FileInputs<D> {
    ghost told = { λ s. D.told s.disk };

    ghost asked = { λ s. s.asked };

    ghost fault_count = { λ s. s.faults };

    fn read(&mut self, name: &[u8], limit: u32, into: &mut Vec<u8>) -> Result<Whole, InputFault>
        ensures all { result ≡ Ok Whole.All → WhereTold (D.told self.old.disk) (λ files. finmap.get files name.now ≡ Some into.new.items) }
        ensures longer { result ≡ Ok Whole.Longer →
            WhereTold (D.told self.old.disk) (λ files. IsSomeAnd (finmap.get files name.now) (λ bytes. limit < length bytes)) }
        ensures begun { WhereTold (D.told self.old.disk) (λ files. Begins into.new.items (bytes_in files name.now)) }
        ensures within { vec_len into.new ≤ limit }
        ensures reserved { vec_capacity into.old ≤ vec_capacity into.new }
        ensures same { self.new.disk ≡ self.old.disk }
        ensures asks { result ≢ Err InputFault.Memory → self.new.asked ≡ self.old.asked ++ name.now ∷ [] }
        ensures may_ask { result ≡ Err InputFault.Memory → (self.new.asked ≡ self.old.asked) ⊎ (self.new.asked ≡ self.old.asked ++ name.now ∷ []) }
        ensures quiet { result ≢ Err InputFault.Failed → self.new.faults ≡ self.old.faults }
        ensures later { self.old.faults ≤ self.new.faults }
        ensures counted { result ≡ Err InputFault.Failed → self.new.faults ≡ raised self.old.faults 1 }
        ensures cause { result ≡ Err InputFault.Failed → MayFailAt D.told D.may_fail self.old name.now }
    {
        into.clear();
        if self.asked.push(name).is_err() {
            return Err(InputFault::Memory);
        }
        match self.read_path(name, limit, into) {
            Ok(whole) => Ok(whole),
            Err(error) if is_fault(&error, &mut self.faults) => Err(InputFault::Failed),
            Err(_) => Err(InputFault::Memory),
        }
    }
}

// What a call returns after an error of std, and which errors are counted.
ghost use Rattle.std.specs.Prelude.{◌≡◌, ◌≢◌, true, false};
ghost use Rattle.std.specs.IoError.{error_kind};
ghost use Rattle.keepers.specs.Counts.{raised};

use crate::keeper::KeepFault;
use std::io;
use std::io::ErrorKind;

// Counts an error and returns true, unless it is a lack of memory, which is no fault of the storage.
pub(crate) fn is_fault(error: &io::Error, faults: &mut u64) -> bool
    ensures memory { error_kind error.now ≡ ErrorKind.OutOfMemory → result ≡ false }
    ensures failed { error_kind error.now ≢ ErrorKind.OutOfMemory → result ≡ true }
    ensures quiet { result ≡ false → faults.new ≡ faults.old }
    ensures cause { result ≡ true → faults.new ≡ raised faults.old 1 }
{
    if error.kind() == ErrorKind::OutOfMemory {
        return false;
    }
    *faults = faults.saturating_add(1);
    true
}

// The fault of a keeper for an error, which it counts.
pub(crate) fn keep_fault(error: &io::Error, faults: &mut u64) -> KeepFault
    ensures memory { error_kind error.now ≡ ErrorKind.OutOfMemory → result ≡ KeepFault.Memory }
    ensures failed { error_kind error.now ≢ ErrorKind.OutOfMemory → result ≡ KeepFault.Failed }
    ensures quiet { result ≡ KeepFault.Memory → faults.new ≡ faults.old }
    ensures cause { result ≡ KeepFault.Failed → faults.new ≡ raised faults.old 1 }
{
    if is_fault(error, faults) {
        KeepFault::Failed
    } else {
        KeepFault::Memory
    }
}

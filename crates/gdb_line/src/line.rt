// A line to a debugger.
ghost use Rattle.std.specs.Prelude.{◌≡◌, ◌≤◌, ◌<◌, ℕ, [], take, length, Option, IfOk, OnOk, OnErr};
ghost use Rattle.keepers.specs.Prelude.{Rose, Tells, WhereTold};
ghost use Rattle.gdb_line.specs.Talk.{Talk, Comes, Goes, GoesPartly};

use keepers::SinkFault;
use thiserror::Error;

/// Why a line can't be used.
#[derive(Clone, Copy, Debug, PartialEq, Eq, Error)]
pub enum LineFault {
    /// Receiving or sending failed.
    #[error("the line can't be used")]
    Failed,
}

impl From<SinkFault> for LineFault {
    fn from(_fault: SinkFault) -> Self {
        Self::Failed
    }
}

/// Bytes come in on it, and bytes go out.
pub trait Line {
    /// The bytes that went over it, for a line that claims to know them.
    ghost told: { Self → Option Talk };

    ghost fault_count: { Self → ℕ };

    /// Waits until bytes come, and puts them into the room, which isn't empty. No bytes come at the end of the line.
    fn receive(&mut self, room: &mut [u8]) -> Result<usize, LineFault>
        requires { 0 < length room.old }
        ensures fits { IfOk result (λ n. n ≤ length room.new) }
        ensures comes { IfOk result (λ n. Tells (told self.old) (told self.new) (Comes (take n room.new))) }
        ensures end { IfOk result (λ n. n ≡ 0 → WhereTold (told self.new) (λ talk. talk.left ≡ [])) }
        ensures refused { OnErr result (Tells (told self.old) (told self.new) (Comes [])) }
        ensures quiet { OnOk result (fault_count self.new ≡ fault_count self.old) }
        ensures later { fault_count self.old ≤ fault_count self.new }
        ensures cause { OnErr result (Rose (fault_count self.old) (fault_count self.new)) };

    /// Puts bytes that have already come into the room. It doesn't wait.
    fn look(&mut self, room: &mut [u8]) -> Result<usize, LineFault>
        ensures fits { IfOk result (λ n. n ≤ length room.new) }
        ensures comes { IfOk result (λ n. Tells (told self.old) (told self.new) (Comes (take n room.new))) }
        ensures refused { OnErr result (Tells (told self.old) (told self.new) (Comes [])) }
        ensures quiet { OnOk result (fault_count self.new ≡ fault_count self.old) }
        ensures later { fault_count self.old ≤ fault_count self.new }
        ensures cause { OnErr result (Rose (fault_count self.old) (fault_count self.new)) };

    /// Sends a piece, which is on its way when this returns. After a refusal it has sent a prefix of it.
    fn send(&mut self, piece: &[u8]) -> Result<(), LineFault>
        ensures goes { OnOk result (Tells (told self.old) (told self.new) (Goes piece.now)) }
        ensures refused { OnErr result (Tells (told self.old) (told self.new) (GoesPartly piece.now)) }
        ensures quiet { OnOk result (fault_count self.new ≡ fault_count self.old) }
        ensures later { fault_count self.old ≤ fault_count self.new }
        ensures cause { OnErr result (Rose (fault_count self.old) (fault_count self.new)) };
}

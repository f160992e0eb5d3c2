// What a step may do to a state, for any instruction.
ghost use Rattle.std.specs.Prelude.{◌≡◌, ◌<◌};
ghost use Rattle.rv_machine.specs.MachineState.{IsStatus};
ghost use Rattle.rv_machine.specs.StateChanges.{put as put_in, gone_on, trapped};

use crate::state::State;
use crate::status::Status;

/// The status is a trap with this cause.
#[inline(always)]
pub(crate) fn trap(state: &mut State, cause: u8)
    requires { IsStatus (Status.Trapped cause) }
    ensures { state.new ≡ trapped state.old cause }
{
    state.status = Status::Trapped(cause);
}

/// pc moves to the next word.
#[inline(always)]
pub(crate) fn go_on(state: &mut State)
    ensures { state.new ≡ gone_on state.old }
{
    state.pc = state.pc.wrapping_add(4);
}

/// A register gets a value, and pc moves to the next word.
#[inline(always)]
pub(crate) fn put(state: &mut State, rd: u8, value: u32)
    requires { rd < 32 }
    ensures { state.new ≡ put_in state.old rd value }
{
    state.set_register(rd, value);
    go_on(state);
}

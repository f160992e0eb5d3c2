// The text about a state for the user.
ghost use Rattle.std.specs.Prelude.{◌≡◌, ◌++◌, OnOk, codes};
ghost use Rattle.state_image.specs.Prelude.{line};
ghost use Rattle.gdb_replies.specs.StateWords.{hexadecimal, status_words, place_line, ending_words, ending_line, trap_words};

use plan_types::Line;
use rv_machine::{State, Status};
use state_image::{image_digest, line_front, push_digest};
use std::alloc::AllocError;

/// Adds a number in hexadecimal digits. If memory runs out, it may have added a part.
pub fn push_hexadecimal(out: &mut Vec<u8>, n: u32) -> Result<(), AllocError>
    ensures { OnOk result (out.new.items ≡ out.old.items ++ hexadecimal n) }
{
    let digits = format!(in *out.allocator(); "{n:x}")?;
    out.extend_from_slice(digits.as_bytes())
}

/// Adds a line with the number of a state, its pc, and whether it runs. If memory runs out, it may have added a part.
pub fn push_place_line(out: &mut Vec<u8>, n: u32, state: &State) -> Result<(), AllocError>
    ensures { OnOk result (out.new.items ≡ out.old.items ++ place_line n state.now) }
{
    let pc = state.pc;
    let front = format!(in *out.allocator(); "state {n}, pc 0x{pc:x}")?;
    out.extend_from_slice(front.as_bytes())?;
    push_status(out, state.status)?;
    Ok(out.push(b'\n')?)
}

// Adds how a program ended, if it has.
fn push_status(out: &mut Vec<u8>, status: Status) -> Result<(), AllocError>
    ensures { OnOk result (out.new.items ≡ out.old.items ++ status_words status) }
{
    match status {
        Status::Running => Ok(()),
        Status::Exited(code) => {
            let text = format!(in *out.allocator(); ", exit {code}")?;
            out.extend_from_slice(text.as_bytes())
        }
        Status::Trapped(cause) => {
            let text = format!(in *out.allocator(); ", trap {cause}")?;
            out.extend_from_slice(text.as_bytes())
        }
    }
}

/// Adds a line with the reason why a run ends at a state. If memory runs out, it may have added a part.
pub fn push_ending_line(out: &mut Vec<u8>, n: u32, state: &State) -> Result<(), AllocError>
    ensures { OnOk result (out.new.items ≡ out.old.items ++ ending_line n state.now) }
{
    out.extend_from_slice(b"reversal: ")?;
    push_ending(out, state.status)?;
    let back = format!(in *out.allocator(); " (state {n})\n")?;
    out.extend_from_slice(back.as_bytes())
}

// Adds why a run ends.
fn push_ending(out: &mut Vec<u8>, status: Status) -> Result<(), AllocError>
    ensures { OnOk result (out.new.items ≡ out.old.items ++ ending_words status) }
{
    match status {
        Status::Running => out.extend_from_slice(
            b"the program still runs, and the run may have no more steps",
        ),
        Status::Exited(code) => {
            let text = format!(in *out.allocator(); "the program exited with code {code}")?;
            out.extend_from_slice(text.as_bytes())
        }
        Status::Trapped(cause) => {
            out.extend_from_slice(b"the program stopped at a trap: ")?;
            out.extend_from_slice(cause_of(cause))
        }
    }
}

// The cause of a trap, in words.
fn cause_of(cause: u8) -> &'static [u8]
    ensures { result.now ≡ trap_words cause }
{
    match cause {
        0 => b"a jump to an address that is no multiple of four",
        1 => b"a fetch where there is no memory",
        2 => b"a word that is no instruction",
        3 => b"an EBREAK",
        5 => b"a load where there is no memory",
        _ => b"a store where there is no memory",
    }
}

/// Adds the line of a state, with a line end. If memory runs out, it may have added a part.
pub fn push_state_line(out: &mut Vec<u8>, n: u32, state: &State) -> Result<(), AllocError>
    ensures { OnOk result (out.new.items ≡ out.old.items ++ line n state.now ++ codes "\n") }
{
    let mut text = Line::new();
    line_front(n, state, &mut text);
    push_digest(&mut text, &image_digest(state));
    text.push(b"\n");
    out.extend_from_slice(text.bytes())
}

// The commands after `monitor`.
ghost use Rattle.std.specs.Prelude.{◌≡◌, ◌++◌, OnOk, MatchOption, ℕ, codes};
ghost use Rattle.gdb_wire.specs.Prelude.{Begins};
ghost use Rattle.gdb_replies.specs.Commands.{IsCommand, IsDecimal, help as help_text, hint as hint_text};

use std::alloc::AllocError;

/// What the user asks for after `monitor`.
#[derive(Clone, Copy, Debug, PartialEq, Eq)]
pub enum Command {
    /// `when`: which state is shown.
    When,
    /// `goto N`: show the state with this number, or the last of the run.
    Goto(u32),
    /// `end`: show the last state of the run.
    End,
    /// `line`: the line of the state that is shown.
    Line,
    /// `quiet on` and `quiet off`: whether the program's output is hidden.
    Quiet(bool),
    /// `help`: which commands there are.
    Help,
    /// Any other text.
    Unknown,
}

/// Reads the command after `monitor`.
pub fn read_command(text: &[u8]) -> Command
    ensures { IsCommand text.now result }
{
    match text.strip_prefix(b"goto ") {
        Some(digits) => goto(digits),
        None => word(text),
    }
}

// The command with a number.
fn goto(digits: &[u8]) -> Command
    ensures { IsCommand (codes "goto " ++ digits.now) result }
{
    match decimal(digits) {
        Some(n) => Command::Goto(n),
        None => Command::Unknown,
    }
}

// The number that the digits spell.
fn decimal(digits: &[u8]) -> Option<u32>
    ensures { MatchOption result ((n : ℕ) → ¬ IsDecimal digits.now n) (λ n. IsDecimal digits.now n) }
{
    if digits.starts_with(b"+") {
        return None;
    }
    std::str::from_utf8(digits).ok()?.parse().ok()
}

// A command that is spelled in one way.
fn word(text: &[u8]) -> Command
    requires { ¬ (Begins text.now (codes "goto ")) }
    ensures { IsCommand text.now result }
{
    match text {
        b"when" => Command::When,
        b"end" => Command::End,
        b"line" => Command::Line,
        b"quiet on" => Command::Quiet(true),
        b"quiet off" => Command::Quiet(false),
        b"help" => Command::Help,
        _ => Command::Unknown,
    }
}

/// Adds the answer to a text that is no command. If memory runs out, it may have added a part.
pub fn push_hint(out: &mut Vec<u8>) -> Result<(), AllocError>
    ensures { OnOk result (out.new.items ≡ out.old.items ++ hint_text) }
{
    out.extend_from_slice(b"monitor when: the state that is shown; monitor goto N: show state N\n")
}

/// Adds what each command does. If memory runs out, it may have added a part.
pub fn push_help(out: &mut Vec<u8>) -> Result<(), AllocError>
    ensures { OnOk result (out.new.items ≡ out.old.items ++ help_text) }
{
    out.extend_from_slice(HELP)
}

const HELP: &[u8] = b"monitor when: the state that is shown\n\
monitor goto N: show state N\n\
monitor end: show the last state of the run\n\
monitor line: the state that is shown, as the line that reversal_cli writes of it\n\
monitor quiet on, monitor quiet off: don't show, show what the program writes\n\
monitor help: these lines\n";

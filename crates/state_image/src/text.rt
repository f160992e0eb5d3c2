// The line of a state.
ghost use Rattle.std.specs.Prelude.{◌≡◌, ◌+◌, ◌≤◌, ◌++◌, length, drop, codes, decimal};
ghost use Rattle.std.specs.List.{flat_map};
ghost use Rattle.hex.specs.Hex.{encode_lower};
ghost use Rattle.state_image.specs.Line.{line_front, hex_word, status_word};

use plan_types::Line;
use rv_machine::{State, Status};

/// Replaces `text` by the line of the state with the number `n`, without its digest. It takes no memory.
pub fn line_front(n: u32, state: &State, text: &mut Line)
    ensures text { text.new ≡ line_front n state.now }
    ensures short { length text.new ≤ 355 }
{
    text.clear();
    text.push_decimal(n as u64);
    push_word(text, state.pc);
    push_registers(text, &state.x);
    push_status(text, state.status);
    push_place(text, state.item, state.offset, state.written);
}

fn push_word(text: &mut Line, word: u32)
    requires { length text.old ≤ 503 }
    ensures text { text.new ≡ text.old ++ codes " " ++ hex_word word }
    ensures room { length text.new ≡ length text.old + 9 }
{
    let mut digits = [0; 8];
    hex::encode_to_slice(word.to_be_bytes(), &mut digits).unwrap();
    text.push(b" ");
    text.push(&digits);
}

// Adds x1 to x31.
fn push_registers(text: &mut Line, x: &[u32; 32])
    requires { length text.old ≤ 233 }
    ensures text { text.new ≡ text.old ++ flat_map (λ word. codes " " ++ hex_word word) (drop 1 x.now) }
    ensures room { length text.new ≡ length text.old + 279 }
{
    for word in &x[1..] {
        push_word(text, *word);
    }
}

fn push_status(text: &mut Line, status: Status)
    requires { length text.old ≤ 500 }
    ensures text { text.new ≡ text.old ++ codes " " ++ status_word status }
    ensures room { length text.new ≤ length text.old + 9 }
{
    text.push(b" ");
    match status {
        Status::Running => text.push(b"run"),
        Status::Exited(code) => {
            text.push(b"exit:");
            text.push_decimal(code as u64);
        }
        Status::Trapped(cause) => {
            text.push(b"trap:");
            text.push_decimal(cause as u64);
        }
    }
}

// Adds the place in the recorded input, and how many bytes the program has written.
fn push_place(text: &mut Line, item: u32, offset: u32, written: u64)
    requires { length text.old ≤ 400 }
    ensures text { text.new ≡ text.old ++ codes " " ++ decimal item ++ codes ":" ++ decimal offset ++ codes " " ++ decimal written }
    ensures room { length text.new ≤ length text.old + 43 }
{
    text.push(b" ");
    text.push_decimal(item as u64);
    text.push(b":");
    text.push_decimal(offset as u64);
    text.push(b" ");
    text.push_decimal(written);
}

/// Ends the front of a line with a digest.
pub fn push_digest(text: &mut Line, digest: &[u8; 32])
    requires { length text.old ≤ 447 }
    ensures text { text.new ≡ text.old ++ codes " " ++ encode_lower digest.now }
    ensures room { length text.new ≡ length text.old + 65 }
{
    let mut digits = [0; 64];
    hex::encode_to_slice(digest, &mut digits).unwrap();
    text.push(b" ");
    text.push(&digits);
}

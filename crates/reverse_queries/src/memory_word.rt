// The four bytes of a word.
ghost use Rattle.std.specs.Prelude.{◌≡◌, ◌≤◌, ◌↔◌, IsTrue};
ghost use Rattle.rv_pages.specs.declared.pages.TheConstants.{LAST_WORD};
ghost use Rattle.reverse_queries.specs.Queries.{word_bytes, Differ, SomeDiffer};

use rv_machine::State;

/// The bytes of the word at an address, where they are mapped.
pub fn bytes_of_word(state: &State, word: u32) -> [Option<u8>; 4]
    requires { word ≤ LAST_WORD }
    ensures { result ≡ word_bytes state.now.memory word }
{
    [
        state.pages.load8(word),
        state.pages.load8(word + 1),
        state.pages.load8(word + 2),
        state.pages.load8(word + 3),
    ]
}

// Whether two bytes are mapped and differ.
fn differ(before: Option<u8>, after: Option<u8>) -> bool
    ensures { IsTrue result ↔ Differ before after }
{
    match (before, after) {
        (Some(before), Some(after)) => before != after,
        _ => false,
    }
}

/// Whether one of four bytes differs.
pub fn some_differ(before: &[Option<u8>; 4], after: &[Option<u8>; 4]) -> bool
    ensures { IsTrue result ↔ SomeDiffer before.now after.now }
{
    for k in 0..4 {
        if differ(before[k], after[k]) {
            return true;
        }
    }
    false
}

// Looks for a step of a run in the states that a session gives.
ghost use Rattle.std.specs.Prelude.{◌≤◌};
ghost use Rattle.rv_pages.specs.declared.pages.TheConstants.{LAST_WORD};

// What a step must do to a word.
#[derive(Clone, Copy)]
pub(crate) enum Sought {
    // To write a byte of it.
    Write,
    // To change a byte of it.
    Change,
}

// Gets states from the last one back, and keeps the first number whose step has the wanted property.
#[derive(Drop)]
pub(crate) struct Finder {
    pub question: Sought,
    pub word: u32,
    // The number of the last state, after which there is no step.
    pub last: u32,
    // The bytes of the word in the previous state that it got.
    pub later: [Option<u8>; 4],
    pub answer: Option<u32>,
    ghost in_range: { word ≤ LAST_WORD },
}

// How a call ends, as a value.
ghost use Rattle.std.specs.Prelude.{◌≡◌};
ghost use Rattle.endings.specs.Outcomes.{bad_text, bad_certificate, bad_source, bad_script, too_long};

use bound_cert::Reason;
use elf_load::ElfFault;
use input_journal::JournalFault;
use level_book::BookFault;
use line_texts::Fault;
use std::alloc::{AllocError, AllocFailed};

/// How a call ends. A fault in it isn't the lack of memory, which is `Memory`. Places count from 1.
#[derive(Clone, Copy, PartialEq, Eq)]
pub enum Outcome {
    /// The job was done.
    Done,
    /// The words mean no request.
    Words,
    /// The input with this number can't be read.
    Input {
        place: u64,
    },
    /// The bytes are no program.
    Program(ElfFault),
    /// The bytes of the recorded input are no journal.
    Journal(JournalFault),
    /// The bytes are no book.
    Book(BookFault),
    /// The bytes are no schedule.
    Text(Fault),
    /// The list is first broken by the action at this place, by this rule. The level is that of rule 4, and otherwise 0.
    Invalid {
        place: u64,
        level: u8,
        rule: u8,
    },
    /// The bytes are no certificate.
    Certificate(Fault),
    /// A number passes this bound, which the rule gives.
    Limit {
        number: u64,
        bound: u64,
        rule: u16,
    },
    /// So many steps have no plan with this room of the book, by this rule.
    NoPlan {
        steps: u32,
        room: u32,
        rule: u8,
    },
    /// The keeper of this level failed in the action or order at this place.
    Keeper {
        place: u64,
        level: u8,
    },
    /// In the action or order at this place, this level's keeper gave bytes with the digest `got`. The image put there
    /// had the digest `put`.
    Damaged {
        place: u64,
        level: u8,
        put: [u8; 32],
        got: [u8; 32],
    },
    /// The sink failed in the action or order at this place.
    Sink {
        place: u64,
    },
    /// A valid list isn't the least by its certificate, for this reason.
    NotLeast(Reason),
    /// The book has more levels than there are keepers.
    FewKeepers {
        levels: u8,
        keepers: u64,
    },
    /// The keeper of this level has too few slots, namely so many.
    SmallKeeper {
        level: u8,
        slots: u32,
    },
    /// Memory ran out.
    Memory,
    /// The bytes are no source.
    Source(Fault),
    /// The bytes are no script.
    Script(Fault),
}

// The rule for an input that is longer than its limit.
const LONGER: u16 = 8;

impl Outcome {
    /// The input with this number is longer than its limit.
    pub fn too_long(place: u64, limit: u32) -> Outcome
        ensures { result ≡ too_long place limit }
    {
        Outcome::Limit {
            number: place,
            bound: limit as u64,
            rule: LONGER,
        }
    }

    /// The outcome for a text that is no schedule.
    pub fn bad_text(fault: Fault) -> Outcome
        ensures { result ≡ bad_text fault }
    {
        match fault {
            Fault::Memory => Outcome::Memory,
            Fault::At { .. } => Outcome::Text(fault),
        }
    }

    /// The outcome for a text that is no certificate.
    pub fn bad_certificate(fault: Fault) -> Outcome
        ensures { result ≡ bad_certificate fault }
    {
        match fault {
            Fault::Memory => Outcome::Memory,
            Fault::At { .. } => Outcome::Certificate(fault),
        }
    }

    /// The outcome for a text that is no source.
    pub fn bad_source(fault: Fault) -> Outcome
        ensures { result ≡ bad_source fault }
    {
        match fault {
            Fault::Memory => Outcome::Memory,
            Fault::At { .. } => Outcome::Source(fault),
        }
    }

    /// The outcome for a text that is no script.
    pub fn bad_script(fault: Fault) -> Outcome
        ensures { result ≡ bad_script fault }
    {
        match fault {
            Fault::Memory => Outcome::Memory,
            Fault::At { .. } => Outcome::Script(fault),
        }
    }
}

impl From<AllocError> for Outcome {
    ghost use Rattle.endings.specs.Outcomes.{no_memory};

    ghost from_gives = { λ _ e. e ≡ no_memory };

    fn from(_e: AllocError) -> Outcome {
        Outcome::Memory
    }
}

impl<T: Drop> From<AllocFailed<T>> for Outcome {
    ghost use Rattle.endings.specs.Outcomes.{no_memory};

    ghost from_gives = { λ _ e. e ≡ no_memory };

    fn from(_e: AllocFailed<T>) -> Outcome {
        Outcome::Memory
    }
}

impl From<ElfFault> for Outcome {
    ghost use Rattle.endings.specs.Outcomes.{bad_program};

    ghost from_gives = { λ fault e. e ≡ bad_program fault };

    fn from(fault: ElfFault) -> Outcome {
        match fault {
            ElfFault::Memory => Outcome::Memory,
            fault => Outcome::Program(fault),
        }
    }
}

impl From<JournalFault> for Outcome {
    ghost use Rattle.endings.specs.Outcomes.{bad_journal};

    ghost from_gives = { λ fault e. e ≡ bad_journal fault };

    fn from(fault: JournalFault) -> Outcome {
        match fault {
            JournalFault::Memory => Outcome::Memory,
            fault => Outcome::Journal(fault),
        }
    }
}

impl From<BookFault> for Outcome {
    ghost use Rattle.endings.specs.Outcomes.{bad_book};

    ghost from_gives = { λ fault e. e ≡ bad_book fault };

    fn from(fault: BookFault) -> Outcome {
        match fault {
            BookFault::Memory => Outcome::Memory,
            fault => Outcome::Book(fault),
        }
    }
}

// What was read of a request's inputs.
ghost use Rattle.std.specs.Prelude.{◌≡◌};
ghost use Rattle.requests.specs.Loaded.{nothing, with_bytes};
ghost use Rattle.requests.specs.InputOutcome.{contents_of};

use crate::input_kind::InputKind;
use std::alloc::Global;

/// The bytes that were read for a request, by their kind. What its words don't name is empty. Without recorded input
/// the journal is None.
#[derive(Drop)]
pub struct Loaded {
    pub program: Vec<u8>,
    pub journal: Option<Vec<u8>>,
    pub book: Vec<u8>,
    pub schedule: Vec<u8>,
    pub certificate: Vec<u8>,
    pub source: Vec<u8>,
    pub words: Vec<u8>,
    pub script: Vec<u8>,
}

impl Loaded {
    /// Before anything was read.
    pub fn new(alloc: Global) -> Loaded
        ensures { contents_of result ≡ nothing }
    {
        Loaded {
            program: Vec::new(alloc),
            journal: None,
            book: Vec::new(alloc),
            schedule: Vec::new(alloc),
            certificate: Vec::new(alloc),
            source: Vec::new(alloc),
            words: Vec::new(alloc),
            script: Vec::new(alloc),
        }
    }

    /// Adds the bytes of an input of this kind.
    pub fn put(&mut self, kind: InputKind, bytes: Vec<u8>)
        ensures { contents_of self.new ≡ with_bytes kind bytes.items (contents_of self.old) }
    {
        match kind {
            InputKind::Program => self.program = bytes,
            InputKind::Journal => self.journal = Some(bytes),
            InputKind::Book => self.book = bytes,
            InputKind::Schedule => self.schedule = bytes,
            InputKind::Certificate => self.certificate = bytes,
            InputKind::Source => self.source = bytes,
            InputKind::Words => self.words = bytes,
            InputKind::Script => self.script = bytes,
        }
    }
}

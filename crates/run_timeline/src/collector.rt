// How the output of a run is collected.
ghost use Rattle.std.specs.Prelude.{◌≡◌, ℕ, List, ◌++◌, [], false, IfOk, OnOk, Some};
ghost use Rattle.rv_pages.specs.Prelude.{bytes_at, IsMapped};

use input_journal::Journal;
use rv_machine::{Next, Span, State, Watch};
use rv_pages::Pages;
use std::alloc::{AllocError, Global};

/// The bytes that the observed steps wrote to the program's output, as far as there was memory.
#[derive(Drop)]
pub(crate) struct Collector {
    bytes: Vec<u8>,
    failed: bool,
}

impl Collector {
    /// No step was observed yet.
    pub(crate) fn new(alloc: Global) -> Collector
        ensures bytes { result.bytes.items ≡ [] }
        ensures failed { result.failed ≡ false }
    {
        Collector {
            bytes: Vec::new(alloc),
            failed: false,
        }
    }

    /// All bytes, if there was memory for them.
    pub(crate) fn finish(self) -> Result<Vec<u8>, AllocError>
        ensures { IfOk result (λ bytes. (self.failed ≡ false) × (bytes.items ≡ self.bytes.items)) }
    {
        if self.failed {
            return Err(AllocError);
        }
        Ok(self.bytes)
    }
}

impl Watch for Collector {
    ghost use Rattle.std.specs.Prelude.{⊤};
    ghost use Rattle.run_timeline.specs.OutputCollector.{IsCollected};

    ghost can_note = { λ _ _ _. ⊤ };

    ghost noted = { IsCollected };

    #[inline(always)]
    fn note(&mut self, state: &State, _journal: &Journal, next: &Next) {
        let span = next.output(state);
        if span.count > 0 && push_span(&mut self.bytes, &state.pages, &span).is_err() {
            self.failed = true;
        }
    }
}

// Adds the bytes at these addresses, which are all mapped. If memory runs out, it may have added a part of them.
fn push_span(out: &mut Vec<u8>, pages: &Pages, span: &Span) -> Result<(), AllocError>
    requires { IsMapped pages.now span.now.at span.now.count }
    ensures { OnOk result ((bytes : List ℕ) → bytes_at pages.now span.now.at span.now.count ≡ Some bytes → out.new.items ≡ out.old.items ++ bytes) }
{
    for k in 0..span.count {
        let byte = pages.load8(span.at.wrapping_add(k)).unwrap();
        out.push(byte)?;
    }
    Ok(())
}

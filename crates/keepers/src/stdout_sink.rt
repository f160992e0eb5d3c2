// Output to standard output.
ghost use Rattle.std.specs.Prelude.{◌≡◌, ℕ, ◌≤◌, take, OnOk, OnErr};
ghost use Rattle.std.specs.Io.KnownBytes.{Appends};
ghost use Rattle.keepers.specs.Counts.{raised};
ghost use Rattle.keepers.specs.ExternalState.{fresh, writer_of};

use crate::output::Output;
use crate::sink::{Sink, SinkFault};
use crate::transfer::write_whole;

/// Writes to standard output, or to any other writer, and flushes each piece.
#[derive(Drop)]
pub struct StdoutSink<W> {
    out: W,
    calls: u64,
    faults: u64,
}

impl<W: Output> StdoutSink<W> {
    /// A sink over this writer, with nothing written.
    pub fn new(out: W) -> Self
        ensures { result ≡ fresh out }
    {
        Self {
            out,
            calls: 0,
            faults: 0,
        }
    }

    /// The underlying writer.
    pub fn writer(&self) -> &W
        ensures { result.now ≡ writer_of self.now }
    {
        &self.out
    }

    /// How often `write` failed, up to `u64::MAX`.
    pub fn faults(&self) -> u64
        ensures { result ≡ ⟦<StdoutSink<W> as Sink>⟧.fault_count self.now }
    {
        self.faults
    }
}

// It claims the bytes that its writer claims.
impl<W: Output> Sink for StdoutSink<W> {
    ghost told = { λ s. W.contents s.out };

    ghost call_count = { λ s. s.calls };

    ghost fault_count = { λ s. s.faults };

    fn write(&mut self, piece: &[u8]) -> Result<(), SinkFault>
        ensures written { OnOk result (Appends (W.contents self.old.out) (W.contents self.new.out) piece.now) }
        ensures begun { OnErr result ((k : ℕ) × Appends (W.contents self.old.out) (W.contents self.new.out) (take k piece.now)) }
        ensures calls { self.new.calls ≡ raised self.old.calls 1 }
        ensures quiet { OnOk result (self.new.faults ≡ self.old.faults) }
        ensures counted { OnErr result (self.new.faults ≡ raised self.old.faults 1) }
        ensures later { self.old.faults ≤ self.new.faults }
    {
        self.calls = self.calls.saturating_add(1);
        match write_whole(&mut self.out, piece) {
            Ok(()) => Ok(()),
            Err(_) => {
                self.faults = self.faults.saturating_add(1);
                Err(SinkFault::Failed)
            }
        }
    }
}

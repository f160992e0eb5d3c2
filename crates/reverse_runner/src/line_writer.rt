// The visitor that writes lines.
ghost use Rattle.std.specs.Prelude.{◌≡◌, ◌≤◌, [], ◌∷◌, ◌++◌, OnOk, OnErr};
ghost use Rattle.state_image.specs.Prelude.{line};
ghost use Rattle.keepers.specs.Prelude.{raised, Rose, Tells, AddsPrefix};

use crate::known_state::KnownState;
use crate::visitor::{VisitFault, Visitor};
use input_journal::Journal;
use keepers::{Sink, SinkFault};
use plan_types::Line;

/// Writes the line of a state with a number, and a line end, to a sink in one write.
pub fn write_line<O: Sink>(n: u32, state: &KnownState, out: &mut O) -> Result<(), SinkFault>
    ensures ok { OnOk result (Tells (O.told out.old) (O.told out.new) (λ old new. new ≡ old ++ (line n state.now ++ 10 ∷ []))) }
    ensures refused { OnErr result (Tells (O.told out.old) (O.told out.new) (AddsPrefix (line n state.now ++ 10 ∷ []))) }
    ensures calls { O.call_count out.new ≡ raised (O.call_count out.old) 1 }
    ensures quiet { OnOk result (O.fault_count out.new ≡ O.fault_count out.old) }
    ensures later { O.fault_count out.old ≤ O.fault_count out.new }
    ensures cause { OnErr result (Rose (O.fault_count out.old) (O.fault_count out.new)) }
{
    let mut text = Line::new();
    state.show(n, &mut text);
    text.push(b"\n");
    out.write(text.bytes())
}

/// Writes the line of each state that it gets, and a line end, to a sink in one write.
#[derive(Drop)]
pub struct LineWriter<'a, O: Sink> {
    pub out: &'a mut O,
}

impl<'a, O: Sink> LineWriter<'a, O> {
    /// A writer to this sink.
    pub fn new(out: &'a mut O) -> LineWriter<'a, O>
        ensures same_reference { result.out.ghost_name ≡ out.entry.ghost_name }
        ensures same { result.out.now ≡ out.old }
    {
        LineWriter { out }
    }
}

impl<'a, O: Sink> Visitor for LineWriter<'a, O> {
    ghost got = { λ w n s journal v. (v.out.ghost_name ≡ w.out.ghost_name)
        × Tells (O.told w.out.now) (O.told v.out.now) (λ old new. new ≡ old ++ (line n s ++ 10 ∷ []))
        × (O.call_count v.out.now ≡ raised (O.call_count w.out.now) 1) };

    ghost missed = { λ w n s journal v. (v.out.ghost_name ≡ w.out.ghost_name)
        × Tells (O.told w.out.now) (O.told v.out.now) (AddsPrefix (line n s ++ 10 ∷ [])) × (O.call_count v.out.now ≡ raised (O.call_count w.out.now) 1) };

    ghost fault_count = { λ w. O.fault_count w.out.now };

    fn state(&mut self, n: u32, state: &KnownState, _journal: &Journal) -> Result<(), VisitFault> {
        match write_line(n, state, self.out) {
            Ok(()) => Ok(()),
            Err(_) => Err(VisitFault::Failed),
        }
    }
}

// What a session is at, and what it answers to requests that don't move.
ghost use Rattle.std.specs.Prelude.{◌≡◌, ◌<◌, ◌≤◌, ◌+◌, ℕ, List, ⊤, ◌∷◌, [], ◌++◌, IfOk, MatchOption, OnOk, Some, codes, false, ◌^◌, slice_get};
ghost use Rattle.std.specs.Option.{option_map_or};
ghost use Rattle.input_journal.specs.Prelude.{IsRecorded};
ghost use Rattle.rv_machine.specs.Prelude.{IsMachineState};
ghost use Rattle.run_timeline.specs.Prelude.{CameBackward, CameForward, EndsBackward, EndsForward, state, step_ahead, step_behind, steps_of, MatchPart};
ghost use Rattle.gdb_replies.specs.declared.command.Command.{Command};
ghost use Rattle.gdb_replies.specs.Prelude.{IsCommand, ending_line, hexadecimal, place_line};
ghost use Rattle.gdb_session.specs.Answers.{Answers, GoesTo, Obeys, piece_text, shown_text};
ghost use Rattle.gdb_session.specs.Debugger.{new_debugger, shown as shown_state, inserted, removed, with_one, without_one, Debugger};
ghost use Rattle.gdb_session.specs.declared.halt.Halt.TheVariants.{AtWrite};
ghost use Rattle.gdb_session.specs.Moves.{halt_text, ShowsBytes};
ghost use Rattle.gdb_session.specs.SessionFields.{CameHere, IsAnswered, debugger, debugger_code};

use crate::halt::Halt;
use gdb_replies::{
    Command, push_ending_line, push_help, push_hexadecimal, push_hint, push_memory,
    push_place_line, push_register, push_registers, push_state_line, read_command,
    target_description,
};
use gdb_wire::{Request, StopKind, push_hex};
use run_timeline::{Hit, Part, Range, Step, Stops, Timeline};
use rv_machine::{State, Steps};
use std::alloc::{AllocError, Global};
use std::marker::Model;
use std::sync::ledger::Ledger;

// What the server can do. A packet has at most 0x4000 bytes.
const FEATURES: &[u8] =
    b"PacketSize=4000;qXfer:features:read+;QStartNoAckMode+;ReverseStep+;ReverseContinue+";

const REFUSAL: &[u8] = b"E.the run is recorded: its past can't be changed";

/// A session of a debugger over a run: the place that is shown, and what gdb has set.
#[derive(Drop)]
pub struct Session {
    pub(crate) timeline: Timeline,
    pub(crate) stops: Stops,
    pub(crate) acks: bool,
    pub(crate) quiet: bool,
}

impl Session {
    /// It shows the timeline's first state, and gdb has set nothing yet.
    pub fn begin(alloc: Global, timeline: Timeline) -> Session
        requires { timeline.place ≡ 0 }
        ensures { result ≡ new_debugger timeline.run }
    {
        Session {
            timeline,
            stops: Stops {
                addresses: Vec::new(alloc),
                ranges: Vec::new(alloc),
            },
            acks: true,
            quiet: false,
        }
    }

    /// Whether packets are acknowledged.
    pub(crate) fn acks(&self) -> bool
        ensures { result ≡ self.now.acks }
    {
        self.acks
    }

    // The state that is shown.
    fn state(&self) -> &State
        ensures { result.now ≡ shown_state self.now }
    {
        self.timeline.state()
    }

    /// The number of the state that is shown.
    pub(crate) fn place(&self) -> u32
        ensures { result ≡ self.now.place }
    {
        self.timeline.place()
    }

    /// Does nothing. Its contract is a law: the place is one of the run.
    pub(crate) fn is_within(&self)
        ensures { self.now.place ≤ self.now.run.most }
    {
        self.timeline.are_places();
    }

    // Does nothing. Its contract is a law: the run is one of a machine, over recorded input.
    fn is_machine_run(&self)
        ensures first { IsMachineState self.now.run.first }
        ensures recorded { IsRecorded self.now.run.journal }
        ensures small { self.now.place < 2 ^ 32 }
    {
        self.timeline.is_machine_run();
        let _place = self.timeline.place();
    }

    /// How many bytes the program had written up to the shown state, modulo 2 ^ 64.
    pub(crate) fn written(&self) -> u64
        ensures { result ≡ (shown_state self.now).written }
    {
        self.state().written
    }

    /// Goes on by a step, if there is one and it writes no watched byte.
    pub(crate) fn step_forward<L: Ledger>(&mut self, steps: &mut Steps<L>) -> Step
        ensures value { result ≡ step_ahead self.old.run self.old.stops self.old.place }
        ensures goes { self.new ≡ record self.old { place = self.old.place + steps_of result } }
    {
        self.timeline.step_forward(&self.stops, steps)
    }

    /// Goes back by a step, if there is one and it wrote no watched byte.
    pub(crate) fn step_back<L: Ledger>(&mut self, steps: &mut Steps<L>) -> Step
        ensures value { result ≡ step_behind self.old.run self.old.stops self.old.place }
        ensures goes { self.new.place + steps_of result ≡ self.old.place }
        ensures stays { self.new ≡ record self.old { place = self.new.place } }
    {
        self.timeline.step_back(&self.stops, steps)
    }

    /// Begins a move forward.
    pub(crate) fn begin_forward<L: Ledger>(&mut self, steps: &mut Steps<L>) -> Part
        ensures ends { MatchPart result (EndsForward self.old.run self.old.stops self.old.place self.new.place) (CameForward self.old.run self.old.stops self.old.place self.new.place) }
        ensures further { MatchPart result (λ _. ⊤) (self.old.place < self.new.place) }
        ensures order { self.old.place ≤ self.new.place }
        ensures within { self.new.place ≤ self.old.run.most }
        ensures stays { self.new ≡ record self.old { place = self.new.place } }
    {
        let part = self.timeline.begin_forward(&self.stops, steps);
        self.timeline.are_places();
        part
    }

    /// Continues a move forward that began elsewhere.
    pub(crate) fn look_forward<L: Ledger>(&mut self, steps: &mut Steps<L>) -> Part
        requires { CameHere self.old }
        ensures ends { (p : ℕ) → p < self.old.place → CameForward self.old.run self.old.stops p self.old.place →
            MatchPart result (EndsForward self.old.run self.old.stops p self.new.place) (CameForward self.old.run self.old.stops p self.new.place) }
        ensures further { MatchPart result (λ _. ⊤) (self.old.place < self.new.place) }
        ensures order { self.old.place ≤ self.new.place }
        ensures within { self.new.place ≤ self.old.run.most }
        ensures stays { self.new ≡ record self.old { place = self.new.place } }
    {
        self.timeline.are_places();
        let part = self.timeline.look_forward(&self.stops, steps);
        self.timeline.are_places();
        part
    }

    /// Continues a move backward that came to `end`, and is at `end` again afterwards. The result has the place up to which
    /// it looked, and what was hit first, and where.
    pub(crate) fn look_back<L: Ledger>(
        &mut self,
        end: u32,
        steps: &mut Steps<L>,
    ) -> (u32, Option<(u32, Hit)>)
        requires some { 0 < end }
        requires known { end ≤ self.old.place }
        ensures from { result.0 < end }
        ensures ends { MatchOption result.1 (CameBackward self.old.run self.old.stops end result.0)
            (λ found. EndsBackward self.old.run self.old.stops end found.0 (Some found.1)) }
        ensures stays { self.new ≡ record self.old { place = end } }
    {
        self.timeline.are_places();
        self.timeline.look_back(end, &self.stops, steps)
    }

    /// The bytes to show of what the program wrote on the way from a place. Up to there it had written `written` bytes,
    /// modulo 2 ^ 64.
    pub(crate) fn output_since<L: Ledger>(
        &mut self,
        alloc: Global,
        from: u32,
        written: u64,
        steps: &mut Steps<L>,
    ) -> Result<Vec<u8>, AllocError>
        requires behind { from ≤ self.old.place }
        requires counted { written ≡ (state self.old.run from).written }
        ensures bytes { IfOk result (λ bytes. ShowsBytes self.old.quiet self.old.run from self.old.place bytes.items) }
        ensures stays { self.new ≡ self.old }
    {
        self.is_machine_run();
        let now = self.written();
        if self.quiet || now == written {
            return Ok(Vec::new(alloc));
        }
        self.timeline.outputs_from(alloc, from, steps)
    }

    /// Adds why the run ends at the shown state.
    pub(crate) fn push_ending(&self, text: &mut Vec<u8>) -> Result<(), AllocError>
        ensures { OnOk result (text.new.items ≡ text.old.items ++ ending_line self.now.place (shown_state self.now)) }
    {
        push_ending_line(text, self.timeline.place(), self.state())
    }

    /// Adds why a move stopped.
    pub(crate) fn push_halt(&self, halt: Halt, text: &mut Vec<u8>) -> Result<(), AllocError>
        ensures { OnOk result (text.new.items ≡ text.old.items ++ halt_text self.now.stops.ranges halt) }
    {
        match halt {
            Halt::AtPlace => text.extend_from_slice(b"T05"),
            Halt::AtWrite(index) => self.push_watch(index, text),
            Halt::AtBeginning => text.extend_from_slice(b"T05replaylog:begin;"),
            Halt::AtEnd => text.extend_from_slice(b"T05replaylog:end;"),
            Halt::Interrupted => text.extend_from_slice(b"T02"),
        }
    }

    // Adds that a move stopped at a watched range.
    fn push_watch(&self, index: usize, text: &mut Vec<u8>) -> Result<(), AllocError>
        ensures { OnOk result (text.new.items ≡ text.old.items ++ halt_text self.now.stops.ranges (AtWrite index)) }
    {
        text.extend_from_slice(b"T05watch:")?;
        self.push_start(index, text)?;
        text.extend_from_slice(b";")
    }

    // Adds where a watched range begins, if there is one with this index.
    fn push_start(&self, index: usize, text: &mut Vec<u8>) -> Result<(), AllocError>
        ensures { OnOk result (text.new.items ≡ text.old.items ++ option_map_or (λ range. hexadecimal range.start) (slice_get self.now.stops.ranges index) []) }
    {
        match self.stops.ranges.get(index) {
            Some(range) => push_hexadecimal(text, range.start),
            None => Ok(()),
        }
    }

    /// Puts the text of the one reply packet into `text`, for a request that neither moves nor kills.
    pub(crate) fn answer<L: Ledger>(
        &mut self,
        request: &Request,
        text: &mut Vec<u8>,
        steps: &mut Steps<L>,
    ) -> Result<(), AllocError>
        requires { IsAnswered request.now }
        ensures { OnOk result (Answers false self.old request.now self.new (text.new.items ∷ [])) }
    {
        text.clear();
        match request {
            Request::Supported => text.extend_from_slice(FEATURES),
            Request::Features { from, len } => {
                push_piece(text, target_description(), *from, *len)
            }
            Request::NoAcks => {
                self.acks = false;
                push_ok(text)
            }
            Request::Why => text.extend_from_slice(b"T05"),
            Request::Registers => push_registers(text, self.state()),
            Request::Register(n) => push_register(text, self.state(), *n),
            Request::Memory { at, len } => push_memory(text, self.state(), *at, *len),
            Request::Insert { kind, at, len } => {
                self.insert(*kind, *at, *len)?;
                push_ok(text)
            }
            Request::Remove { kind, at, len } => {
                self.remove(*kind, *at, *len);
                push_ok(text)
            }
            Request::Monitor(command) => self.obey(command.as_bytes(), text, steps),
            Request::Write => text.extend_from_slice(REFUSAL),
            Request::Attached => text.extend_from_slice(b"1"),
            Request::SetThread | Request::Detach => push_ok(text),
            Request::Move(_) | Request::Kill | Request::Other => Ok(()),
        }
    }

    // Stops there from now on.
    fn insert(&mut self, kind: StopKind, at: u32, len: u32) -> Result<(), AllocError>
        ensures { OnOk result (self.new ≡ record self.old { stops = inserted kind at len self.old.stops }) }
    {
        match kind {
            StopKind::Breakpoint => add(&mut self.stops.addresses, at),
            StopKind::WriteWatch => add(&mut self.stops.ranges, range(at, len)),
        }
    }

    // Doesn't stop there any more.
    fn remove(&mut self, kind: StopKind, at: u32, len: u32)
        ensures { self.new ≡ record self.old { stops = removed kind at len self.old.stops } }
    {
        match kind {
            StopKind::Breakpoint => remove(&mut self.stops.addresses, at),
            StopKind::WriteWatch => remove(&mut self.stops.ranges, range(at, len)),
        }
    }

    // Does what a command says, and adds what is shown, in digits.
    fn obey<L: Ledger>(
        &mut self,
        command: &[u8],
        text: &mut Vec<u8>,
        steps: &mut Steps<L>,
    ) -> Result<(), AllocError>
        requires { text.old.items ≡ [] }
        ensures { OnOk result ((asked : Command) × IsCommand command.now asked × ((shown : List ℕ) × Obeys self.old asked self.new shown × (text.new.items ≡ shown_text shown))) }
    {
        let mut shown = Vec::new(*text.allocator());
        self.perform(read_command(command), &mut shown, steps)?;
        if shown.is_empty() {
            return push_ok(text);
        }
        push_hex(text, shown.as_slice())
    }

    // Does what a command says, and adds what is shown.
    fn perform<L: Ledger>(
        &mut self,
        command: Command,
        shown: &mut Vec<u8>,
        steps: &mut Steps<L>,
    ) -> Result<(), AllocError>
        requires { shown.old.items ≡ [] }
        ensures { OnOk result (Obeys self.old command self.new shown.new.items) }
    {
        match command {
            Command::When => self.show_place(shown),
            Command::Goto(n) => {
                self.go_to(n, steps);
                self.show_place(shown)
            }
            Command::End => {
                let most = self.timeline.most();
                self.go_to(most, steps);
                self.show_place(shown)
            }
            Command::Line => push_state_line(shown, self.timeline.place(), self.state()),
            Command::Quiet(quiet) => {
                self.quiet = quiet;
                Ok(())
            }
            Command::Help => push_help(shown),
            Command::Unknown => push_hint(shown),
        }
    }

    // Shows the state with a number, or the last one if the run ends before it.
    pub(crate) fn go_to<L: Ledger>(&mut self, n: u32, steps: &mut Steps<L>)
        ensures goes { GoesTo self.old n self.new }
        ensures known { n ≤ self.old.place → self.new.place ≡ n }
    {
        let place = n.min(self.timeline.most());
        self.timeline.are_places();
        self.timeline.go_to(place, steps);
        self.timeline.are_places();
    }

    // Adds the number of the state that is shown, its pc, and whether it runs.
    fn show_place(&self, shown: &mut Vec<u8>) -> Result<(), AllocError>
        ensures { OnOk result (shown.new.items ≡ shown.old.items ++ place_line self.now.place (shown_state self.now)) }
    {
        push_place_line(shown, self.timeline.place(), self.state())
    }
}

impl Model for Session {
    ghost Value = { Debugger };

    ghost coded = { debugger_code };

    ghost view = { debugger };
}

// So many bytes from an address on.
fn range(start: u32, length: u32) -> Range
    ensures { result ≡ record { start = start; length = length } }
{
    Range { start, length }
}

// Adds one to a list, if it isn't there.
fn add<T: Copy + PartialEq>(list: &mut Vec<T>, one: T) -> Result<(), AllocError>
    ensures { OnOk result (list.new.items ≡ with_one (λ a b. T.eq b a) one list.old.items) }
{
    if list.contains(&one) {
        return Ok(());
    }
    list.push(one)?;
    Ok(())
}

// Removes one from a list, wherever it is there.
fn remove<T: Copy + PartialEq>(list: &mut Vec<T>, one: T)
    ensures { list.new.items ≡ without_one (λ a b. T.eq b a) one list.old.items }
{
    list.retain(|other| *other != one);
}

fn push_ok(text: &mut Vec<u8>) -> Result<(), AllocError>
    ensures { OnOk result (text.new.items ≡ text.old.items ++ codes "OK") }
{
    text.extend_from_slice(b"OK")
}

// Adds so many bytes of a whole from a place on, and before them whether there are more.
fn push_piece(text: &mut Vec<u8>, whole: &[u8], from: u32, len: u32) -> Result<(), AllocError>
    ensures { OnOk result (text.new.items ≡ text.old.items ++ piece_text whole.now from len) }
{
    let start = (from as usize).min(whole.len());
    let end = (from as u64 + len as u64).min(whole.len() as u64) as usize;
    let more = end < whole.len();
    text.push(if more { b'm' } else { b'l' })?;
    text.extend_from_slice(&whole[start..end])
}

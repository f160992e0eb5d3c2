// How a server moves in its run.
ghost use Rattle.std.specs.Prelude.{◌≡◌, ◌<◌, ◌≤◌, ◌++◌, ℕ, ⊤, List, [], map, take, true, Err, IfOk, OnErr, OnOk};
ghost use Rattle.std.specs.List.{flat_map};
ghost use Rattle.keepers.specs.Prelude.{Rose, Tells};
ghost use Rattle.gdb_wire.specs.Prelude.{reply_packet};
ghost use Rattle.run_timeline.specs.Prelude.{state, CameForward, EndsForward, MatchPart};
ghost use Rattle.gdb_wire.specs.declared.request.Motion.TheVariants as motion;
ghost use Rattle.gdb_session.specs.declared.halt.Halt.TheVariants as halt;
ghost use Rattle.gdb_session.specs.declared.server.TalkFault.TheVariants as talk;
ghost use Rattle.gdb_session.specs.Debugger.{Debugger};
ghost use Rattle.gdb_session.specs.Answers.{Moves};
ghost use Rattle.gdb_session.specs.Moves.{hit_halt, step_halt, halt_text, ending_texts, console_text, ArePieces, Shows};
ghost use Rattle.gdb_session.specs.Conversation.{interrupts, last_packet, Passes};
ghost use Rattle.gdb_session.specs.SessionFields.{CameHere};
ghost use Rattle.gdb_session.specs.ServerState.{stop_texts, talker, BreaksOff, Does, GoesSome, IsMoved, IsShown, SaysReply};

use crate::halt::Halt;
use crate::server::{Server, TalkFault};
use gdb_line::Line;
use gdb_wire::{Motion, push_hex};
use run_timeline::{Hit, Part, Step};
use rv_machine::Steps;
use std::alloc::AllocError;
use std::sync::ledger::Ledger;

// As many bytes of the program's output as are shown at once.
const OUTPUT_PIECE: usize = 4096;

impl Server {
    /// Moves, and sends the reply.
    pub(crate) fn run_move<N: Line, L: Ledger>(
        &mut self,
        motion: Motion,
        line: &mut N,
        steps: &mut Steps<L>,
    ) -> Result<(), TalkFault>
        ensures moves { OnOk result (Tells (N.told line.old) (N.told line.new)
            (λ a b. (texts : List (List ℕ)) × Moves (interrupts self.new.held.items) self.old.session motion self.new.session texts
            × (self.new.last.items ≡ last_packet self.old.last.items texts) × Does self.old self.new (flat_map reply_packet texts) a b)) }
        ensures empty { OnOk result (self.new.out.items ≡ []) }
        ensures partly { OnErr result (Tells (N.told line.old) (N.told line.new)
            (λ a b. (came : List ℕ) × (went : List ℕ) × (texts : List (List ℕ)) × (e : Debugger) × (count : ℕ) × Passes came went a b
            × Moves (interrupts (self.old.held.items ++ came)) self.old.session motion e texts
            × (went ≡ take count (self.old.out.items ++ flat_map reply_packet texts)))) }
        ensures later { N.fault_count line.old ≤ N.fault_count line.new }
        ensures cause { result ≡ Err talk.Line → Rose (N.fault_count line.old) (N.fault_count line.new) }
    {
        let halt = self.move_by(motion, line, steps)?;
        self.push_stop(halt)?;
        self.send(line)
    }

    // Moves, and adds what the program writes on the way. What waits may be sent meanwhile.
    fn move_by<N: Line, L: Ledger>(
        &mut self,
        motion: Motion,
        line: &mut N,
        steps: &mut Steps<L>,
    ) -> Result<Halt, TalkFault>
        ensures moved { IfOk result (λ halt. Tells (N.told line.old) (N.told line.new)
            (λ a b. (written : List (List ℕ)) × IsMoved self.old self.new motion halt written × Does self.old self.new (flat_map reply_packet written) a b)) }
        ensures partly { OnErr result (Tells (N.told line.old) (N.told line.new) (BreaksOff self.old motion)) }
        ensures later { N.fault_count line.old ≤ N.fault_count line.new }
        ensures cause { result ≡ Err talk.Line → Rose (N.fault_count line.old) (N.fault_count line.new) }
    {
        self.session.is_within();
        match motion {
            Motion::Step => {
                let halt = self.step_forward(steps)?;
                Ok(halt)
            }
            Motion::StepBack => Ok(self.step_back(steps)),
            Motion::Continue => self.run_forward(line, steps),
            Motion::ContinueBack => self.run_back(line, steps),
        }
    }

    fn step_forward<L: Ledger>(&mut self, steps: &mut Steps<L>) -> Result<Halt, AllocError>
        ensures moved { IfOk result (λ halt. (written : List (List ℕ)) × IsMoved self.old self.new motion.Step halt written
            × (self.new.out.items ≡ self.old.out.items ++ flat_map reply_packet written)) }
        ensures held { self.new.held.items ≡ self.old.held.items }
    {
        let from = self.session.place();
        let written = self.session.written();
        let step = self.session.step_forward(steps);
        self.push_output(from, written, steps)?;
        Ok(halt_of_step(step, Halt::AtEnd))
    }

    fn step_back<L: Ledger>(&mut self, steps: &mut Steps<L>) -> Halt
        ensures moved { IsMoved self.old self.new motion.StepBack result [] }
        ensures held { self.new.held.items ≡ self.old.held.items }
        ensures out { self.new.out.items ≡ self.old.out.items }
    {
        let step = self.session.step_back(steps);
        halt_of_step(step, Halt::AtBeginning)
    }

    // Goes on until something is hit, the run ends, or gdb interrupts it.
    fn run_forward<N: Line, L: Ledger>(
        &mut self,
        line: &mut N,
        steps: &mut Steps<L>,
    ) -> Result<Halt, TalkFault>
        ensures moved { IfOk result (λ halt. Tells (N.told line.old) (N.told line.new)
            (λ a b. (written : List (List ℕ)) × IsMoved self.old self.new motion.Continue halt written × Does self.old self.new (flat_map reply_packet written) a b)) }
        ensures partly { OnErr result (Tells (N.told line.old) (N.told line.new) (BreaksOff self.old motion.Continue)) }
        ensures later { N.fault_count line.old ≤ N.fault_count line.new }
        ensures cause { result ≡ Err talk.Line → Rose (N.fault_count line.old) (N.fault_count line.new) }
    {
        self.session.is_within();
        let part = self.first_part(steps)?;
        if let Part::Ended(hit) = part {
            return Ok(halt_of_hit(hit, Halt::AtEnd));
        }
        loop {
            let interrupted = self.pause(line)?;
            if interrupted {
                return Ok(Halt::Interrupted);
            }
            let next = self.next_part(steps)?;
            if let Part::Ended(hit) = next {
                return Ok(halt_of_hit(hit, Halt::AtEnd));
            }
        }
    }

    // Takes the first part of a move forward, and adds what the program writes there.
    fn first_part<L: Ledger>(&mut self, steps: &mut Steps<L>) -> Result<Part, AllocError>
        ensures shown { OnOk result ((written : List (List ℕ)) × IsShown self.old self.new written × (self.new.out.items ≡ self.old.out.items ++ flat_map reply_packet written)) }
        ensures ends { IfOk result (λ part. MatchPart part (EndsForward self.old.session.run self.old.session.stops self.old.session.place self.new.session.place)
            (CameForward self.old.session.run self.old.session.stops self.old.session.place self.new.session.place)) }
        ensures further { IfOk result (λ part. MatchPart part (λ _. ⊤) (self.old.session.place < self.new.session.place)) }
        ensures within { self.new.session.place ≤ self.old.session.run.most }
        ensures held { self.new.held.items ≡ self.old.held.items }
    {
        let from = self.session.place();
        let written = self.session.written();
        let part = self.session.begin_forward(steps);
        self.push_output(from, written, steps)?;
        Ok(part)
    }

    // Takes the next part of a move forward, and adds what the program writes there.
    fn next_part<L: Ledger>(&mut self, steps: &mut Steps<L>) -> Result<Part, AllocError>
        requires { CameHere self.old.session }
        ensures shown { OnOk result ((written : List (List ℕ)) × IsShown self.old self.new written × (self.new.out.items ≡ self.old.out.items ++ flat_map reply_packet written)) }
        ensures ends { IfOk result (λ part. (p : ℕ) → p < self.old.session.place → CameForward self.old.session.run self.old.session.stops p self.old.session.place →
            MatchPart part (EndsForward self.old.session.run self.old.session.stops p self.new.session.place) (CameForward self.old.session.run self.old.session.stops p self.new.session.place)) }
        ensures further { IfOk result (λ part. MatchPart part (λ _. ⊤) (self.old.session.place < self.new.session.place)) }
        ensures order { self.old.session.place ≤ self.new.session.place }
        ensures within { self.new.session.place ≤ self.old.session.run.most }
        ensures held { self.new.held.items ≡ self.old.held.items }
    {
        let from = self.session.place();
        let written = self.session.written();
        let part = self.session.look_forward(steps);
        self.push_output(from, written, steps)?;
        Ok(part)
    }

    // Sends what waits. The result says whether gdb interrupts the move.
    fn pause<N: Line>(&mut self, line: &mut N) -> Result<bool, TalkFault>
        ensures does { OnOk result (Tells (N.told line.old) (N.told line.new) (Does self.old self.new [])) }
        ensures interrupted { IfOk result (λ is. is ≡ true → interrupts self.new.held.items ≡ true) }
        ensures refused { OnErr result (Tells (N.told line.old) (N.told line.new) (GoesSome self.old.out.items)) }
        ensures same { talker self.new ≡ talker self.old }
        ensures later { N.fault_count line.old ≤ N.fault_count line.new }
        ensures cause { result ≡ Err talk.Line → Rose (N.fault_count line.old) (N.fault_count line.new) }
    {
        self.send(line)?;
        self.is_interrupted(line)
    }

    // Goes back until something is hit, the run begins, or gdb interrupts it.
    fn run_back<N: Line, L: Ledger>(
        &mut self,
        line: &mut N,
        steps: &mut Steps<L>,
    ) -> Result<Halt, TalkFault>
        ensures moved { IfOk result (λ halt. Tells (N.told line.old) (N.told line.new)
            (λ a b. IsMoved self.old self.new motion.ContinueBack halt [] × Does self.old self.new [] a b)) }
        ensures out { self.new.out.items ≡ self.old.out.items }
        ensures partly { OnErr result (Tells (N.told line.old) (N.told line.new) (BreaksOff self.old motion.ContinueBack)) }
        ensures later { N.fault_count line.old ≤ N.fault_count line.new }
        ensures cause { result ≡ Err talk.Line → Rose (N.fault_count line.old) (N.fault_count line.new) }
    {
        self.session.is_within();
        let mut end = self.session.place();
        while end > 0 {
            let (from, found) = self.session.look_back(end, steps);
            if let Some((at, hit)) = found {
                self.session.go_to(at, steps);
                return Ok(halt_of_hit(Some(hit), Halt::AtBeginning));
            }
            end = from;
            let interrupted = self.is_interrupted(line)?;
            if interrupted {
                self.session.go_to(end, steps);
                return Ok(Halt::Interrupted);
            }
        }
        self.session.go_to(0, steps);
        Ok(Halt::AtBeginning)
    }

    // Adds what the program wrote on the way from a place, unless output is off. `written` counts its bytes up to that place.
    fn push_output<L: Ledger>(
        &mut self,
        from: u32,
        written: u64,
        steps: &mut Steps<L>,
    ) -> Result<(), AllocError>
        requires behind { from ≤ self.old.session.place }
        requires counted { written ≡ (state self.old.session.run from).written }
        ensures shows { OnOk result ((texts : List (List ℕ)) × Shows self.old.session.quiet self.old.session.run from self.old.session.place texts
            × (self.new.out.items ≡ self.old.out.items ++ flat_map reply_packet texts) × (self.new.last.items ≡ last_packet self.old.last.items texts)) }
        ensures same { SaysReply self.old self.new }
    {
        let bytes = self.session.output_since(self.alloc, from, written, steps)?;
        self.push_pieces(bytes.as_slice())
    }

    // Adds packets with a text that gdb shows to its user, in pieces.
    fn push_pieces(&mut self, text: &[u8]) -> Result<(), AllocError>
        ensures pieces { OnOk result ((pieces : List (List ℕ)) × ArePieces text.now pieces
            × (self.new.out.items ≡ self.old.out.items ++ flat_map reply_packet (map console_text pieces))
            × (self.new.last.items ≡ last_packet self.old.last.items (map console_text pieces))) }
        ensures same { SaysReply self.old self.new }
    {
        let mut rest = text;
        while !rest.is_empty() {
            let (piece, more) = rest.split_at(rest.len().min(OUTPUT_PIECE));
            self.push_console(piece)?;
            rest = more;
        }
        Ok(())
    }

    // Adds a packet with a text that gdb shows to its user.
    fn push_console(&mut self, text: &[u8]) -> Result<(), AllocError>
        ensures out { OnOk result (self.new.out.items ≡ self.old.out.items ++ reply_packet (console_text text.now)) }
        ensures last { OnOk result (self.new.last.items ≡ reply_packet (console_text text.now)) }
        ensures same { SaysReply self.old self.new }
    {
        self.text.clear();
        self.text.push(b'O')?;
        push_hex(&mut self.text, text)?;
        self.push_reply()
    }

    // Adds why the run ends, if it does, and the packet with why a move stopped.
    fn push_stop(&mut self, halt: Halt) -> Result<(), AllocError>
        ensures out { OnOk result (self.new.out.items ≡ self.old.out.items ++ flat_map reply_packet (stop_texts self.old.session halt)) }
        ensures last { OnOk result (self.new.last.items ≡ last_packet self.old.last.items (stop_texts self.old.session halt)) }
        ensures same { SaysReply self.old self.new }
    {
        self.push_ending(halt)?;
        self.push_halt(halt)
    }

    // Adds a packet with why the run ends, if it does.
    fn push_ending(&mut self, halt: Halt) -> Result<(), AllocError>
        ensures out { OnOk result (self.new.out.items ≡ self.old.out.items ++ flat_map reply_packet (ending_texts self.old.session.run self.old.session.place halt)) }
        ensures last { OnOk result (self.new.last.items ≡ last_packet self.old.last.items (ending_texts self.old.session.run self.old.session.place halt)) }
        ensures same { SaysReply self.old self.new }
    {
        match halt {
            Halt::AtEnd => {
                let mut line = Vec::new(self.alloc);
                self.session.push_ending(&mut line)?;
                self.push_console(line.as_slice())
            }
            Halt::AtPlace | Halt::AtWrite(_) | Halt::AtBeginning | Halt::Interrupted => Ok(()),
        }
    }

    // Adds the packet with why a move stopped.
    fn push_halt(&mut self, halt: Halt) -> Result<(), AllocError>
        ensures out { OnOk result (self.new.out.items ≡ self.old.out.items ++ reply_packet (halt_text self.old.session.stops.ranges halt)) }
        ensures last { OnOk result (self.new.last.items ≡ reply_packet (halt_text self.old.session.stops.ranges halt)) }
        ensures same { SaysReply self.old self.new }
    {
        self.text.clear();
        self.session.push_halt(halt, &mut self.text)?;
        self.push_reply()
    }
}

// Why a move stopped that hit something, or this if it hit nothing.
fn halt_of_hit(hit: Option<Hit>, otherwise: Halt) -> Halt
    ensures { result ≡ hit_halt hit otherwise }
{
    match hit {
        Some(Hit::Break) => Halt::AtPlace,
        Some(Hit::Watch(index)) => Halt::AtWrite(index),
        None => otherwise,
    }
}

// Why a step stopped, or this if there was none.
fn halt_of_step(step: Step, otherwise: Halt) -> Halt
    ensures { result ≡ step_halt step otherwise }
{
    match step {
        Step::Went => Halt::AtPlace,
        Step::Watched(index) => Halt::AtWrite(index),
        Step::End => otherwise,
    }
}

// A server that answers what comes on a line.
ghost use Rattle.std.specs.Prelude.{◌≡◌, ◌≢◌, ◌<◌, ◌≤◌, ◌^◌, ◌↔◌, ◌++◌, [], codes, length, Err, IsFalse, IsTrue, IfOk, OnErr, OnOk};
ghost use Rattle.keepers.specs.Prelude.{Rose, Tells, WhereTold};
ghost use Rattle.gdb_wire.specs.Prelude.{packet, IsPartial};
ghost use Rattle.gdb_session.specs.declared.server.ServeFault.TheVariants as fault;
ghost use Rattle.gdb_session.specs.declared.server.TalkFault.TheVariants as talk;
ghost use Rattle.gdb_session.specs.Conversation.{if_acks, IsLast, IsTooLong, Serves, ServesPartly};
ghost use Rattle.gdb_session.specs.ServerState.{said_by, sign_of, talker, OnlySends, IsAnsweredBy, IsAnsweredPartly, IsNew};
ghost use Rattle.gdb_session.specs.Turns.{Concludes, Continues, Fails, Feeds, Overflows};

use crate::server::{Kind, ServeFault, Server, TalkFault};
use crate::session::Session;
use crate::talk::MOST_HELD;
use gdb_line::Line;
use gdb_wire::{Request, read_request};
use run_timeline::Timeline;
use rv_machine::Steps;
use std::alloc::{AllocError, Global};
use std::sync::ledger::Ledger;

/// Answers what comes over a line, until gdb detaches or kills, or the line ends. The timeline is at its first state.
pub fn serve<N: Line, L: Ledger>(
    alloc: Global,
    timeline: Timeline,
    line: &mut N,
    steps: &mut Steps<L>,
) -> Result<(), ServeFault>
    requires { timeline.place ≡ 0 }
    ensures serves { OnOk result (Tells (N.told line.old) (N.told line.new) (Serves timeline.run)) }
    ensures partly { OnErr result (Tells (N.told line.old) (N.told line.new) (ServesPartly timeline.run)) }
    ensures fault { result ≡ Err fault.Line → Rose (N.fault_count line.old) (N.fault_count line.new) }
    ensures much { result ≡ Err fault.TooMuch → WhereTold (N.told line.new) (λ talk. 2 ^ 62 < length talk.came) }
    ensures long { result ≡ Err fault.TooLong → WhereTold (N.told line.new) IsTooLong }
{
    let mut server = Server::begin(alloc, timeline);
    server.converse(line, steps)
}

impl Server {
    // A server to which nothing came. The timeline is at its first state.
    fn begin(alloc: Global, timeline: Timeline) -> Server
        requires { timeline.place ≡ 0 }
        ensures new { IsNew result }
        ensures run { result.session.run ≡ timeline.run }
    {
        Server {
            alloc,
            session: Session::begin(alloc, timeline),
            held: Vec::new(alloc),
            last: Vec::new(alloc),
            text: Vec::new(alloc),
            out: Vec::new(alloc),
        }
    }

    // Answers items until the last one, or until the line ends.
    fn converse<N: Line, L: Ledger>(
        &mut self,
        line: &mut N,
        steps: &mut Steps<L>,
    ) -> Result<(), ServeFault>
        requires { IsNew self.old }
        ensures serves { OnOk result (Tells (N.told line.old) (N.told line.new) (Serves self.old.session.run)) }
        ensures partly { OnErr result (Tells (N.told line.old) (N.told line.new) (ServesPartly self.old.session.run)) }
        ensures fault { result ≡ Err fault.Line → Rose (N.fault_count line.old) (N.fault_count line.new) }
        ensures much { result ≡ Err fault.TooMuch → WhereTold (N.told line.new) (λ talk. 2 ^ 62 < length talk.came) }
        ensures long { result ≡ Err fault.TooLong → WhereTold (N.told line.new) IsTooLong }
    {
        for _ in 0..u64::MAX {
            if self.take_turn(line, steps)? {
                return Ok(());
            }
        }
        Err(ServeFault::TooMuch)
    }

    // Answers the next item, or takes more bytes if none came whole. The result says whether the conversation is over.
    fn take_turn<N: Line, L: Ledger>(
        &mut self,
        line: &mut N,
        steps: &mut Steps<L>,
    ) -> Result<bool, ServeFault>
        requires { self.old.out.items ≡ [] }
        ensures continues { IfOk result (λ over. IsFalse over → Tells (N.told line.old) (N.told line.new) (Continues self.old self.new)) }
        ensures feeds { IfOk result (λ over. IsFalse over → Tells (N.told line.old) (N.told line.new) (Feeds self.old self.new)) }
        ensures empty { IfOk result (λ over. IsFalse over → self.new.out.items ≡ []) }
        ensures concludes { IfOk result (λ over. IsTrue over → Tells (N.told line.old) (N.told line.new) (Concludes self.old)) }
        ensures fails { OnErr result (Tells (N.told line.old) (N.told line.new) (Fails self.old)) }
        ensures later { N.fault_count line.old ≤ N.fault_count line.new }
        ensures fault { result ≡ Err fault.Line → Rose (N.fault_count line.old) (N.fault_count line.new) }
        ensures long { result ≡ Err fault.TooLong → Tells (N.told line.old) (N.told line.new) (Overflows self.old) }
        ensures few { result ≢ Err fault.TooMuch }
    {
        match self.take_item()? {
            Some(kind) => Ok(self.answer(kind, line, steps)?),
            None => self.take_more(line),
        }
    }

    // Takes more bytes, after less than an item. The result says whether the line is at its end.
    fn take_more<N: Line>(&mut self, line: &mut N) -> Result<bool, ServeFault>
        requires empty { self.old.out.items ≡ [] }
        requires partial { IsPartial self.old.held.items }
        ensures continues { IfOk result (λ over. IsFalse over → Tells (N.told line.old) (N.told line.new) (Continues self.old self.new)) }
        ensures feeds { IfOk result (λ over. IsFalse over → Tells (N.told line.old) (N.told line.new) (Feeds self.old self.new)) }
        ensures empty { self.new.out.items ≡ [] }
        ensures concludes { IfOk result (λ over. IsTrue over → Tells (N.told line.old) (N.told line.new) (Concludes self.old)) }
        ensures fails { OnErr result (Tells (N.told line.old) (N.told line.new) (Fails self.old)) }
        ensures later { N.fault_count line.old ≤ N.fault_count line.new }
        ensures fault { result ≡ Err fault.Line → Rose (N.fault_count line.old) (N.fault_count line.new) }
        ensures long { result ≡ Err fault.TooLong → Tells (N.told line.old) (N.told line.new) (Overflows self.old) }
        ensures few { result ≢ Err fault.TooMuch }
    {
        if self.held.len() > MOST_HELD {
            return Err(ServeFault::TooLong);
        }
        Ok(self.receive(line)?)
    }

    // Answers an item. The result says whether it was gdb's last word.
    fn answer<N: Line, L: Ledger>(
        &mut self,
        kind: Kind,
        line: &mut N,
        steps: &mut Steps<L>,
    ) -> Result<bool, TalkFault>
        requires { self.old.out.items ≡ [] }
        ensures answered { OnOk result (Tells (N.told line.old) (N.told line.new) (IsAnsweredBy self.old self.new (said_by kind self.old.text.items))) }
        ensures ended { IfOk result (λ ended. IsTrue ended ↔ IsLast (said_by kind self.old.text.items)) }
        ensures empty { OnOk result (self.new.out.items ≡ []) }
        ensures partly { OnErr result (Tells (N.told line.old) (N.told line.new) (IsAnsweredPartly self.old (said_by kind self.old.text.items))) }
        ensures later { N.fault_count line.old ≤ N.fault_count line.new }
        ensures cause { result ≡ Err talk.Line → Rose (N.fault_count line.old) (N.fault_count line.new) }
    {
        match kind {
            Kind::Packet => self.answer_packet(line, steps),
            _ => {
                self.push_sign(kind)?;
                self.send(line)?;
                Ok(false)
            }
        }
    }

    // Adds what goes for an item that is no packet.
    fn push_sign(&mut self, kind: Kind) -> Result<(), AllocError>
        ensures out { OnOk result (self.new.out.items ≡ self.old.out.items ++ sign_of kind (talker self.old)) }
        ensures same { OnOk result (OnlySends self.old self.new) }
    {
        let acks = self.session.acks();
        match kind {
            Kind::DamagedPacket if acks => self.out.extend_from_slice(b"-"),
            Kind::Resend if acks => self.out.extend_from_slice(self.last.as_slice()),
            _ => Ok(()),
        }
    }

    // Answers a packet. The result says whether it was gdb's last word.
    fn answer_packet<N: Line, L: Ledger>(
        &mut self,
        line: &mut N,
        steps: &mut Steps<L>,
    ) -> Result<bool, TalkFault>
        requires { self.old.out.items ≡ [] }
        ensures answered { OnOk result (Tells (N.told line.old) (N.told line.new) (IsAnsweredBy self.old self.new (packet self.old.text.items))) }
        ensures ended { IfOk result (λ ended. IsTrue ended ↔ IsLast (packet self.old.text.items)) }
        ensures empty { OnOk result (self.new.out.items ≡ []) }
        ensures partly { OnErr result (Tells (N.told line.old) (N.told line.new) (IsAnsweredPartly self.old (packet self.old.text.items))) }
        ensures later { N.fault_count line.old ≤ N.fault_count line.new }
        ensures cause { result ≡ Err talk.Line → Rose (N.fault_count line.old) (N.fault_count line.new) }
    {
        let request = read_request(self.alloc, self.text.as_slice())?;
        self.push_ack()?;
        match request {
            Request::Move(motion) => {
                self.run_move(motion, line, steps)?;
                Ok(false)
            }
            Request::Kill => {
                self.send(line)?;
                Ok(true)
            }
            _ => {
                self.session.answer(&request, &mut self.text, steps)?;
                self.push_reply()?;
                self.send(line)?;
                let detached = matches!(request, Request::Detach);
                Ok(detached)
            }
        }
    }

    // Adds the acknowledgment of a packet, if packets are acknowledged.
    fn push_ack(&mut self) -> Result<(), AllocError>
        ensures out { OnOk result (self.new.out.items ≡ self.old.out.items ++ if_acks (talker self.old) (codes "+")) }
        ensures same { OnOk result (OnlySends self.old self.new) }
    {
        if self.session.acks() {
            self.out.extend_from_slice(b"+")?;
        }
        Ok(())
    }
}

// What came and isn't answered yet, and what waits to be sent.
ghost use Rattle.std.specs.Prelude.{◌≡◌, ◌<◌, ◌≤◌, ◌++◌, ℕ, List, [], length, true, false, Err, IfOk, OnErr, OnOk, MatchOption};
ghost use Rattle.keepers.specs.Prelude.{Rose, Tells, WhereTold};
ghost use Rattle.gdb_wire.specs.Prelude.{IsItem, IsPartial, said_by as said_by_item, reply_packet};
ghost use Rattle.gdb_line.specs.Prelude.{Goes, GoesPartly};
ghost use Rattle.gdb_session.specs.declared.server.TalkFault.TheVariants as talk;
ghost use Rattle.gdb_session.specs.Conversation.{interrupts};
ghost use Rattle.gdb_session.specs.ServerState.{said_by, Holds, MayCome, OnlyHolds, OnlySends, SaysReply, TakesItem};

use crate::server::{Kind, Server, TalkFault};
use gdb_line::Line;
use gdb_wire::{Item, next_item, push_packet, push_unescaped};
use std::alloc::AllocError;

// An interrupt.
const CTRL_C: u8 = 3;

// As many bytes as come at once.
const PIECE: usize = 4096;

/// As many bytes as may be held without a whole item.
pub(crate) const MOST_HELD: usize = 0x1_0000;

impl Server {
    /// Takes the next item, if it came whole. The text of a packet is that of the server then.
    pub(crate) fn take_item(&mut self) -> Result<Option<Kind>, AllocError>
        ensures item { IfOk result (λ taken. MatchOption taken (IsPartial self.new.held.items × (self.new.held.items ≡ self.old.held.items))
            (λ kind. (front : List ℕ) × (self.old.held.items ≡ front ++ self.new.held.items) × IsItem (said_by kind self.new.text.items) front)) }
        ensures same { OnOk result (TakesItem self.old self.new) }
    {
        self.text.clear();
        let Some(found) = next_item(self.held.as_slice()) else {
            return Ok(None);
        };
        let kind = read_item(&found.item, &mut self.text)?;
        let len = found.len;
        self.held.drain(..len);
        Ok(Some(kind))
    }

    /// Adds the packet of the reply's text to what waits. It is the last packet from now on.
    pub(crate) fn push_reply(&mut self) -> Result<(), AllocError>
        ensures out { OnOk result (self.new.out.items ≡ self.old.out.items ++ reply_packet self.old.text.items) }
        ensures last { OnOk result (self.new.last.items ≡ reply_packet self.old.text.items) }
        ensures same { SaysReply self.old self.new }
    {
        self.last.clear();
        push_packet(&mut self.last, self.text.as_slice())?;
        self.out.extend_from_slice(self.last.as_slice())
    }

    /// Sends what waits.
    pub(crate) fn send<N: Line>(&mut self, line: &mut N) -> Result<(), TalkFault>
        ensures goes { OnOk result (Tells (N.told line.old) (N.told line.new) (Goes self.old.out.items)) }
        ensures empty { OnOk result (self.new.out.items ≡ []) }
        ensures refused { OnErr result (Tells (N.told line.old) (N.told line.new) (GoesPartly self.old.out.items)) }
        ensures same { OnlySends self.old self.new }
        ensures later { N.fault_count line.old ≤ N.fault_count line.new }
        ensures cause { result ≡ Err talk.Line → Rose (N.fault_count line.old) (N.fault_count line.new) }
    {
        if !self.out.is_empty() {
            line.send(self.out.as_slice())?;
            self.out.clear();
        }
        Ok(())
    }

    /// Waits for what comes next, and holds it. The result says whether the line is at its end.
    pub(crate) fn receive<N: Line>(&mut self, line: &mut N) -> Result<bool, TalkFault>
        ensures holds { OnOk result (Tells (N.told line.old) (N.told line.new) (Holds self.old self.new)) }
        ensures end { IfOk result (λ end. end ≡ true → (self.new.held.items ≡ self.old.held.items) × WhereTold (N.told line.new) (λ talk. talk.left ≡ [])) }
        ensures more { IfOk result (λ end. end ≡ false → length self.old.held.items < length self.new.held.items) }
        ensures refused { OnErr result (Tells (N.told line.old) (N.told line.new) MayCome) }
        ensures same { OnlyHolds self.old self.new }
        ensures later { N.fault_count line.old ≤ N.fault_count line.new }
        ensures cause { result ≡ Err talk.Line → Rose (N.fault_count line.old) (N.fault_count line.new) }
    {
        let mut room = [0; PIECE];
        let count = line.receive(&mut room)?;
        self.held.extend_from_slice(&room[..count])?;
        Ok(count == 0)
    }

    /// Whether gdb interrupts what goes on: whether Ctrl-C came next.
    pub(crate) fn is_interrupted<N: Line>(&mut self, line: &mut N) -> Result<bool, TalkFault>
        ensures holds { OnOk result (Tells (N.told line.old) (N.told line.new) (Holds self.old self.new)) }
        ensures interrupted { IfOk result (λ is. is ≡ true → interrupts self.new.held.items ≡ true) }
        ensures refused { OnErr result (Tells (N.told line.old) (N.told line.new) MayCome) }
        ensures same { OnlyHolds self.old self.new }
        ensures later { N.fault_count line.old ≤ N.fault_count line.new }
        ensures cause { result ≡ Err talk.Line → Rose (N.fault_count line.old) (N.fault_count line.new) }
    {
        if self.held.len() < MOST_HELD {
            let mut room = [0; PIECE];
            let count = line.look(&mut room)?;
            self.held.extend_from_slice(&room[..count])?;
        }
        Ok(begins_with_interrupt(self.held.as_slice()))
    }
}

// Which item it is. The text of a packet goes to the room, which is empty.
fn read_item(item: &Item<'_>, text: &mut Vec<u8>) -> Result<Kind, AllocError>
    requires { text.old.items ≡ [] }
    ensures { IfOk result (λ kind. said_by kind text.new.items ≡ said_by_item item.now) }
{
    match item {
        Item::Packet(body) => {
            push_unescaped(text, body)?;
            Ok(Kind::Packet)
        }
        Item::DamagedPacket => Ok(Kind::DamagedPacket),
        Item::Interrupt => Ok(Kind::Interrupt),
        Item::Resend => Ok(Kind::Resend),
        Item::AckOrNoise => Ok(Kind::AckOrNoise),
    }
}

// Whether the bytes begin with Ctrl-C, but for acks and noise before it.
fn begins_with_interrupt(bytes: &[u8]) -> bool
    ensures { result ≡ interrupts bytes.now }
{
    for byte in bytes {
        if *byte == CTRL_C {
            return true;
        }
        if *byte == b'$' || *byte == b'-' {
            return false;
        }
    }
    false
}

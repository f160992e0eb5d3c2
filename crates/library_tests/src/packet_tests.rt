// Packets of a session of gdb 13.1, as values, and replies to them. Memory is ample, so all are read and written.
use crate::texts::expect;
use gdb_wire::{
    Found, Item, next_item, push_hex, push_packet, push_unescaped, push_word, read_request,
};
use std::test::Fail;

// Packets, and what they ask for. The first is shortened, and the last four are computed from gdb's manual.
const PACKETS: &[u8] = b"\
$qSupported:multiprocess+;swbreak+#1b Supported
$qXfer:features:read:target.xml:0,1000#0c Features { from: 0, len: 4096 }
$QStartNoAckMode#b0 NoAcks
$?#3f Why
$g#67 Registers
$mbfffffc0,40#f0 Memory { at: 3221225408, len: 64 }
$Z0,10014,4#0c Insert { kind: Breakpoint, at: 65556, len: 4 }
$z1,1006c,4#61 Remove { kind: Breakpoint, at: 65644, len: 4 }
$Z2,110e0,4#3f Insert { kind: WriteWatch, at: 69856, len: 4 }
$s#73 Move(Step)
$c#63 Move(Continue)
$bs#d5 Move(StepBack)
$bc#c5 Move(ContinueBack)
$qRcmd,7768656e#05 Monitor(Command { text: [119, 104, 101, 110] })
$Xbfffff80,2:\x02\x90#4a Write
$qAttached#8f Attached
$Hg0#df SetThread
$D#44 Detach
$k#6b Kill
$vMustReplyEmpty#3a Other
$vCont?#49 Other
$qC#b4 Other
$p20#d2 Register(32)
$mBFFFFFC0,40#10 Memory { at: 3221225408, len: 64 }
$m123456789,4#aa Other
$qRcmd,67x#08 Other";

#[test]
fn packets_ask_for_what_gdb_means(rt: HostRuntime) -> Result<(), Fail> {
    for line in PACKETS.split(|byte| *byte == b'\n') {
        let mut parts = line.splitn(2, |byte| *byte == b' ');
        let (Some(packet), Some(asked)) = (parts.next(), parts.next()) else {
            return Err("no pair".into());
        };
        let found = next_item(packet).ok_or("less than an item")?;
        let Found {
            item: Item::Packet(body),
            len,
        } = found
        else {
            return Err("no packet".into());
        };
        assert_eq!(rt; len, packet.len());
        let mut text = Vec::new(rt.alloc());
        push_unescaped(&mut text, body)?;
        let request = read_request(rt.alloc(), text.as_slice())?;
        let said = format!(in rt.alloc(); "{request:?}")?;
        assert_eq!(rt; said.as_bytes(), asked);
    }
    Ok(())
}

#[test]
fn replies_are_those_that_gdb_was_sent(rt: HostRuntime) -> Result<(), Fail> {
    let mut out = Vec::new(rt.alloc());
    push_packet(&mut out, b"OK")?;
    push_packet(&mut out, b"")?;
    push_packet(&mut out, b"T05watch:110e0;")?;
    push_packet(&mut out, b"}")?;
    push_word(&mut out, 0x10218)?;
    push_hex(&mut out, b"goto 60")?;
    expect(
        &rt,
        &out,
        b"$OK#9a$#00$T05watch:110e0;#6c$}]#da18020100676f746f203630",
    );
    Ok(())
}

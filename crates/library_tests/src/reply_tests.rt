// Texts from sessions of gdb 13.1, as values, and others computed by hand. Memory is ample, so all are added.
ghost use Rattle.std.specs.Prelude.{◌≡◌, ◌%◌};
ghost use Rattle.rv_machine.specs.Prelude.{IsStatus};

use crate::texts::expect;
use gdb_replies::{
    Command, push_ending_line, push_help, push_hexadecimal, push_hint, push_memory,
    push_place_line, push_register, push_registers, push_state_line, read_command,
    target_description,
};
use rv_machine::{State, Status};
use rv_pages::Pages;
use std::alloc::{AllocError, Global};
use std::test::Fail;

// A state at this address. The words at 0x10000 are those of a program. Three pages from there on are mapped, and the first page
// and the last of all.
fn state_at(alloc: Global, pc: u32, status: Status) -> Result<State, AllocError>
    requires aligned { pc % 4 ≡ 0 }
    requires status { IsStatus status }
{
    let mut pages = Pages::map(alloc, &[0, 0x10, 0x11, 0x12, 0xfffff])?;
    pages.store32(0x10000, 0x00002197);
    pages.store32(0x10004, 0x8a018193);
    pages.store32(0x10008, 0x00c000ef);
    pages.store32(0x1000c, 0x05d00893);
    pages.store32(0xfffffffc, 0x44332211);
    pages.store32(0, 0x88776655);
    let mut x = [0; 32];
    x[1] = 0x1000c;
    x[2] = 0xbffffff0;
    x[3] = 0x118a0;
    Ok(State {
        pc,
        x,
        status,
        item: 0,
        offset: 0,
        written: 0,
        pages,
    })
}

const COMMANDS: [(&[u8], Command); 18] = [
    (b"when", Command::When),
    (b"goto 60", Command::Goto(60)),
    (b"goto 999999", Command::Goto(999999)),
    (b"goto 007", Command::Goto(7)),
    (b"goto 4294967295", Command::Goto(4294967295)),
    (b"end", Command::End),
    (b"line", Command::Line),
    (b"quiet on", Command::Quiet(true)),
    (b"quiet off", Command::Quiet(false)),
    (b"help", Command::Help),
    (b"what", Command::Unknown),
    (b"", Command::Unknown),
    (b"when ", Command::Unknown),
    (b"quiet", Command::Unknown),
    (b"goto ", Command::Unknown),
    (b"goto +5", Command::Unknown),
    (b"goto 12x", Command::Unknown),
    (b"goto 4294967296", Command::Unknown),
];

#[test]
fn commands_are_what_the_user_means(rt: HostRuntime) -> Result<(), Fail> {
    for (text, command) in COMMANDS {
        assert_eq!(rt; read_command(text), command);
    }
    Ok(())
}

#[test]
fn commands_are_explained(rt: HostRuntime) -> Result<(), Fail> {
    let mut hint = Vec::new(rt.alloc());
    push_hint(&mut hint)?;
    expect(
        &rt,
        &hint,
        b"monitor when: the state that is shown; monitor goto N: show state N\n",
    );
    let mut help = Vec::new(rt.alloc());
    push_help(&mut help)?;
    expect(
        &rt,
        &help,
        b"monitor when: the state that is shown
monitor goto N: show state N
monitor end: show the last state of the run
monitor line: the state that is shown, as the line that reversal_cli writes of it
monitor quiet on, monitor quiet off: don't show, show what the program writes
monitor help: these lines
",
    );
    Ok(())
}

// The text as sent to gdb.
const TARGET_SENT: &[u8] =
    b"<?xml version=\"1.0\"?><!DOCTYPE target SYSTEM \"gdb-target.dtd\"><target version=\"1.0\">\
<architecture>riscv:rv32</architecture><osabi>none</osabi><feature name=\"org.gnu.gdb.riscv.cpu\">\
<reg name=\"zero\" bitsize=\"32\" type=\"int\" regnum=\"0\"/><reg name=\"ra\" bitsize=\"32\" type=\"code_ptr\" regnum=\"1\"/>\
<reg name=\"sp\" bitsize=\"32\" type=\"data_ptr\" regnum=\"2\"/><reg name=\"gp\" bitsize=\"32\" type=\"data_ptr\" regnum=\"3\"/>\
<reg name=\"tp\" bitsize=\"32\" type=\"data_ptr\" regnum=\"4\"/><reg name=\"t0\" bitsize=\"32\" type=\"int\" regnum=\"5\"/>\
<reg name=\"t1\" bitsize=\"32\" type=\"int\" regnum=\"6\"/><reg name=\"t2\" bitsize=\"32\" type=\"int\" regnum=\"7\"/>\
<reg name=\"fp\" bitsize=\"32\" type=\"data_ptr\" regnum=\"8\"/><reg name=\"s1\" bitsize=\"32\" type=\"int\" regnum=\"9\"/>\
<reg name=\"a0\" bitsize=\"32\" type=\"int\" regnum=\"10\"/><reg name=\"a1\" bitsize=\"32\" type=\"int\" regnum=\"11\"/>\
<reg name=\"a2\" bitsize=\"32\" type=\"int\" regnum=\"12\"/><reg name=\"a3\" bitsize=\"32\" type=\"int\" regnum=\"13\"/>\
<reg name=\"a4\" bitsize=\"32\" type=\"int\" regnum=\"14\"/><reg name=\"a5\" bitsize=\"32\" type=\"int\" regnum=\"15\"/>\
<reg name=\"a6\" bitsize=\"32\" type=\"int\" regnum=\"16\"/><reg name=\"a7\" bitsize=\"32\" type=\"int\" regnum=\"17\"/>\
<reg name=\"s2\" bitsize=\"32\" type=\"int\" regnum=\"18\"/><reg name=\"s3\" bitsize=\"32\" type=\"int\" regnum=\"19\"/>\
<reg name=\"s4\" bitsize=\"32\" type=\"int\" regnum=\"20\"/><reg name=\"s5\" bitsize=\"32\" type=\"int\" regnum=\"21\"/>\
<reg name=\"s6\" bitsize=\"32\" type=\"int\" regnum=\"22\"/><reg name=\"s7\" bitsize=\"32\" type=\"int\" regnum=\"23\"/>\
<reg name=\"s8\" bitsize=\"32\" type=\"int\" regnum=\"24\"/><reg name=\"s9\" bitsize=\"32\" type=\"int\" regnum=\"25\"/>\
<reg name=\"s10\" bitsize=\"32\" type=\"int\" regnum=\"26\"/><reg name=\"s11\" bitsize=\"32\" type=\"int\" regnum=\"27\"/>\
<reg name=\"t3\" bitsize=\"32\" type=\"int\" regnum=\"28\"/><reg name=\"t4\" bitsize=\"32\" type=\"int\" regnum=\"29\"/>\
<reg name=\"t5\" bitsize=\"32\" type=\"int\" regnum=\"30\"/><reg name=\"t6\" bitsize=\"32\" type=\"int\" regnum=\"31\"/>\
<reg name=\"pc\" bitsize=\"32\" type=\"code_ptr\" regnum=\"32\"/>\
</feature></target>";

#[test]
fn the_description_is_what_gdb_was_sent(rt: HostRuntime) {
    assert_eq!(rt; target_description(), TARGET_SENT);
}

// The lines of a state, and of a run that ends at it.
fn lines_of(alloc: Global, n: u32, state: &State) -> Result<Vec<u8>, AllocError> {
    let mut out = Vec::new(alloc);
    push_place_line(&mut out, n, state)?;
    push_ending_line(&mut out, n, state)?;
    Ok(out)
}

#[test]
fn a_state_and_an_ending_are_told_in_words(rt: HostRuntime) -> Result<(), Fail> {
    let alloc = rt.alloc();
    let running = state_at(alloc, 0x10064, Status::Running)?;
    let exited = state_at(alloc, 0x10010, Status::Exited(111))?;
    let trapped = state_at(alloc, 0x101c8, Status::Trapped(7))?;
    let cases: [(u32, &State, &[u8]); 3] = [
        (
            375,
            &running,
            b"state 375, pc 0x10064
reversal: the program still runs, and the run may have no more steps (state 375)
",
        ),
        (
            688,
            &exited,
            b"state 688, pc 0x10010, exit 111
reversal: the program exited with code 111 (state 688)
",
        ),
        (
            3032,
            &trapped,
            b"state 3032, pc 0x101c8, trap 7
reversal: the program stopped at a trap: a store where there is no memory (state 3032)
",
        ),
    ];
    for (n, state, right) in cases {
        expect(&rt, &lines_of(alloc, n, state)?, right);
    }
    Ok(())
}

#[test]
fn numbers_have_no_zeros_before_them(rt: HostRuntime) -> Result<(), Fail> {
    let mut out = Vec::new(rt.alloc());
    push_hexadecimal(&mut out, 0)?;
    push_hexadecimal(&mut out, 0xbffffff0)?;
    expect(&rt, &out, b"0bffffff0");
    Ok(())
}

#[test]
fn the_line_of_a_state_ends_with_its_digest(rt: HostRuntime) -> Result<(), Fail> {
    let state = state_at(rt.alloc(), 0x10014, Status::Running)?;
    let mut out = Vec::new(rt.alloc());
    push_state_line(&mut out, 60, &state)?;
    expect(
        &rt,
        &out,
        b"60 00010014 0001000c bffffff0 000118a0 \
00000000 00000000 00000000 00000000 00000000 00000000 00000000 00000000 00000000 00000000 \
00000000 00000000 00000000 00000000 00000000 00000000 00000000 00000000 00000000 00000000 \
00000000 00000000 00000000 00000000 00000000 00000000 00000000 00000000 \
run 0:0 0 c3b91b8572ec70bc57a2cb869362d61545e114d05eb57af5990c50480f003ca4\n",
    );
    Ok(())
}

// Three registers: sp, pc, and one that is not there.
fn three_registers(alloc: Global, state: &State) -> Result<Vec<u8>, AllocError> {
    let mut out = Vec::new(alloc);
    for number in [2, 32, 33] {
        push_register(&mut out, state, number)?;
    }
    Ok(out)
}

#[test]
fn registers_are_shown_with_their_lowest_byte_first(rt: HostRuntime) -> Result<(), Fail> {
    let state = state_at(rt.alloc(), 0x10014, Status::Running)?;
    let mut out = Vec::new(rt.alloc());
    push_registers(&mut out, &state)?;
    expect(
        &rt,
        &out,
        b"000000000c000100f0ffffbfa0180100\
00000000000000000000000000000000000000000000000000000000\
00000000000000000000000000000000000000000000000000000000\
00000000000000000000000000000000000000000000000000000000\
00000000000000000000000000000000000000000000000000000000\
14000100",
    );
    expect(
        &rt,
        &three_registers(rt.alloc(), &state)?,
        b"f0ffffbf14000100E01",
    );
    Ok(())
}

// Places and lengths of memory, and what is shown of it.
const SHOWN: [(u32, u32, &[u8]); 5] = [
    (0x10000, 16, b"972100009381018aef00c0009308d005"),
    (0x12ffe, 4, b"0000"),
    (0xfffffffe, 4, b"33445566"),
    (0x13000, 4, b"E01"),
    (0x10000, 0, b"E01"),
];

// What is shown of memory.
fn shown(alloc: Global, state: &State, at: u32, len: u32) -> Result<Vec<u8>, AllocError> {
    let mut out = Vec::new(alloc);
    push_memory(&mut out, state, at, len)?;
    Ok(out)
}

#[test]
fn memory_is_shown_up_to_its_end(rt: HostRuntime) -> Result<(), Fail> {
    let state = state_at(rt.alloc(), 0x10014, Status::Running)?;
    for (at, len, right) in SHOWN {
        expect(&rt, &shown(rt.alloc(), &state, at, len)?, right);
    }
    assert_eq!(rt; shown(rt.alloc(), &state, 0x10000, 9000)?.len(), 16384);
    Ok(())
}

// Calls at the greatest numbers and with long inputs. Memory is ample, so each call is done, and none runs out of it.
use crate::file_tests::ran;
use std::alloc::{AllocError, Global};
use std::test::Fail;

// ADDI x5, x5, 1 · JAL x0, -4
const COUNTING: &[u8] = b"\x93\x82\x12\x00\x6f\xf0\xdf\xff";

// A book of one level of 5,000 slots, which cost nothing.
const FREE: &[u8] =
    b"{\"forward\":1,\"reverse\":1,\"levels\":[{\"name\":\"RAM\",\"slots\":5000,\"write\":0,\"read\":0}]}";

// So many copies of a piece, one after the other.
fn repeated(alloc: Global, piece: &[u8], count: u32) -> Result<Vec<u8>, AllocError> {
    let mut bytes = Vec::new(alloc);
    for _ in 0..count {
        bytes.extend_from_slice(piece)?;
    }
    Ok(bytes)
}

// How many lines of a text begin with this.
fn lines_with(text: &[u8], begin: &[u8]) -> usize {
    text.split(|byte| *byte == b'\n')
        .filter(|line| line.starts_with(begin))
        .count()
}

#[test]
fn the_longest_source_is_assembled_and_listed_again(rt: HostRuntime) -> Result<(), Fail> {
    let source = repeated(rt.alloc(), b"addi x1, x0, 3\n", 1_048_576)?;
    let by_hand = repeated(rt.alloc(), b"\x93\x00\x30\x00", 1_048_576)?;
    let words = ran(&rt, &rt, &[("longest.s", &source)], "asm longest.s")?;
    assert_eq!(rt; words.ended.status, 0);
    assert!(rt; words.out.writer().as_slice() == by_hand.as_slice());
    let list = ran(&rt, &rt, &[("longest.bin", &by_hand)], "disasm longest.bin")?;
    assert_eq!(rt; list.ended.status, 0);
    assert!(rt; list.out.writer().as_slice() == source.as_slice());
    Ok(())
}

// A word of zeros is illegal, so state 1 and all later ones have trapped. All pages are zero, so the image ends before
// its pages. Its bytes were written by hand. Another program took their SHA-256.
#[test]
fn the_last_of_the_most_states_is_found(rt: HostRuntime) -> Result<(), Fail> {
    let line =
        "--raw --workers=4 ask find zeros.bin - 1000000 21573588a02f41bfffc6a05200ddc9596d0bf4171a9186f3e25e92b3cbbe88f3";
    let ran = ran(&rt, &rt, &[("zeros.bin", &[0; 4])], line)?;
    assert_eq!(rt; ran.ended.status, 0);
    assert_eq!(rt; ran.out.writer().as_slice(), b"1000000\n".as_slice());
    Ok(())
}

// The slots of two levels, the words of a plan, its steps, and the lines of its certificate. A certificate of tables
// has a line for each number of free slots of a counted level, and one each for the kind and the end. One of disk
// tables has two more, for the disk.
const PLANS: &[(&str, &str, &str, usize, usize)] = &[
    (
        "64",
        "64",
        "plan hrevolve plans.json 2048",
        2_048,
        2 * (65 + 64) + 2,
    ),
    (
        "64",
        "null",
        "plan disk plans.json 8192",
        8_192,
        65 + 64 + 4,
    ),
    ("40", "60", "plan multistage plans.json 10000", 10_000, 1),
    (
        "2000",
        "null",
        "plan periodic plans.json 10000 5000",
        10_000,
        0,
    ),
];

#[test]
fn plans_with_many_slots_are_made(rt: HostRuntime) -> Result<(), Fail> {
    for (fast, slow, words, steps, certificate) in PLANS {
        let book = format!(in rt.alloc();
            "{{\"forward\":1,\"reverse\":1,\"levels\":[{{\"name\":\"RAM\",\"slots\":{fast},\"write\":0,\"read\":0}},{{\"name\":\"DISK\",\"slots\":{slow},\"write\":2,\"read\":1}}]}}"
        )?;
        let planned = ran(&rt, &rt, &[("plans.json", book.as_bytes())], words)?;
        assert_eq!(rt; planned.ended.status, 0, "{words}");
        let plan = planned.out.writer();
        assert_eq!(rt; lines_with(plan, b"Reverse("), *steps, "{words}");
        assert_eq!(rt; lines_with(plan, b"EndReverse()"), 1, "{words}");
        assert_eq!(rt; lines_with(plan, b"#!"), *certificate, "{words}");
    }
    Ok(())
}

#[test]
fn a_program_and_a_journal_of_two_megabytes_are_read(rt: HostRuntime) -> Result<(), Fail> {
    let program = repeated(rt.alloc(), b"\x93\x00\x30\x00", 524_288)?;
    let mut journal = Vec::from_slice(rt.alloc(), b"RVJL\x01\x00\x00\x00\x02\x00\x00\x00")?;
    let item = repeated(rt.alloc(), b"x", 1_048_576)?;
    for _ in 0..2 {
        journal.extend_from_slice(b"\x00\x00\x10\x00")?;
        journal.extend_from_slice(&item)?;
    }
    let files: [(&str, &[u8]); 3] = [
        ("long.bin", &program),
        ("long.rvj", &journal),
        ("long.json", FREE),
    ];
    let line = "--raw run long.bin long.rvj long.json @revolve 1";
    let ran = ran(&rt, &rt, &files, line)?;
    assert_eq!(rt; ran.ended.status, 0);
    assert!(rt; ran.out.writer().starts_with(b"1 00010004 00000003 "));
    assert_eq!(rt; lines_with(ran.out.writer(), b"0 00010000 00000000 "), 1);
    Ok(())
}

// With a slot for each step no step is done again. Each step is taped and reversed. The states of all but the last are
// stored and taken. Two more lines are the ends.
#[test]
fn a_question_goes_over_a_list_of_20000_lines(rt: HostRuntime) -> Result<(), Fail> {
    let book = ("asked.json", FREE);
    let plan = ran(&rt, &rt, &[book], "plan revolve asked.json 5000")?;
    assert_eq!(rt; plan.ended.status, 0);
    let files = [
        ("asked.bin", COUNTING),
        book,
        ("asked.txt", plan.out.writer().as_slice()),
    ];
    let judged = ran(&rt, &rt, &files, "check asked.json asked.txt 5000")?;
    assert_eq!(rt; judged.out.writer().as_slice(), b"valid 20000\n".as_slice());
    let line = "--raw ask state asked.bin - asked.json asked.txt 5000 2500";
    let answered = ran(&rt, &rt, &files, line)?;
    assert_eq!(rt; answered.ended.status, 0);
    let state = b"2500 00010000 00000000 bffffff0 00000000 00000000 000004e2 ";
    assert!(rt; answered.out.writer().starts_with(state));
    Ok(())
}

// A source whose words are known, and its canonical lines.
use plan_types::Line;
use rv_asm::{assemble, disassemble};
use std::test::Fail;

// Sums the bytes of its input, at 0x11000.
const SOURCE: &[u8] = b"lui x8, 17
next: addi x10, x0, 0
addi x11, x8, 4
addi x12, x0, 1
addi x17, x0, 63
ecall
beq x10, x0, end
lw x5, 0(x8)
addi x5, x5, 1
sw x5, 0(x8)
jal x0, next
end: addi x17, x0, 93
ecall
";

const WORDS: [u32; 13] = [
    0x00011437, 0x00000513, 0x00440593, 0x00100613, 0x03f00893, 0x00000073, 0x00050a63, 0x00042283,
    0x00128293, 0x00542023, 0xfddff06f, 0x05d00893, 0x00000073,
];

#[test]
fn the_words_of_a_source_are_known(rt: HostRuntime) -> Result<(), Fail> {
    let words = assemble(rt.alloc(), SOURCE)?;
    assert_eq!(rt; words.as_slice(), WORDS.as_slice());
    Ok(())
}

#[test]
fn the_line_of_a_word_is_known(rt: HostRuntime) {
    let mut line = Line::new();
    disassemble(0xfddff06f, &mut line);
    assert_eq!(rt; line.bytes(), b"jal x0, -36".as_slice());
}

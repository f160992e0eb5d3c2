// The word of operands, by the formats.
ghost use Rattle.std.specs.Prelude.{◌≡◌, ◌+◌, ◌*◌, ◌/◌, ◌%◌, ◌^◌, ◌<◌};
ghost use Rattle.rv_asm.specs.declared.table.Format.TheVariants as formats;
ghost use Rattle.rv_asm.specs.PackedWords.{packed as packed_of, IsBase, IsSmall, IsWide, InFormat};

use crate::table::{Code, Format, Operands};

// The word with these operands, from the one whose operands are all 0.
pub(crate) fn packed(code: Code, operands: Operands) -> u32
    requires base { IsBase code.format code.base }
    requires operands { InFormat code.format operands }
    ensures { result ≡ packed_of code.format code.base operands }
{
    match code.format {
        Format::Upper => upper(code.base, operands),
        Format::Jump => jump(code.base, operands),
        Format::Indexed => with_immediate(code.base, operands),
        Format::Branch => branch(code.base, operands),
        Format::Store => store(code.base, operands),
        Format::Immediate => with_immediate(code.base, operands),
        Format::Shift => of_registers(code.base, operands.rd, operands.rs1, operands.imm),
        Format::Registers => of_registers(
            code.base,
            operands.rd,
            operands.rs1,
            u32::from(operands.rs2),
        ),
        Format::Plain => code.base,
        Format::Word => operands.imm,
    }
}

fn upper(base: u32, operands: Operands) -> u32
    requires base { base < 2 ^ 7 }
    requires operands { InFormat formats.Upper operands }
    ensures { result ≡ packed_of formats.Upper base operands }
{
    base + (u32::from(operands.rd) << 7) + (operands.imm << 12)
}

fn jump(base: u32, operands: Operands) -> u32
    requires base { base < 2 ^ 7 }
    requires operands { InFormat formats.Jump operands }
    ensures { result ≡ packed_of formats.Jump base operands }
{
    let imm = operands.imm;
    let high = ((imm >> 12 & 0xff) << 12) + ((imm >> 11 & 1) << 20);
    let low = ((imm >> 1 & 0x3ff) << 21) + ((imm >> 20 & 1) << 31);
    base + (u32::from(operands.rd) << 7) + high + low
}

// The word of an instruction whose immediate is where a load has it.
fn with_immediate(base: u32, operands: Operands) -> u32
    requires base { IsSmall base }
    requires rd { operands.rd < 32 }
    requires rs1 { operands.rs1 < 32 }
    ensures { result ≡ base + operands.rd * 2 ^ 7 + operands.rs1 * 2 ^ 15 + operands.imm % 2 ^ 5 * 2 ^ 20
        + operands.imm / 2 ^ 5 % 2 ^ 7 * 2 ^ 25 }
{
    let imm = operands.imm;
    let registers = (u32::from(operands.rd) << 7) + (u32::from(operands.rs1) << 15);
    base + registers + ((imm & 0x1f) << 20) + ((imm >> 5 & 0x7f) << 25)
}

fn store(base: u32, operands: Operands) -> u32
    requires base { IsSmall base }
    requires operands { InFormat formats.Store operands }
    ensures { result ≡ packed_of formats.Store base operands }
{
    let imm = operands.imm;
    let registers = (u32::from(operands.rs1) << 15) + (u32::from(operands.rs2) << 20);
    base + ((imm & 0x1f) << 7) + registers + ((imm >> 5 & 0x7f) << 25)
}

fn branch(base: u32, operands: Operands) -> u32
    requires base { IsSmall base }
    requires operands { InFormat formats.Branch operands }
    ensures { result ≡ packed_of formats.Branch base operands }
{
    let imm = operands.imm;
    let registers = (u32::from(operands.rs1) << 15) + (u32::from(operands.rs2) << 20);
    let low = ((imm >> 1 & 0xf) << 1) + (imm >> 11 & 1);
    let high = ((imm >> 12 & 1) << 6) + (imm >> 5 & 0x3f);
    base + (low << 7) + registers + (high << 25)
}

// The word of an instruction with three registers, or with a shift amount as the last.
fn of_registers(base: u32, rd: u8, rs1: u8, last: u32) -> u32
    requires base { IsWide base }
    requires rd { rd < 32 }
    requires rs1 { rs1 < 32 }
    requires last { last < 32 }
    ensures { result ≡ base + rd * 2 ^ 7 + rs1 * 2 ^ 15 + last * 2 ^ 20 }
{
    base + (u32::from(rd) << 7) + (u32::from(rs1) << 15) + (last << 20)
}

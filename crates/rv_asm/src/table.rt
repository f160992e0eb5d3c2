// The instructions of a source, and the operands after the name of each.
ghost use Rattle.std.specs.Prelude.{◌≡◌, map};
ghost use Rattle.std.specs.Str.{bytes_eq};
ghost use Rattle.std.specs.Map.{lookup};
ghost use Rattle.rv_asm.specs.Table.{wants as wants_of};
ghost use Rattle.rv_asm.specs.Encoder.{code_of, coded};

// The registers of an instruction, by their fields.
#[derive(Clone, Copy)]
pub(crate) enum Field {
    Rd,
    Rs1,
    Rs2,
}

// What is allowed at one place: a register, this byte, or a number or target from `-low` to `high`.
#[derive(Clone, Copy)]
pub(crate) enum Want {
    Register(Field),
    Mark(u8),
    Number { low: u64, high: u64 },
    Target { low: u64, high: u64 },
}

// The formats of the operands after a name.
#[derive(Clone, Copy)]
pub(crate) enum Format {
    Upper,
    Jump,
    Indexed,
    Branch,
    Store,
    Immediate,
    Shift,
    Registers,
    Plain,
    Word,
}

// The operands of a line: registers, and a number or a target as 32 bits.
#[derive(Clone, Copy)]
pub(crate) struct Operands {
    pub rd: u8,
    pub rs1: u8,
    pub rs2: u8,
    pub imm: u32,
}

// What the table has at a name: the format, and the word whose operands are all 0.
#[derive(Clone, Copy)]
pub(crate) struct Code {
    pub format: Format,
    pub base: u32,
}

const RD: Want = Want::Register(Field::Rd);

const RS1: Want = Want::Register(Field::Rs1);

const RS2: Want = Want::Register(Field::Rs2);

const COMMA: Want = Want::Mark(b',');

const OPENING: Want = Want::Mark(b'(');

const CLOSING: Want = Want::Mark(b')');

const SMALL: Want = Want::Number {
    low: 2048,
    high: 2047,
};

const UPPER: [Want; 3] = [
    RD,
    COMMA,
    Want::Number {
        low: 0,
        high: 1048575,
    },
];

const JUMP: [Want; 3] = [
    RD,
    COMMA,
    Want::Target {
        low: 1048576,
        high: 1048574,
    },
];

const INDEXED: [Want; 6] = [RD, COMMA, SMALL, OPENING, RS1, CLOSING];

const BRANCH: [Want; 5] = [
    RS1,
    COMMA,
    RS2,
    COMMA,
    Want::Target {
        low: 4096,
        high: 4094,
    },
];

const STORE: [Want; 6] = [RS2, COMMA, SMALL, OPENING, RS1, CLOSING];

const IMMEDIATE: [Want; 5] = [RD, COMMA, RS1, COMMA, SMALL];

const SHIFT: [Want; 5] = [RD, COMMA, RS1, COMMA, Want::Number { low: 0, high: 31 }];

const REGISTERS: [Want; 5] = [RD, COMMA, RS1, COMMA, RS2];

const PLAIN: [Want; 0] = [];

const WORD: [Want; 1] = [Want::Number {
    low: 0,
    high: 4294967295,
}];

// The operands after a name, by its format.
pub(crate) fn wants(format: Format) -> &'static [Want]
    ensures { result.now ≡ wants_of format }
{
    match format {
        Format::Upper => &UPPER,
        Format::Jump => &JUMP,
        Format::Indexed => &INDEXED,
        Format::Branch => &BRANCH,
        Format::Store => &STORE,
        Format::Immediate => &IMMEDIATE,
        Format::Shift => &SHIFT,
        Format::Registers => &REGISTERS,
        Format::Plain => &PLAIN,
        Format::Word => &WORD,
    }
}

// A row for each instruction, and the last for any word. It has the name, the format, and the word with all operands 0.
pub(crate) const TABLE: [(&[u8], Format, u32); 49] = [
    (b"lui", Format::Upper, 0x00000037),
    (b"auipc", Format::Upper, 0x00000017),
    (b"jal", Format::Jump, 0x0000006f),
    (b"jalr", Format::Indexed, 0x00000067),
    (b"beq", Format::Branch, 0x00000063),
    (b"bne", Format::Branch, 0x00001063),
    (b"blt", Format::Branch, 0x00004063),
    (b"bge", Format::Branch, 0x00005063),
    (b"bltu", Format::Branch, 0x00006063),
    (b"bgeu", Format::Branch, 0x00007063),
    (b"lb", Format::Indexed, 0x00000003),
    (b"lh", Format::Indexed, 0x00001003),
    (b"lw", Format::Indexed, 0x00002003),
    (b"lbu", Format::Indexed, 0x00004003),
    (b"lhu", Format::Indexed, 0x00005003),
    (b"sb", Format::Store, 0x00000023),
    (b"sh", Format::Store, 0x00001023),
    (b"sw", Format::Store, 0x00002023),
    (b"addi", Format::Immediate, 0x00000013),
    (b"slti", Format::Immediate, 0x00002013),
    (b"sltiu", Format::Immediate, 0x00003013),
    (b"xori", Format::Immediate, 0x00004013),
    (b"ori", Format::Immediate, 0x00006013),
    (b"andi", Format::Immediate, 0x00007013),
    (b"slli", Format::Shift, 0x00001013),
    (b"srli", Format::Shift, 0x00005013),
    (b"srai", Format::Shift, 0x40005013),
    (b"add", Format::Registers, 0x00000033),
    (b"sub", Format::Registers, 0x40000033),
    (b"sll", Format::Registers, 0x00001033),
    (b"slt", Format::Registers, 0x00002033),
    (b"sltu", Format::Registers, 0x00003033),
    (b"xor", Format::Registers, 0x00004033),
    (b"srl", Format::Registers, 0x00005033),
    (b"sra", Format::Registers, 0x40005033),
    (b"or", Format::Registers, 0x00006033),
    (b"and", Format::Registers, 0x00007033),
    (b"mul", Format::Registers, 0x02000033),
    (b"mulh", Format::Registers, 0x02001033),
    (b"mulhsu", Format::Registers, 0x02002033),
    (b"mulhu", Format::Registers, 0x02003033),
    (b"div", Format::Registers, 0x02004033),
    (b"divu", Format::Registers, 0x02005033),
    (b"rem", Format::Registers, 0x02006033),
    (b"remu", Format::Registers, 0x02007033),
    (b"fence", Format::Plain, 0x0ff0000f),
    (b"ecall", Format::Plain, 0x00000073),
    (b"ebreak", Format::Plain, 0x00100073),
    (b".word", Format::Word, 0x00000000),
];

// What the table has at a name.
#[tactic(auto, unfolding(crate::specs::Encoder::coded, crate::specs::Encoder::entries))]
pub(crate) fn named(name: &[u8]) -> Option<Code>
    ensures { result ≡ coded name.now }
{
    find(&TABLE, name)
}

fn find(mut table: &[(&[u8], Format, u32)], name: &[u8]) -> Option<Code>
    ensures { result ≡ lookup (bytes_eq name.now) (map (λ k. (k.0.now, code_of k.1 k.2)) table.entry.now) }
{
    while let [row, rest @ ..] = table {
        if is_text(name, row.0) {
            return Some(Code {
                format: row.1,
                base: row.2,
            });
        }
        table = rest;
    }
    None
}

// Whether two texts have the same bytes. Most names differ in their first byte, so one comparison usually decides.
fn is_text(text: &[u8], other: &[u8]) -> bool
    ensures { result ≡ bytes_eq text.now other.now }
{
    match (text, other) {
        ([first, ..], [other_first, ..]) if first != other_first => false,
        _ => text == other,
    }
}

// The fields of an instruction word, and the immediates of the formats.
ghost use Rattle.std.specs.Prelude.{◌≡◌, ◌+◌, ◌-◌, ◌*◌, ◌^◌, ◌<◌, ◌≤◌, cond, nat_lt};
ghost use Rattle.rv_decode.specs.Formats.{opcode as opcode_of, rd as rd_of, funct3 as funct3_of, rs1 as rs1_of, rs2 as rs2_of, funct7 as funct7_of, imm_i as imm_i_of, imm_s as imm_s_of, imm_b as imm_b_of, imm_u as imm_u_of, imm_j as imm_j_of, shift_amount as shift_amount_of};

/// Bits 6 to 0.
#[inline(always)]
pub fn opcode(word: u32) -> u32
    ensures { result ≡ opcode_of word }
{
    word & 0x7f
}

/// The register that is written.
#[inline(always)]
pub fn rd(word: u32) -> u8
    ensures { result ≡ rd_of word }
{
    (word >> 7 & 0x1f) as u8
}

/// Bits 14 to 12.
#[inline(always)]
pub fn funct3(word: u32) -> u32
    ensures { result ≡ funct3_of word }
{
    word >> 12 & 0x7
}

/// The first register that is read.
#[inline(always)]
pub fn rs1(word: u32) -> u8
    ensures { result ≡ rs1_of word }
{
    (word >> 15 & 0x1f) as u8
}

/// The second one.
#[inline(always)]
pub fn rs2(word: u32) -> u8
    ensures { result ≡ rs2_of word }
{
    (word >> 20 & 0x1f) as u8
}

/// Bits 31 to 25.
#[inline(always)]
pub fn funct7(word: u32) -> u32
    ensures { result ≡ funct7_of word }
{
    word >> 25
}

// A number with this sign bit, extended to 32 bits.
#[inline(always)]
fn extended(n: u32, sign: u32) -> u32
    requires sign { sign ≤ 2 ^ 30 }
    requires number { n < 2 * sign }
    ensures { result ≡ cond (nat_lt n sign) n (n + 2 ^ 32 - 2 * sign) }
{
    if n < sign {
        n
    } else {
        n.wrapping_sub(2 * sign)
    }
}

/// The immediate of format I.
#[inline(always)]
pub fn imm_i(word: u32) -> u32
    ensures { result ≡ imm_i_of word }
{
    extended(word >> 20, 1 << 11)
}

/// The immediate of format S.
#[inline(always)]
pub fn imm_s(word: u32) -> u32
    ensures { result ≡ imm_s_of word }
{
    extended(((word >> 25) << 5) + (word >> 7 & 0x1f), 1 << 11)
}

/// The immediate of format B.
#[inline(always)]
pub fn imm_b(word: u32) -> u32
    ensures { result ≡ imm_b_of word }
{
    let (bit_12, bit_11) = (word >> 31, word >> 7 & 1);
    let (bits_10_to_5, bits_4_to_1) = (word >> 25 & 0x3f, word >> 8 & 0xf);
    let low = (bits_10_to_5 << 5) + (bits_4_to_1 << 1);
    extended((bit_12 << 12) + (bit_11 << 11) + low, 1 << 12)
}

/// The immediate of format U.
#[inline(always)]
pub fn imm_u(word: u32) -> u32
    ensures { result ≡ imm_u_of word }
{
    (word >> 12) << 12
}

/// The immediate of format J.
#[inline(always)]
pub fn imm_j(word: u32) -> u32
    ensures { result ≡ imm_j_of word }
{
    let (bit_20, bits_19_to_12) = (word >> 31, word >> 12 & 0xff);
    let (bit_11, bits_10_to_1) = (word >> 20 & 1, word >> 21 & 0x3ff);
    let low = (bit_11 << 11) + (bits_10_to_1 << 1);
    extended((bit_20 << 20) + (bits_19_to_12 << 12) + low, 1 << 20)
}

/// How far a shift by an immediate shifts.
#[inline(always)]
pub fn shift_amount(word: u32) -> u32
    ensures { result ≡ shift_amount_of word }
{
    word >> 20 & 0x1f
}

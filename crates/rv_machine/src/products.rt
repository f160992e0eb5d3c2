// Products, quotients and remainders of words.
ghost use Rattle.std.specs.Prelude.{◌≡◌};
ghost use Rattle.rv_machine.specs.Products.{as_word, upper_part, high_signed as high_signed_of, high_signed_unsigned as high_signed_unsigned_of, high_unsigned as high_unsigned_of, quotient_signed as quotient_signed_of, quotient_unsigned as quotient_unsigned_of, remainder_signed as remainder_signed_of, remainder_unsigned as remainder_unsigned_of};

// The upper 32 bits of a number.
#[inline(always)]
fn upper_word(number: i64) -> u32
    ensures { result ≡ as_word (upper_part number) }
{
    ((number >> 32) as i32).cast_unsigned()
}

// The upper word of a product: signed by signed, signed by unsigned, and unsigned by unsigned.
#[inline(always)]
pub(crate) fn high_signed(a: u32, b: u32) -> u32
    ensures { result ≡ high_signed_of a b }
{
    upper_word(a.cast_signed() as i64 * b.cast_signed() as i64)
}

#[inline(always)]
pub(crate) fn high_signed_unsigned(a: u32, b: u32) -> u32
    ensures { result ≡ high_signed_unsigned_of a b }
{
    upper_word(a.cast_signed() as i64 * b as i64)
}

#[inline(always)]
pub(crate) fn high_unsigned(a: u32, b: u32) -> u32
    ensures { result ≡ high_unsigned_of a b }
{
    let product = a as u64 * b as u64;
    (product >> 32) as u32
}

// A quotient, rounded towards zero. By zero it has all bits set.
#[inline(always)]
pub(crate) fn quotient_signed(a: u32, b: u32) -> u32
    ensures { result ≡ quotient_signed_of a b }
{
    if b == 0 {
        return u32::MAX;
    }
    a.cast_signed()
        .wrapping_div(b.cast_signed())
        .cast_unsigned()
}

#[inline(always)]
pub(crate) fn quotient_unsigned(a: u32, b: u32) -> u32
    ensures { result ≡ quotient_unsigned_of a b }
{
    if b == 0 { u32::MAX } else { a / b }
}

// The remainder of a division. By zero it is the dividend.
#[inline(always)]
pub(crate) fn remainder_signed(a: u32, b: u32) -> u32
    ensures { result ≡ remainder_signed_of a b }
{
    if b == 0 {
        return a;
    }
    a.cast_signed()
        .wrapping_rem(b.cast_signed())
        .cast_unsigned()
}

#[inline(always)]
pub(crate) fn remainder_unsigned(a: u32, b: u32) -> u32
    ensures { result ≡ remainder_unsigned_of a b }
{
    if b == 0 { a } else { a % b }
}

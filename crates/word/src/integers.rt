// Integers of 32 bits: the two readings of a word, and ADD, SUB, TIMES, DIV and MOD.
ghost use Rattle.std.specs.Prelude.{◌≡◌, ◌+ℤ◌, ◌-ℤ◌};
ghost use Rattle.rules.specs.Words.{signed, word, in_word, times, quotient, remainder};

use rules::words;

// A word has two halves of 16 bits: each is below this.
const HALF: u32 = 0x1_0000;

// The number that a word stands for, by two's complement.
pub fn signed(b: u32) -> i32
    ensures { result ≡ signed b }
{
    b.cast_signed()
}

// Whether a word stands for the number.
fn in_word(z: i64) -> bool
    ensures { result ≡ in_word z }
{
    i32::try_from(z).is_ok()
}

// ADD: the sum, modulo 2^32.
pub fn plus(b: u32, t: u32) -> u32
    ensures { result ≡ word (signed b +ℤ signed t) }
{
    b.wrapping_add(t)
}

// ADD: whether a word stands for the exact sum.
pub fn plus_in_word(b: u32, t: u32) -> bool
    ensures { result ≡ in_word (signed b +ℤ signed t) }
{
    in_word(signed(b) as i64 + signed(t) as i64)
}

// SUB: the difference, modulo 2^32.
pub fn minus(b: u32, t: u32) -> u32
    ensures { result ≡ word (signed b -ℤ signed t) }
{
    b.wrapping_sub(t)
}

// SUB: whether a word stands for the exact difference.
pub fn minus_in_word(b: u32, t: u32) -> bool
    ensures { result ≡ in_word (signed b -ℤ signed t) }
{
    in_word(signed(b) as i64 - signed(t) as i64)
}

// TIMES: the product, modulo 2^32, by halves of 16 bits. The product of the upper halves is a multiple of 2^32.
// Stays: document 01 names this form (docs/DECISIONS.md, "The forms of document 01"): TIMES over halves of 16 bits.
pub fn times(b: u32, t: u32) -> u32
    ensures { result ≡ times b t }
{
    let (bh, bl) = (b / HALF, b % HALF);
    let (th, tl) = (t / HALF, t % HALF);
    let middle = (bh * tl).wrapping_add(bl * th);
    (middle % HALF * HALF).wrapping_add(bl * tl)
}

// DIV: the quotient toward zero. -2^31 by -1 is 2^31, whose bits are those of -2^31. By zero, which a step refuses, it is 0.
// Stays: 0 and no None by zero, since that is what its clause promises there, and that of a public function may not change.
pub fn quotient(b: u32, t: u32) -> u32
    ensures { result ≡ quotient b t }
{
    if t == 0 {
        return 0;
    }
    // Stays: document 01 names this form (docs/DECISIONS.md, "The forms of document 01"): -2^31 by -1 is asked before the division, here and in MOD.
    if b == words::LOWEST && t == words::MINUS_ONE {
        return words::LOWEST;
    }
    (signed(b) / signed(t)).cast_unsigned()
}

// MOD: the remainder, with the dividend's sign. -2^31 by -1 leaves 0. By zero, which a step refuses, it is the dividend.
// Stays: the dividend and no None by zero, since that is what its clause promises there, and that of a public function may not change.
pub fn remainder(b: u32, t: u32) -> u32
    ensures { result ≡ remainder b t }
{
    if t == 0 {
        return b;
    }
    if b == words::LOWEST && t == words::MINUS_ONE {
        return 0;
    }
    (signed(b) % signed(t)).cast_unsigned()
}

// ITOF and FTOI: the FLOAT nearest to an INT, and the INT that a FLOAT is cut to, by the bits.
ghost use Rattle.std.specs.Prelude.{◌≡◌, ◌/◌, ◌<◌, if◌then◌else◌, unsigned_abs};
ghost use Rattle.rules.specs.Words.{signed, word};
ghost use Rattle.rules.specs.Exact.{exponent, scale, magnitude};
ghost use Rattle.rules.specs.Floats.{int_to_f, cut, has_int};

use crate::{EXPONENT_WEIGHT, SIGN, rounding};
use rules::words;

// How many exponents there are.
const EXPONENT_SPAN: u32 = 0x100;

// The exponent of the values from 1 on, and that of those whose last digit counts 1.
const FROM_ONE: u32 = 127;

pub const WHOLE: u32 = 150;

// The bits of 2^31, and of -2^31.
const ABOVE_HIGHEST: u32 = 0x4f00_0000;

const LOWEST: u32 = 0xcf00_0000;

// The number that a word stands for, without its sign.
fn size_of(t: u32) -> u32
    ensures { result ≡ unsigned_abs (signed t) }
{
    t.cast_signed().unsigned_abs()
}

// ITOF: the nearest FLOAT to an INT, which is its number over 1.
#[tactic(auto, using(rules::proofs::Readings::sign_below), unfolding(rules::specs::Floats::int_to_f))]
pub fn int_to_f(t: u32) -> u32
    ensures { result ≡ int_to_f t }
{
    rounding::nearest_f(t >= words::LOWEST, size_of(t), 1)
}

// FTOI: whether the value, cut toward zero, is an INT. Without its sign it is below 2^31, or it is -2^31; a NaN and an infinity lie above.
#[tactic(auto, using(nearest::proofs::Cut::int_below, nearest::proofs::Cut::int_by_lowest))]
pub fn has_int(t: u32) -> bool
    ensures { result ≡ has_int t }
{
    t % SIGN < ABOVE_HIGHEST || t == LOWEST
}

// The whole part of a value that has an INT, without its sign.
#[tactic(auto, using(nearest::proofs::Cut::whole_none, nearest::proofs::Cut::whole_part, nearest::proofs::Cut::whole_all, nearest::proofs::Cut::whole_fits))]
fn whole_of(t: u32) -> u32
    requires { exponent t < 159 }
    ensures { result ≡ magnitude t / scale }
{
    let exponent = t / EXPONENT_WEIGHT % EXPONENT_SPAN;
    let digits = EXPONENT_WEIGHT + t % EXPONENT_WEIGHT;
    if exponent < FROM_ONE {
        return 0;
    }
    if exponent < WHOLE {
        return digits >> (WHOLE - exponent);
    }
    digits << (exponent - WHOLE)
}

// FTOI: the word of the INT that is left. Where there is none, which a step refuses, it is 0.
// Stays: 0 and no None there, since that is what its clause promises, and that of a public function may not change.
#[tactic(auto, using(nearest::proofs::Cut::int_exponent, nearest::proofs::Cut::cut_plus, nearest::proofs::Cut::cut_minus))]
pub fn cut(t: u32) -> u32
    ensures { result ≡ (if has_int t then word (cut t) else 0) }
{
    if !has_int(t) {
        return 0;
    }
    let whole = whole_of(t);
    if t < SIGN {
        whole
    } else {
        whole.wrapping_neg()
    }
}

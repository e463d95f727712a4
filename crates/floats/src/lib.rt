// The F operations on words, each by one operation of f32 between the value of the bits and the bits of the value; and EQUAL of two FLOATs, by the bits.
// f32's own readings are undefined at a NaN, so that a NaN is told apart before and after. It is told apart by a branch, so that the two words are
// read one by one, as they were written.
#![tactic(auto)]

ghost use Rattle.std.specs.Prelude.{◌≡◌, true, false, from_bits, is_nan, to_bits};
ghost use Rattle.std.specs.Float.{binary32};
ghost use Rattle.rules.specs.Floats.{plus_f, minus_f, times_f, quotient_f, unordered, ordered_f, equal_f};
ghost use Rattle.nearest.specs.Equal.{is_zero};

use word::tests::sense;

pub mod conversions;
pub mod rounding;

// The bit of the sign.
pub const SIGN: u32 = 0x8000_0000;

// What 1 counts for in the field of the exponent.
pub const EXPONENT_WEIGHT: u32 = 0x80_0000;

// Twice the bits of an infinity.
const TWICE_INFINITY: u32 = 0xff00_0000;

// "A NaN result is #7FC00000."
const NAN: u32 = 0x7fc0_0000;

// Whether the bits are a NaN's: without the sign, which doubling drops, above those of an infinity.
pub fn is_nan(b: u32) -> bool
    ensures { result ≡ is_nan (from_bits binary32 b) }
{
    b.wrapping_add(b) > TWICE_INFINITY
}

// Whether the bits are one of the two zeros.
fn is_zero(b: u32) -> bool
    ensures { result ≡ is_zero b }
{
    (b == 0) | (b == SIGN)
}

// The value that the bits stand for.
#[tactic(auto, using(crate::proofs::Nan::no_nan, crate::proofs::Nan::is_nan_lem, crate::proofs::Nan::zero_by_zero))]
fn value_of(b: u32) -> f32
    ensures { result ≡ from_bits binary32 b }
{
    if is_nan(b) {
        0.0 / 0.0
    } else {
        f32::from_bits(b)
    }
}

// The bits of a value, #7FC00000 of a NaN.
#[tactic(auto, using(crate::proofs::Nan::not_nan, crate::proofs::Nan::nan_bits_lem))]
fn bits_of(x: f32) -> u32
    ensures { result ≡ to_bits binary32 x }
{
    if x != x { NAN } else { x.to_bits() }
}

// Whether one of the two is a NaN: then a result is a NaN too, and CMPF has no answer.
#[tactic(auto, unfolding(rules::specs::Floats::unordered))]
pub fn unordered(b: u32, t: u32) -> bool
    ensures { result ≡ unordered b t }
{
    is_nan(b) | is_nan(t)
}

// The bits of what the operation makes of the two values, rounded once: #7FC00000 where one of them is a NaN.
#[tactic(auto, using(crate::proofs::Nan::first_number, crate::proofs::Nan::second_number))]
fn rounded<F: Fn(f32, f32) -> f32>(b: u32, t: u32, operation: F) -> u32
    requires { F.IsAlwaysCallable operation }
    ensures nan { unordered b t ≡ true → result ≡ NAN }
    ensures number { unordered b t ≡ false → (r : _) × F.post operation (from_bits binary32 b) (from_bits binary32 t) r × (result ≡ to_bits binary32 r) }
{
    if unordered(b, t) {
        return NAN;
    }
    bits_of(operation(f32::from_bits(b), f32::from_bits(t)))
}

// ADDF: the sum, rounded once.
pub fn plus_f(b: u32, t: u32) -> u32
    ensures { result ≡ plus_f b t }
{
    rounded(b, t, |x, y| x + y)
}

// SUBF: the difference, rounded once.
pub fn minus_f(b: u32, t: u32) -> u32
    ensures { result ≡ minus_f b t }
{
    rounded(b, t, |x, y| x - y)
}

// TIMESF: the product, rounded once.
pub fn times_f(b: u32, t: u32) -> u32
    ensures { result ≡ times_f b t }
{
    rounded(b, t, |x, y| x * y)
}

// DIVF: the quotient, rounded once.
pub fn quotient_f(b: u32, t: u32) -> u32
    ensures { result ≡ quotient_f b t }
{
    rounded(b, t, |x, y| x / y)
}

// CMPF: CMP of the values. With a NaN, which a step refuses, it is 0.
// Stays: 0 and no None there, since that is what its clause promises, and that of a public function may not change.
#[tactic(auto, unfolding(rules::specs::Floats::ordered_f))]
pub fn ordered_f(b: u32, t: u32) -> u32
    ensures { result ≡ ordered_f b t }
{
    let x = value_of(b);
    let y = value_of(t);
    sense(x < y, y < x)
}

// EQUAL of two FLOATs: equal bits are equal values but for a NaN, which is equal to nothing; of unlike bits only the two zeros are equal.
#[tactic(auto, using(nearest::proofs::Equal::equal_itself, nearest::proofs::Equal::equal_unlike))]
pub fn equal_f(b: u32, t: u32) -> bool
    ensures { result ≡ equal_f b t }
{
    if b == t {
        return !is_nan(b);
    }
    is_zero(b) & is_zero(t)
}
